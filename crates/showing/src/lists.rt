// What is shown of a shot list: how many records it has, and each as words; or the refusal of its earliest record at fault.
ghost use Rattle.std.specs.Prelude.{◌≡◌, true};
ghost use Rattle.shot_lists.specs.Entries.{on_disk};
ghost use Rattle.shot_lists.specs.Reading.{read_of, is_faultless};
ghost use Rattle.showing.specs.Lists.{numbered_on, frames_on, record_on, reading_on, list_on};

use shot_lists::Record;
use streams::Page;

// A word, with the spaces around it, and a number.
#[tactic(auto, unfolding(crate::specs::Lists::numbered_on))]
fn put_numbered<P: Page>(sheet: &mut P, word: &[u8], n: u64)
    ensures { P.seen sheet.new ≡ numbered_on (P.seen sheet.old) word.now n }
{
    sheet.put_text(word);
    sheet.put_signed(false, n);
}

// A shot: its first frame and its end.
#[tactic(auto, unfolding(crate::specs::Lists::frames_on))]
fn put_frames<P: Page>(sheet: &mut P, first: i64, end: i64)
    ensures { P.seen sheet.new ≡ frames_on (P.seen sheet.old) first end }
{
    sheet.put_text(b" shot ");
    crate::put_number(sheet, first);
    sheet.put_byte(b' ');
    crate::put_number(sheet, end);
}

// A record as words, a space in front of each.
fn put_words<P: Page>(sheet: &mut P, found: Record)
    ensures { P.seen sheet.new ≡ record_on (P.seen sheet.old) found }
{
    match found {
        Record::Rate(n) => put_numbered(sheet, b" rate ", n),
        Record::Shot { first, end } => put_frames(sheet, first, end),
        Record::Reel(n) => put_numbered(sheet, b" reel ", n),
    }
}

// The records of a list, one after the other. Asks a list without fault.
fn put_records<P: Page>(sheet: &mut P, list: &[u8])
    requires { is_faultless (read_of on_disk list.now) ≡ true }
    ensures { P.seen sheet.new ≡ reading_on (P.seen sheet.old) (read_of on_disk list.now) }
{
    let mut at = 0;
    let mut held = 0;
    while at < list.len() {
        match shot_lists::record_at(list, at, held) {
            Ok(Some(taken)) => {
                put_words(sheet, taken.found);
                at += taken.size;
                held = taken.held;
            }
            Ok(None) => return,
            Err(_) => return,
        }
    }
}

// A shot list as a line behind what the sheet has: how many records, and each as words, or its refusal.
pub fn show_list<P: Page>(sheet: &mut P, list: &[u8])
    ensures { P.seen sheet.new ≡ list_on (P.seen sheet.old) (read_of on_disk list.now) }
{
    match shot_lists::check_list(list) {
        Ok(n) => {
            sheet.put_signed(false, n as u64);
            put_records(sheet, list);
            sheet.put_byte(b'\n');
        }
        Err(e) => crate::show(sheet, crate::each::of_refusal(e)),
    }
}
