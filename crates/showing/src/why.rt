// What is shown of why a text is read as it is: `NUMBER PLACE COUNT LIMIT VALUE LABEL LENGTH LINE`. Refuses nothing itself.
ghost use Rattle.std.specs.Prelude.{◌≡◌};
ghost use Rattle.streams.specs.Sheet.{put_on};
ghost use Rattle.label_writer.specs.LabelText.{frames_mark, sections_text};
ghost use Rattle.showing.specs.Why.{puts_on, spaced_parts, accepted_parts, turned_down_parts, read_parts, limit_parts, first_parts, fact_parts, told_parts, reasoned_parts, why_on};

use answers::Refusal;
use faults::Fault;
use label_writer::{Label, TimecodeSections};
use reading::Read;
use reasons::{Fact, Reason};
use streams::Page;
use timecodes::Timecode;

// A space and a number by sign and magnitude.
#[tactic(auto, unfolding(crate::specs::Why::puts_on))]
pub(crate) fn put_spaced<P: Page>(sheet: &mut P, minus: bool, m: u64)
    ensures { P.seen sheet.new ≡ puts_on (P.seen sheet.old) (spaced_parts minus m) }
{
    sheet.put_byte(b' ');
    sheet.put_signed(minus, m);
}

// An accepted text: `0 0 COUNT`.
fn put_accepted<P: Page>(sheet: &mut P, tc: Timecode)
    ensures { P.seen sheet.new ≡ puts_on (P.seen sheet.old) (accepted_parts tc) }
{
    sheet.put_text(b"0 0 ");
    crate::put_shown(sheet, crate::one_count(None, tc));
}

// A text that is turned down: `NUMBER PLACE 0`.
#[tactic(auto, unfolding(crate::specs::Why::puts_on, crate::specs::Why::turned_down_parts))]
fn put_turned_down<P: Page>(sheet: &mut P, e: Refusal)
    ensures { P.seen sheet.new ≡ puts_on (P.seen sheet.old) (turned_down_parts e) }
{
    sheet.put_signed(false, e.cause.number() as u64);
    put_spaced(sheet, false, e.place as u64);
    sheet.put_text(b" 0");
}

// What the reader answers: `NUMBER PLACE COUNT`.
fn put_read<P: Page>(sheet: &mut P, read: Result<Read, Refusal>)
    ensures { P.seen sheet.new ≡ puts_on (P.seen sheet.old) (read_parts read) }
{
    match read {
        Ok(Read::Label(tc) | Read::Footage(tc, _)) => put_accepted(sheet, tc),
        Err(e) => put_turned_down(sheet, e),
    }
}

// A field at fault, behind a space: `LIMIT VALUE -`.
#[tactic(auto, unfolding(crate::specs::Why::puts_on, crate::specs::Why::limit_parts))]
fn put_limit<P: Page>(sheet: &mut P, f: Fault)
    ensures { P.seen sheet.new ≡ puts_on (P.seen sheet.old) (limit_parts f) }
{
    put_spaced(sheet, f.minus, f.limit);
    put_spaced(sheet, f.minus, f.value);
    sheet.put_text(b" -");
}

// The text of a label by its sections, as the label writer has it at a rate.
fn put_label<P: Page>(sheet: &mut P, s: TimecodeSections, rate: u64)
    ensures { P.seen sheet.new ≡ put_on (P.seen sheet.old) (sections_text (frames_mark rate) s) }
{
    sheet.put(&Label { sections: s, rate });
}

// The first allowed label, behind a space: `0 0 LABEL`.
#[tactic(auto, unfolding(crate::specs::Why::puts_on, crate::specs::Why::first_parts))]
fn put_first<P: Page>(sheet: &mut P, s: TimecodeSections, rate: u64)
    ensures { P.seen sheet.new ≡ puts_on (P.seen sheet.old) (first_parts rate s) }
{
    sheet.put_text(b" 0 0 ");
    put_label(sheet, s, rate);
}

// The fact behind the number, behind a space: `LIMIT VALUE LABEL`.
#[tactic(auto, unfolding(crate::specs::Why::puts_on))]
fn put_fact<P: Page>(sheet: &mut P, fact: Option<Fact>, rate: u64)
    ensures { P.seen sheet.new ≡ puts_on (P.seen sheet.old) (fact_parts rate fact) }
{
    match fact {
        None => sheet.put_text(b" 0 0 -"),
        Some(Fact::Limit(f)) => put_limit(sheet, f),
        Some(Fact::First(s)) => put_first(sheet, s, rate),
    }
}

// What is told: `NUMBER PLACE COUNT LIMIT VALUE LABEL LENGTH`.
fn put_told<P: Page>(sheet: &mut P, r: Reason, rate: u64)
    ensures { P.seen sheet.new ≡ puts_on (P.seen sheet.old) (told_parts rate r) }
{
    put_read(sheet, r.read);
    put_fact(sheet, r.fact, rate);
    put_spaced(sheet, false, r.length as u64);
}

// What is told, or why nothing could be.
fn put_reasoned<P: Page>(sheet: &mut P, w: Result<Reason, Refusal>, rate: u64)
    ensures { P.seen sheet.new ≡ puts_on (P.seen sheet.old) (reasoned_parts rate w) }
{
    match w {
        Ok(r) => put_told(sheet, r, rate),
        Err(e) => crate::put_shown(sheet, crate::each::of_refusal(e)),
    }
}

// Why a text is read as it is at a rate, as a line behind what the sheet has, with the whole line that the phrase was laid into.
pub fn show_why<P: Page>(sheet: &mut P, w: Result<Reason, Refusal>, rate: u64, line: &[u8])
    ensures { P.seen sheet.new ≡ why_on (P.seen sheet.old) rate w line.now }
{
    put_reasoned(sheet, w, rate);
    sheet.put_byte(b' ');
    sheet.put_text(line);
    sheet.put_byte(b'\n');
}
