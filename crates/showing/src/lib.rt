// How the calculator shows an answer (docs/ASK.md): one line, put on a sheet. Refuses nothing itself: what has no room changes nothing.
#![tactic(auto)]

ghost use Rattle.std.specs.Prelude.{◌≡◌};
ghost use Rattle.streams.specs.Sheet.{put_on};
ghost use Rattle.showing.specs.Each.{one_number, two_numbers, one_count, count_and};
ghost use Rattle.showing.specs.Shown.{count_text, help_text, word_on, front_on, behind_on, numbers_on, parts_on, shown_on, length_on, written_on};

use answers::Refusal;
use streams::Page;
use timecodes::Timecode;
use written::Writable;

mod each;
mod lists;
mod route;
mod why;

pub use each::{of_answer, of_converted, of_number, of_read, of_timed};
pub use lists::show_list;
pub use route::show_routed;
pub use why::show_why;

// A word before numbers.
#[derive(Clone, Copy)]
pub enum Word {
    Label,
    Footage,
    Refused,
}

// A second number, and the mark before it.
#[derive(Clone, Copy)]
pub struct Second {
    pub mark: u8,
    pub number: u64,
}

// A number or two, behind a word or alone; the first with `@` before it where it is the count of a position.
#[derive(Clone, Copy)]
pub struct Numbers {
    pub word: Option<Word>,
    pub position: bool,
    pub first: i64,
    pub second: Option<Second>,
}

// What is shown: the commands in short, that a line is not understood, or numbers.
#[derive(Clone, Copy)]
pub enum Shown {
    Help,
    NotUnderstood,
    Numbers(Numbers),
}

// A number, behind a word or alone.
pub(crate) fn one_number(word: Option<Word>, x: i64) -> Shown
    ensures { result ≡ one_number word x }
{
    Shown::Numbers(Numbers {
        word,
        position: false,
        first: x,
        second: None,
    })
}

// Two numbers and the mark between them, behind a word or alone.
pub(crate) fn two_numbers(word: Option<Word>, x: i64, mark: u8, y: u64) -> Shown
    ensures { result ≡ two_numbers word x mark y }
{
    Shown::Numbers(Numbers {
        word,
        position: false,
        first: x,
        second: Some(Second { mark, number: y }),
    })
}

// The count of a timecode, behind a word or alone.
pub(crate) fn one_count(word: Option<Word>, tc: Timecode) -> Shown
    ensures { result ≡ one_count word tc }
{
    Shown::Numbers(Numbers {
        word,
        position: tc.kind.is_position(),
        first: tc.count,
        second: None,
    })
}

// The count of a timecode, a space and a number, behind a word or alone.
pub(crate) fn count_and(word: Option<Word>, tc: Timecode, y: u64) -> Shown
    ensures { result ≡ count_and word tc y }
{
    Shown::Numbers(Numbers {
        word,
        position: tc.kind.is_position(),
        first: tc.count,
        second: Some(Second {
            mark: b' ',
            number: y,
        }),
    })
}

// A signed number.
fn put_number<P: Page>(sheet: &mut P, x: i64)
    ensures { P.seen sheet.new ≡ put_on (P.seen sheet.old) (count_text x) }
{
    sheet.put_signed(x < 0, x.unsigned_abs());
}

// A word before numbers.
fn put_word<P: Page>(sheet: &mut P, word: Option<Word>)
    ensures { P.seen sheet.new ≡ word_on (P.seen sheet.old) word }
{
    match word {
        Some(Word::Label) => sheet.put_text(b"label "),
        Some(Word::Footage) => sheet.put_text(b"footage "),
        Some(Word::Refused) => sheet.put_text(b"refused "),
        None => {}
    }
}

// A word before numbers, and the mark of a position.
fn put_front<P: Page>(sheet: &mut P, word: Option<Word>, position: bool)
    ensures { P.seen sheet.new ≡ front_on (P.seen sheet.old) word position }
{
    put_word(sheet, word);
    if position {
        sheet.put_byte(b'@');
    }
}

// The commands in short: a line for each command, or for those that are alike, without the last one's end.
fn put_help<P: Page>(sheet: &mut P)
    ensures { P.seen sheet.new ≡ put_on (P.seen sheet.old) help_text }
{
    sheet.put_text(
        b"read RATE TEXT: label COUNT or footage COUNT FORMAT
read_as FORMAT RATE TEXT: footage COUNT FORMAT
read_runtime RATE TEXT: COUNT
label RATE COUNT PLACE ROOM: LENGTH LINE
footage FORMAT RATE COUNT PLACE ROOM: LENGTH LINE
runtime RATE COUNT PRECISION PLACE ROOM: LENGTH LINE
count RATE COUNT: COUNT
from_ticks RATE TICKS: COUNT
from_seconds RATE P Q: COUNT
ticks RATE COUNT: TICKS
seconds RATE COUNT: P/Q
minute M: FRAME
add, sub RATE COUNT RATE COUNT: COUNT
cmp RATE COUNT RATE COUNT: -1, 0 or 1
mul, divq, remq RATE COUNT P Q: COUNT
div, rem RATE COUNT N: COUNT
neg, abs RATE COUNT: COUNT
rebase RATE COUNT RATE: COUNT
convert RATE COUNT RATE ..: COUNT RATE
read_list HEX: N RECORDS
write_list PLACE ROOM RECORDS: LENGTH HEX
why RATE FORMAT PLACE ROOM TEXT: NUMBER PLACE COUNT LIMIT VALUE LABEL LENGTH LINE
A FORMAT of why that is - states none
route RATE SHARDS LENGTH TEXT: FIRST AFTER
SHARDS of route are FIRST-END,FIRST-END .. or - for none
A refusal is: refused N; of read, read_as and route: refused N PLACE
The first RATE of a command other than route, and the second of add, sub and cmp, may have @ before it: a position; a COUNT that is one has it too",
    );
}

// A second number behind its mark, if there is one.
#[tactic(auto, unfolding(crate::specs::Shown::second_on))]
fn put_second<P: Page>(sheet: &mut P, second: Option<Second>)
    ensures { P.seen sheet.new ≡ behind_on (P.seen sheet.old) second }
{
    if let Some(s) = second {
        sheet.put_byte(s.mark);
        sheet.put_signed(false, s.number);
    }
}

// A number or two, behind a word or alone.
fn put_numbers<P: Page>(sheet: &mut P, n: Numbers)
    ensures { P.seen sheet.new ≡ numbers_on (P.seen sheet.old) n }
{
    put_front(sheet, n.word, n.position);
    put_number(sheet, n.first);
    put_second(sheet, n.second);
}

// An answer behind what the sheet has, without the line's end.
fn put_shown<P: Page>(sheet: &mut P, s: Shown)
    ensures { P.seen sheet.new ≡ parts_on (P.seen sheet.old) s }
{
    match s {
        Shown::Help => put_help(sheet),
        Shown::NotUnderstood => sheet.put_text(b"not understood"),
        Shown::Numbers(n) => put_numbers(sheet, n),
    }
}

// An answer as a line behind what the sheet has.
#[tactic(auto, unfolding(crate::specs::Shown::shown_on))]
pub fn show<P: Page>(sheet: &mut P, s: Shown)
    ensures { P.seen sheet.new ≡ shown_on (P.seen sheet.old) s }
{
    put_shown(sheet, s);
    sheet.put_byte(b'\n');
}

// The length of a text that was laid down, or why it was not.
fn put_length<P: Page>(sheet: &mut P, w: Result<usize, Refusal>)
    ensures { P.seen sheet.new ≡ length_on (P.seen sheet.old) w }
{
    match w {
        Ok(n) => sheet.put_signed(false, n as u64),
        Err(e) => put_shown(sheet, each::of_refusal(e)),
    }
}

// The answer of a writer as a line behind what the sheet has, with the whole line that it wrote into: as it is, or as HEX.
#[tactic(auto, unfolding(crate::specs::Shown::written_on))]
pub fn show_written<P: Page, T: Writable>(sheet: &mut P, w: Result<usize, Refusal>, line: &T)
    ensures { P.seen sheet.new ≡ written_on (P.seen sheet.old) w (T.text line.now) }
{
    put_length(sheet, w);
    sheet.put_byte(b' ');
    sheet.put(line);
    sheet.put_byte(b'\n');
}
