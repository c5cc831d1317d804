// The line program's answer to one line of input, to be laid into the caller's line or onto a sheet. A line is refused 1 or as its text is,
// and the answer says so; refused 8, where the answer has no room.
#![tactic(auto)]

ghost use Rattle.std.specs.Prelude.{◌≡◌, true, ◌∷◌, [], ◌++◌, ◌≤◌, length};
ghost use Rattle.lent.specs.Line.{laid};
ghost use Rattle.label_writer.specs.LabelText.{frames_mark, sections_text};
ghost use Rattle.written.specs.Written.{Text, answer_to, line_to};
ghost use Rattle.lines.specs.Input.{is_line, rate_in, line_holds, line_of};
ghost use Rattle.lines.specs.Output.{refused_text, answer_text, ended_text, columns_of, columns_text, columns_held, answer_of, text_of};

use answers::{Cause, Refusal};
use label_writer::TimecodeSections;
use reading::Read;
use timecodes::{Kind, Timecode};
use written::Writable;

// The three columns of an answer: a count by sign and magnitude, the sections of a label at a rate, ticks by sign and magnitude.
#[derive(Clone, Copy)]
struct Columns {
    below: bool,
    count: u64,
    sections: TimecodeSections,
    rate: u64,
    minus: bool,
    ticks: u64,
}

// The answer to a line that is refused, by the refusal's number.
#[derive(Clone, Copy)]
struct RefusedLine {
    number: u64,
}

// The answer to a line of input: a text of one line, its newline included.
#[derive(Clone, Copy)]
pub struct LineAnswer {
    content: Content,
}

// What an answer holds.
#[derive(Clone, Copy)]
enum Content {
    Timecode(Columns),
    Refused(RefusedLine),
}

// The answer to a line of input, laid down from `place` on: its length, and every byte of `out` afterwards.
// Refuses 8: place plus text length exceeds the length of `out`.
pub fn answer(input: &[u8], out: &mut [u8], place: usize) -> Result<usize, Refusal>
    ensures answer { result ≡ answer_to out.old place (Text (answer_text input.now)) }
    ensures line { out.new ≡ line_to out.old place (Text (answer_text input.now)) }
{
    written::write(&answer_to_line(input), out, place)
}

// The answer to a line of input, its newline not counted.
pub fn answer_to_line(input: &[u8]) -> LineAnswer
    ensures { result ≡ answer_of input.now }
{
    match columns_held(input) {
        Ok(columns) => LineAnswer {
            content: Content::Timecode(columns),
        },
        Err(e) => LineAnswer {
            content: Content::Refused(RefusedLine {
                number: u64::from(e.cause.number()),
            }),
        },
    }
}

// The columns of the timecode that a line holds: the sections of one that a line holds are never refused.
fn columns_held(input: &[u8]) -> Result<Columns, Refusal>
    ensures { result ≡ columns_held (line_of input.now) }
{
    let tc = read_line(input)?;
    let sections = label_writer::sections(tc)?;
    Ok(columns_of(tc, sections))
}

// What a line of input holds, its newline not counted. Refuses 1: it has over 64 bytes, or does not begin with two digits of rate and a
// space; else as its text is refused at this rate, no film format stated.
fn read_line(input: &[u8]) -> Result<Timecode, Refusal>
    ensures { result ≡ line_of input.now }
{
    if !is_line(input) {
        return Err(Cause::NoShape.into());
    }
    let rate = rate_in(input);
    line_holds(reading::read_text(&input[3..], None, rate, Kind::Length))
}

// Has the line at most 64 bytes, and does it begin with two digits and a space?
#[tactic(auto, using(crate::proofs::Begun::by_bytes, crate::proofs::Begun::out_of_length))]
fn is_line(input: &[u8]) -> bool
    ensures { result ≡ is_line input.now }
{
    (3..=64).contains(&input.len())
        && digits::is_digit(input[0])
        && digits::is_digit(input[1])
        && input[2] == b' '
}

// The rate of a line. Asks that it is one.
#[tactic(auto, using(crate::proofs::Begun::rate_run))]
fn rate_in(input: &[u8]) -> u64
    requires { is_line input.now ≡ true }
    ensures { result ≡ rate_in input.now }
{
    digits::run_at(input, 0).value
}

// A text's answer as that of its line: a label and a footage hold a timecode alike.
fn line_holds(read: Result<Read, Refusal>) -> Result<Timecode, Refusal>
    ensures { result ≡ line_holds read }
{
    match read? {
        Read::Label(tc) => Ok(tc),
        Read::Footage(tc, _) => Ok(tc),
    }
}

// The columns of a timecode and the sections of its label.
fn columns_of(tc: Timecode, sections: TimecodeSections) -> Columns
    ensures { result ≡ columns_of tc sections }
{
    let instant = timecodes::instant_of(tc);
    Columns {
        below: tc.count < 0,
        count: tc.count.unsigned_abs(),
        sections,
        rate: tc.rate,
        minus: instant < 0,
        ticks: instant.unsigned_abs(),
    }
}

impl Writable for LineAnswer {
    ghost text = { λ a. text_of a };

    fn length(&self) -> usize {
        match &self.content {
            Content::Timecode(columns) => columns.length(),
            Content::Refused(refused) => refused.length(),
        }
    }

    fn put(&self, part: &mut [u8]) {
        match &self.content {
            Content::Timecode(columns) => columns.put(part),
            Content::Refused(refused) => refused.put(part),
        }
    }
}

impl Writable for Columns {
    ghost text = { λ c. columns_text c };

    fn length(&self) -> usize {
        written::signed_length(self.below, self.count)
            + label_writer::sections_length(self.sections)
            + written::signed_length(self.minus, self.ticks)
            + 3
    }

    #[tactic(auto, using(crate::proofs::Texts::columns_length, crate::proofs::Texts::ended_length, crate::proofs::Texts::label_length))]
    fn put(&self, part: &mut [u8]) {
        let first = written::signed_length(self.below, self.count) + 1;
        let second = first + label_writer::sections_length(self.sections) + 1;
        put_ended(part, self.below, self.count, b' ');
        put_label(&mut part[first..], self.sections, self.rate);
        put_ended(&mut part[second..], self.minus, self.ticks, b'\n');
    }
}

impl Writable for RefusedLine {
    ghost text = { λ r. refused_text r.number };

    fn length(&self) -> usize {
        written::signed_length(false, self.number) + 9
    }

    #[tactic(auto, using(crate::proofs::Texts::refused_length, crate::proofs::Texts::ended_length))]
    fn put(&self, part: &mut [u8]) {
        lent::put_text(part, b"refused ");
        put_ended(&mut part[8..], false, self.number, b'\n');
    }
}

// A number and the byte behind it at the front of a part; every other byte stays. Asks their room.
#[tactic(auto, using(crate::proofs::Texts::ended_length))]
fn put_ended(part: &mut [u8], minus: bool, m: u64, end: u8)
    requires { length (ended_text minus m end) ≤ length part.old }
    ensures { part.new ≡ laid part.old (ended_text minus m end) }
{
    let at = written::signed_length(minus, m);
    written::put_signed(part, minus, m);
    lent::put_byte(&mut part[at..], end);
}

// A label and the space behind it at the front of a part; every other byte stays. Asks their room.
#[tactic(auto, using(crate::proofs::Texts::labelled_length))]
fn put_label(part: &mut [u8], s: TimecodeSections, rate: u64)
    requires { length (sections_text (frames_mark rate) s ++ (32 ∷ [])) ≤ length part.old }
    ensures { part.new ≡ laid part.old (sections_text (frames_mark rate) s ++ (32 ∷ [])) }
{
    let at = label_writer::sections_length(s);
    label_writer::put_sections(part, s, rate);
    lent::put_byte(&mut part[at..], b' ');
}
