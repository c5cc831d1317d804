// Why a text is read as it is: the numbers of what the reader answers, and of the fact behind it.
ghost use Rattle.std.specs.Prelude.{◌≡◌};
ghost use Rattle.timecodes.specs.Kinds.{kind_from};
ghost use Rattle.written.specs.Written.{Text, line_to};
ghost use Rattle.reasons.specs.Why.{phrase_for, why_of};
ghost use Rattle.exports.specs.HandedWhy.{stated_from, field_number, limit_fact, first_fact, fact_numbers, told_reason, no_reason, handed_reason};

use crate::handed;
use crate::handed::TzqRead;
use answers::Refusal;
use faults::{Fault, Field};
use label_writer::TimecodeSections;
use reasons::{Fact, Reason};
use timecodes::Kind;

// What the reader answers (a number, 0: accepted; a place; a count, a footage's film format, and whether it is a position), which field is
// at fault (0: none), its limit and its value, the first allowed label for 3, and the phrase's length. Refused: all others 0.
#[repr(C)]
#[derive(Clone, Copy)]
pub struct TzqReason {
    pub refused: u64,
    pub number: u64,
    pub place: usize,
    pub count: i64,
    pub format: u64,
    pub position: bool,
    pub field: u64,
    pub limit: i64,
    pub value: i64,
    pub negative: bool,
    pub hours: u64,
    pub minutes: u64,
    pub seconds: u64,
    pub frames: u64,
    pub length: usize,
}

// The numbers of a fact: a field with its limit and its value, or the fields of a label; those of the other kind are 0, and by default all.
#[derive(Clone, Copy, Default)]
struct FactNumbers {
    field: u64,
    limit: i64,
    value: i64,
    negative: bool,
    hours: u64,
    minutes: u64,
    seconds: u64,
    frames: u64,
}

// The film format that is stated, or none.
fn stated_from(stated: bool, format: u64) -> Option<u64>
    ensures { result ≡ stated_from stated format }
{
    stated.then_some(format)
}

// The number that C has for a field.
fn field_number(field: Field) -> u64
    ensures { result ≡ field_number field }
{
    match field {
        Field::Count => 1,
        Field::Sign => 2,
        Field::Hours => 3,
        Field::Minutes => 4,
        Field::Seconds => 5,
        Field::Frames => 6,
        Field::Marker => 7,
    }
}

// A field at fault: its limit and its value, with their sign.
impl From<Fault> for FactNumbers {
    ghost from_gives = { λ f n. n ≡ limit_fact f };

    fn from(f: Fault) -> FactNumbers {
        FactNumbers {
            field: field_number(f.field),
            limit: numbers::with_sign(f.minus, f.limit),
            value: numbers::with_sign(f.minus, f.value),
            ..FactNumbers::default()
        }
    }
}

// The first allowed label.
impl From<TimecodeSections> for FactNumbers {
    ghost from_gives = { λ s n. n ≡ first_fact s };

    fn from(s: TimecodeSections) -> FactNumbers {
        FactNumbers {
            negative: s.negative,
            hours: s.hours,
            minutes: s.minutes,
            seconds: s.seconds,
            frames: s.frames,
            ..FactNumbers::default()
        }
    }
}

// The numbers of any fact.
impl From<Option<Fact>> for FactNumbers {
    ghost from_gives = { λ fact n. n ≡ fact_numbers fact };

    fn from(fact: Option<Fact>) -> FactNumbers {
        match fact {
            None => FactNumbers::default(),
            Some(Fact::Limit(f)) => f.into(),
            Some(Fact::First(s)) => s.into(),
        }
    }
}

// What is told: the reader's numbers as `tzq_read` hands them over, and those of the fact.
impl From<Reason> for TzqReason {
    ghost from_gives = { λ r t. t ≡ told_reason r };

    fn from(r: Reason) -> TzqReason {
        let a = TzqRead::from(r.read);
        let n = FactNumbers::from(r.fact);
        TzqReason {
            refused: 0,
            number: a.refused,
            place: a.place,
            count: a.count,
            format: a.format,
            position: a.position,
            field: n.field,
            limit: n.limit,
            value: n.value,
            negative: n.negative,
            hours: n.hours,
            minutes: n.minutes,
            seconds: n.seconds,
            frames: n.frames,
            length: r.length,
        }
    }
}

// A refusal of the tool's own: every other number is 0.
impl From<Refusal> for TzqReason {
    ghost from_gives = { λ e t. t ≡ no_reason e };

    fn from(e: Refusal) -> TzqReason {
        TzqReason {
            refused: handed::number_of(e),
            number: 0,
            place: 0,
            count: 0,
            format: 0,
            position: false,
            field: 0,
            limit: 0,
            value: 0,
            negative: false,
            hours: 0,
            minutes: 0,
            seconds: 0,
            frames: 0,
            length: 0,
        }
    }
}

// What is told, or the refusal.
impl From<Result<Reason, Refusal>> for TzqReason {
    ghost from_gives = { λ a t. t ≡ handed_reason a };

    fn from(a: Result<Reason, Refusal>) -> TzqReason {
        match a {
            Ok(r) => r.into(),
            Err(e) => e.into(),
        }
    }
}

// Why a text is read as it is at a rate, a length or a position, with a film format stated or none: its phrase is laid down from `place` on.
// Refuses 8: no room.
#[unsafe(no_mangle)]
pub extern "C" fn tzq_why(
    text: &[u8],
    stated: bool,
    format: u64,
    rate: u64,
    position: bool,
    line: &mut [u8],
    place: usize,
) -> TzqReason
    ensures answer { result ≡ handed_reason (why_of (kind_from position) text.now (stated_from stated format) rate line.old place) }
    ensures line { line.new ≡ line_to line.old place (Text (phrase_for (kind_from position) text.now (stated_from stated format) rate)) }
{
    let said = stated_from(stated, format);
    reasons::why(text, said, rate, Kind::from(position), line, place).into()
}
