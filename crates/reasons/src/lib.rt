// Why a text was turned down: the reader's own answer, the phrase of its number, laid into the caller's line, and the fact behind it. It
// takes the reader's steps, one after the other. Refuses 8 alone, where the phrase has no room.
#![tactic(auto)]

ghost use Rattle.std.specs.Prelude.{◌≡◌};
ghost use Rattle.answers.specs.Causes.{cause_number};
ghost use Rattle.labels.specs.Label.{Short};
ghost use Rattle.written.specs.Written.{Text, line_to};
ghost use Rattle.reading.specs.Answer.{number_of};
ghost use Rattle.reading.specs.Taken.{shaped_in};
ghost use Rattle.reasons.specs.Facts.{limit_from, first_label, label_fact, footage_fact, ShortLabel, fact_by};
ghost use Rattle.reasons.specs.Why.{phrase_for, why_of};

use answers::{Cause, Refusal};
use faults::Fault;
use film::FilmFormat;
use footage_scan::FootageScan;
use label_scan::LabelScan;
use label_writer::TimecodeSections;
use reading::{Read, Taken};
use timecodes::Kind;

// The fact behind a number: a field's limit and its value; or the first allowed label of the minute.
#[derive(Clone, Copy)]
pub enum Fact {
    Limit(Fault),
    First(TimecodeSections),
}

// What the reader answers, the fact behind it, if there is one, and how many bytes its phrase has.
#[derive(Clone, Copy)]
pub struct Reason {
    pub read: Result<Read, Refusal>,
    pub fact: Option<Fact>,
    pub length: usize,
}

// A fault as a fact.
fn limit_from(found: Option<Fault>) -> Option<Fact>
    ensures { result ≡ limit_from found }
{
    let fault = found?;
    Some(Fact::Limit(fault))
}

// The first allowed label of a dropped label's minute, under its sign: minutes past 59 are carried into hours. Asks fields of at most 9
// digits.
fn first_label(minus: bool, fields: [u64; 4], d: u64) -> TimecodeSections
    requires { Short fields }
    ensures { result ≡ first_label d minus fields }
{
    let [hours, minutes, _, _] = fields;
    TimecodeSections {
        negative: minus,
        hours: hours + minutes / 60,
        minutes: minutes % 60,
        seconds: 0,
        frames: d,
    }
}

// The fact behind a label's refusal. Asks fields of at most 9 digits.
fn label_fact(cause: Cause, rate: u64, scan: LabelScan) -> Option<Fact>
    requires { Short scan.fields }
    ensures { result ≡ label_fact (cause_number cause) rate scan.minus scan.fields }
{
    match cause {
        Cause::DroppedLabel => {
            let d = rates::drop_frames_per_minute(rate);
            Some(Fact::First(first_label(scan.minus, scan.fields, d)))
        }
        Cause::OutOfBounds => {
            let frames = labels::label_frames(scan.fields, rate);
            limit_from(faults::count_fault(scan.minus, frames))
        }
        Cause::NotStrict => limit_from(reading::position_fault(rate, scan.minus, scan.fields)),
        _ => None,
    }
}

// The fact behind a footage's refusal.
fn footage_fact(cause: Cause, format: FilmFormat, scan: FootageScan) -> Option<Fact>
    ensures { result ≡ footage_fact (cause_number cause) format scan.minus scan.feet scan.frames scan.perf scan.marker }
{
    match cause {
        Cause::OutOfBounds => {
            let frames = film::footage_frames(format, scan.feet, scan.frames);
            limit_from(faults::count_fault(scan.minus, frames))
        }
        Cause::NotOnFilm => limit_from(film::film_fault(
            format,
            scan.feet,
            scan.frames,
            scan.perf,
            scan.marker,
        )),
        _ => None,
    }
}

// The fact behind the refusal of what a text was taken for. Asks a label's fields of at most 9 digits.
fn fact_by(
    cause: Cause,
    rate: u64,
    stated: Option<u64>,
    taken: Result<Taken, Refusal>,
) -> Option<Fact>
    requires { ShortLabel (shaped_in taken) }
    ensures { result ≡ fact_by (cause_number cause) rate stated (shaped_in taken) }
{
    match taken {
        Ok(Taken::Label(scan)) => label_fact(cause, rate, scan),
        Ok(Taken::Footage(scan)) => {
            footage_fact(cause, reading::format_for(stated, scan.perf), scan)
        }
        Err(_) => None,
    }
}

// The fact behind an answer: there is none where nothing is refused. Asks as `fact_by` does.
fn fact_behind(
    read: Result<Read, Refusal>,
    rate: u64,
    stated: Option<u64>,
    taken: Result<Taken, Refusal>,
) -> Option<Fact>
    requires { ShortLabel (shaped_in taken) }
    ensures { result ≡ fact_by (number_of read) rate stated (shaped_in taken) }
{
    match read {
        Ok(_) => None,
        Err(e) => fact_by(e.cause, rate, stated, taken),
    }
}

// Why a text is read as it is, a length or a position at a rate: its phrase is laid down from `place` on. Refuses 8: the phrase has no room;
// then no byte changes.
pub fn why(
    text: &[u8],
    stated: Option<u64>,
    rate: u64,
    kind: Kind,
    line: &mut [u8],
    place: usize,
) -> Result<Reason, Refusal>
    ensures answer { result ≡ why_of kind text.now stated rate line.old place }
    ensures line { line.new ≡ line_to line.old place (Text (phrase_for kind text.now stated rate)) }
{
    let taken = reading::take_text(text, stated);
    let read = reading::read_taken(taken, stated, rate, kind);
    let length = phrases::write_phrase(answers::number(&read), line, place)?;
    Ok(Reason {
        read,
        fact: fact_behind(read, rate, stated, taken),
        length,
    })
}
