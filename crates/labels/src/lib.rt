// Labels and counts: the count of a label's four fields, whether it is dropped, and the fields of the label of a count.
// A label's fields are an array of hours, minutes, seconds and frames; d labels are dropped in each minute but each tenth.
// Refused 6: no such rate; 5: a count outside its bounds.
#![tactic(auto)]

ghost use Rattle.std.specs.Prelude.{◌≡◌};
ghost use Rattle.labels.specs.Label.{dropped_in, is_short};
ghost use Rattle.labels.specs.AtRate.{frames_or, label_counted, sections_at};
ghost use Rattle.labels.specs.Faults.{strict_fault};

use answers::{Cause, Refusal};
use faults::{Fault, Field};

mod numbering;

use numbering::Numbering;

// The count of a label's fields at a rate, with this sign. Refuses 6: no such rate; 5: it is outside its bounds.
pub fn label_count(fields: [u64; 4], rate: u64, minus: bool) -> Result<i64, Refusal>
    ensures { result ≡ label_counted rate minus fields }
{
    if !rates::is_rate(rate) {
        return Err(Cause::NoSuch.into());
    }
    answers::held(minus, label_frames(fields, rate))
}

// The exact count of a label's fields at a rate, where each has at most 9 digits; a number beyond all bounds for others, whose count is no
// less, and where there is no such rate.
#[tactic(auto, unfolding(crate::specs::AtRate::frames_or))]
pub fn label_frames(fields: [u64; 4], rate: u64) -> u64
    ensures { result ≡ frames_or rate fields }
{
    if !rates::is_rate(rate) || !is_short(fields) {
        return answers::BEYOND;
    }
    Numbering::of(rate).count(fields)
}

// Whether each field has at most 9 digits.
#[tactic(auto, unfolding(crate::specs::Label::is_short))]
fn is_short(fields: [u64; 4]) -> bool
    ensures { result ≡ is_short fields }
{
    fields.iter().all(|&field| field < answers::BEYOND)
}

// Whether a label's fields are those of a dropped label.
#[tactic(auto, unfolding(crate::specs::Label::is_dropped))]
pub fn is_dropped(fields: [u64; 4], d: u64) -> bool
    ensures { result ≡ dropped_in d fields }
{
    let [_, minutes, seconds, frames] = fields;
    seconds == 0 && frames < d && minutes % 10 != 0
}

// The first field from the left that a strict label of the day does not have: hours under 24, minutes and seconds under 60, frames under
// the timebase.
#[tactic(auto, unfolding(crate::specs::Faults::strict_fault))]
pub fn strict_fault(fields: [u64; 4], timebase: u64) -> Option<Fault>
    ensures { result ≡ strict_fault timebase fields }
{
    let [hours, minutes, seconds, frames] = fields;
    faults::under(Field::Hours, 24, hours)
        .or(faults::under(Field::Minutes, 60, minutes))
        .or(faults::under(Field::Seconds, 60, seconds))
        .or(faults::under(Field::Frames, timebase, frames))
}

// The fields of the one allowed label whose count is n, at a rate (vtc's `sections`); zeros where there is no such rate or count.
#[tactic(auto, unfolding(crate::specs::AtRate::sections_at))]
pub fn sections(n: u64, rate: u64) -> [u64; 4]
    ensures { result ≡ sections_at rate n }
{
    if !rates::is_rate(rate) || n > answers::MOST_COUNT {
        return [0; 4];
    }
    Numbering::of(rate).sections(n)
}
