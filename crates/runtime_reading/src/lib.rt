// A runtime's text read as a timecode of a kind at a rate: the frame nearest to its time, halves away from zero; a position is then reduced.
// Refuses 6: no such rate; 1: no shape; 2: a field of over 9 digits or a fraction of over 6; 5: the count is out of a length's bounds; in
// this order, each without a place.
#![tactic(auto)]

ghost use Rattle.std.specs.Prelude.{◌≡◌, true};
ghost use Rattle.answers.specs.Refusals.{held};
ghost use Rattle.rates.specs.Rates.{is_rate};
ghost use Rattle.timecodes.specs.Made.{settled};
ghost use Rattle.runtime_scan.specs.Statements.{RuntimeBounds};
ghost use Rattle.runtime_reading.specs.Reading.{time_in, runtime_frame, read_runtime};

use answers::{Cause, Refusal};
use scanner::Misfit;
use timecodes::{Kind, Timecode};

// No count within its bounds has more seconds than this, at any rate.
const MOST_RUNTIME: u64 = 20_000_000;

// The frame nearest to a time of three fields, behind one that is 0, and millionths of a second. Refuses 5: it is out of bounds. Asks a
// rate, and what a runtime's scan gives.
fn nearest_frame(rate: u64, minus: bool, fields: [u64; 4], millionths: u64) -> Result<i64, Refusal>
    requires rate { is_rate rate ≡ true }
    requires time { RuntimeBounds fields millionths }
    ensures { result ≡ held (runtime_frame rate minus (time_in fields millionths)) }
{
    let [_, hours, minutes, seconds] = fields;
    let seconds = 3600 * hours + 60 * minutes + seconds;
    if seconds > MOST_RUNTIME {
        return Err(Cause::OutOfBounds.into());
    }
    let row = rates::row(rate);
    let time = 1_000_000 * seconds + millionths;
    let frames = numbers::with_sign(minus, time * row.numerator);
    answers::nearest_count(frames, 1_000_000 * row.denominator)
}

// The length that a runtime's text reads as at a rate.
fn read_length(text: &[u8], rate: u64) -> Result<Timecode, Refusal>
    ensures { result ≡ read_runtime text.now rate }
{
    if !rates::is_rate(rate) {
        return Err(Cause::NoSuch.into());
    }
    match runtime_scan::scan_runtime(text) {
        Ok(scan) => {
            let counted = nearest_frame(rate, scan.minus, scan.fields, scan.millionths);
            timecodes::placed(counted, rate)
        }
        Err(Misfit::TooLong(_)) => Err(Cause::TooLong.into()),
        Err(Misfit::NoShape(_)) => Err(Cause::NoShape.into()),
    }
}

// What a runtime's text reads as at a rate, as a timecode of a kind (vtc's `parse_runtime_str`).
pub fn read_runtime(text: &[u8], rate: u64, kind: Kind) -> Result<Timecode, Refusal>
    ensures { result ≡ settled kind (read_runtime text.now rate) }
{
    timecodes::settled(read_length(text, rate), kind)
}
