// The timecode: a count, a rate, and whether it is a length or a position; when an operation admits one or two of them, how one is made,
// its instant in ticks, and the answer that is a timecode.
// Refuses 6: no such rate; then 15: a position where it may not be; then 5: a count outside its bounds.
#![tactic(auto)]

ghost use Rattle.std.specs.Prelude.{◌≡◌, [], ◌∷◌};
ghost use Rattle.rates.specs.Rates.{bad_rate};
ghost use Rattle.answers.specs.Order.{judged, unless};
ghost use Rattle.timecodes.specs.Timecode.{timecode_as, placed, moved_to, timecode_of};
ghost use Rattle.timecodes.specs.Admitted.{is_of_day, is_within, bad_input, admits, admits_length, admits_both, joined_kind};
ghost use Rattle.timecodes.specs.Made.{in_day, made, settled};
ghost use Rattle.timecodes.specs.Instant.{instant_in};

use answers::{Cause, Refusal};

mod kinds;

pub use kinds::{Joining, Kind};

// A count at a rate, a length or a position. What takes one refuses a rate outside 1 to 12 (6), then a count outside its bounds (5): a
// length's are -400,000,000 to 400,000,000, a position's are 0 up to the rate's day, which is not included.
#[derive(Clone, Copy)]
pub struct Timecode {
    pub count: i64,
    pub rate: u64,
    pub kind: Kind,
}

// A timecode of a count, a rate and a kind, whatever they are.
pub fn new(count: i64, rate: u64, kind: Kind) -> Timecode
    ensures { result ≡ timecode_as kind count rate }
{
    Timecode { count, rate, kind }
}

// Whether a count lies from 0 up to a rate's day, which is not included.
#[tactic(auto, unfolding(crate::specs::Admitted::is_of_day))]
fn is_of_day(count: i64, rate: u64) -> bool
    ensures { result ≡ is_of_day rate count }
{
    count >= 0 && count.unsigned_abs() < rates::day(rate)
}

// Whether a timecode's count is within the bounds of its kind.
fn is_within(tc: Timecode) -> bool
    ensures { result ≡ is_within tc.kind tc.rate tc.count }
{
    match tc.kind {
        Kind::Length => answers::is_count(tc.count),
        Kind::Position => is_of_day(tc.count, tc.rate),
    }
}

// Refuses 6: a number that is no rate.
fn rated(rate: u64) -> Result<(), Refusal>
    ensures { result ≡ judged (bad_rate rate ∷ []) }
{
    if !rates::is_rate(rate) {
        return Err(Cause::NoSuch.into());
    }
    Ok(())
}

// Refuses 5: a count that is out of the bounds of its kind.
fn bounded(tc: Timecode) -> Result<(), Refusal>
    ensures { result ≡ judged (bad_input tc ∷ []) }
{
    if !is_within(tc) {
        return Err(Cause::OutOfBounds.into());
    }
    Ok(())
}

// Whether an operation takes a timecode of either kind. Refuses 6: no such rate; 5: the count is out of bounds.
pub fn admit(tc: Timecode) -> Result<(), Refusal>
    ensures { result ≡ judged (admits tc) }
{
    rated(tc.rate)?;
    bounded(tc)
}

// Whether an operation for lengths only takes a timecode. Refuses 6: no such rate; 15: it is a position; 5: the count is out of bounds.
pub fn admit_length(tc: Timecode) -> Result<(), Refusal>
    ensures { result ≡ judged (admits_length tc) }
{
    rated(tc.rate)?;
    if tc.kind.is_position() {
        return Err(Cause::WrongKind.into());
    }
    bounded(tc)
}

// Whether two timecodes may be joined, and of which kind that is. Refuses 6: either rate is none; 15: a position and what it is not mixed
// with; 5: either count is out of bounds.
pub fn admit_both(a: Timecode, b: Timecode, joining: Joining) -> Result<Kind, Refusal>
    ensures { result ≡ unless Err (admits_both joining a b) (Ok (joined_kind joining a b)) }
{
    rated(a.rate)?;
    rated(b.rate)?;
    let kind = kinds::mix(joining, a.kind, b.kind).ok_or(Cause::WrongKind)?;
    bounded(a)?;
    bounded(b)?;
    Ok(kind)
}

// A new length with this count, at a rate; or why there is no count.
pub fn placed(counted: Result<i64, Refusal>, rate: u64) -> Result<Timecode, Refusal>
    ensures { result ≡ placed rate counted }
{
    Ok(new(counted?, rate, Kind::Length))
}

// The timecode with another count, at another rate, all else kept; or why there is no count.
pub fn moved(tc: Timecode, counted: Result<i64, Refusal>, rate: u64) -> Result<Timecode, Refusal>
    ensures { result ≡ moved_to tc rate counted }
{
    Ok(new(counted?, rate, tc.kind))
}

// The count of the position that a count comes to: reduced by whole days of a rate, negative ones too.
fn in_day(count: i64, rate: u64) -> i64
    ensures { result ≡ in_day rate count }
{
    numbers::with_sign(false, numbers::reduced(count, rates::day(rate)))
}

// A timecode of a kind made of a count: a length is that count, a position is reduced by whole days.
pub fn made(count: i64, rate: u64, kind: Kind) -> Timecode
    ensures { result ≡ made kind count rate }
{
    match kind {
        Kind::Length => new(count, rate, kind),
        Kind::Position => new(in_day(count, rate), rate, kind),
    }
}

// What was made as a length, made a timecode of a kind.
pub fn settled(a: Result<Timecode, Refusal>, kind: Kind) -> Result<Timecode, Refusal>
    ensures { result ≡ settled kind a }
{
    let tc = a?;
    Ok(made(tc.count, tc.rate, kind))
}

// The instant of a timecode in ticks: count times the ticks of a frame, of any timecode that is admitted; 0 where it passes 64 bits.
pub fn instant_of(tc: Timecode) -> i64
    ensures { result ≡ instant_in tc }
{
    let count = tc.count;
    let row = rates::row(tc.rate);
    numbers::product(count, numbers::with_sign(false, row.ticks))
}

// The timecode of an answer; a refusal's numbers are 0.
pub fn timecode_of(a: Result<Timecode, Refusal>) -> Timecode
    ensures { result ≡ timecode_of a }
{
    a.unwrap_or(new(0, 0, Kind::Length))
}
