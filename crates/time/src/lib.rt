// Timecodes of either kind from counts, ticks and seconds, at the nearest frame; ticks and seconds of a timecode of either kind, exactly.
// Refuses 6: no such rate; then 5: what is handed in, or then the resulting count, is out of bounds; a position is reduced after that.
#![tactic(auto)]

ghost use Rattle.std.specs.Prelude.{◌≡◌, ◌^◌, ◌<◌, nat_abs};
ghost use Rattle.timecodes.specs.Made.{settled};
ghost use Rattle.time.specs.Bounds.{is_fraction};
ghost use Rattle.time.specs.Frames.{frames_at, ticks_at, seconds_at};
ghost use Rattle.time.specs.Ticks.{ticks_of};
ghost use Rattle.time.specs.Seconds.{InSeconds, SecondsOf};

use answers::{Cause, Refusal};
use timecodes::{Kind, Timecode};

// Seconds as a fraction p/q.
#[derive(Clone, Copy, PartialEq, Eq)]
pub struct Fraction {
    pub p: i64,
    pub q: u64,
}

// Seconds p/q: |p| is at most this.
const MOST_SECONDS: u64 = 1_000_000_000_000;

// In every fraction p/q, q is at most this.
const MOST_DENOMINATOR: u64 = 1_000_000;

// Whether p/q is within the bounds of a fraction: |p| at most `most`, q from 1 to 1,000,000.
#[tactic(auto, unfolding(crate::specs::Bounds::is_fraction))]
pub fn is_fraction(most: u64, p: i64, q: u64) -> bool
    ensures { result ≡ is_fraction most p q }
{
    p.unsigned_abs() <= most && matches!(q, 1..=MOST_DENOMINATOR)
}

// A count at a rate, as a timecode of a kind (vtc's `with_frames`). Refuses 6: no such rate; 5: the count is out of a length's bounds, for
// either kind.
#[tactic(auto, unfolding(crate::specs::Frames::frames_at))]
pub fn with_frames(count: i64, rate: u64, kind: Kind) -> Result<Timecode, Refusal>
    ensures { result ≡ settled kind (frames_at count rate) }
{
    timecodes::admit(timecodes::new(count, rate, Kind::Length))?;
    Ok(timecodes::made(count, rate, kind))
}

// The frame nearest to a number of ticks, as a timecode of a kind (vtc's `with_premiere_ticks`). Refuses 6: no such rate; 5: the resulting
// count is out of a length's bounds.
#[tactic(auto, unfolding(crate::specs::Frames::ticks_at))]
pub fn with_premiere_ticks(ticks: i64, rate: u64, kind: Kind) -> Result<Timecode, Refusal>
    ensures { result ≡ settled kind (ticks_at ticks rate) }
{
    let row = rates::framerate_at(rate)?;
    let nearest = answers::nearest_count(ticks, row.ticks)?;
    Ok(timecodes::made(nearest, rate, kind))
}

// The frame nearest to p/q seconds, as a timecode of a kind (vtc's `with_seconds`). Refuses 6: no such rate; 5: p or q is out of bounds, or
// then the resulting count out of a length's.
pub fn with_seconds(p: i64, q: u64, rate: u64, kind: Kind) -> Result<Timecode, Refusal>
    ensures { result ≡ settled kind (seconds_at p q rate) }
{
    let row = rates::framerate_at(rate)?;
    if !is_fraction(MOST_SECONDS, p, q) {
        return Err(Cause::OutOfBounds.into());
    }
    let frames = numbers::product(p, numbers::with_sign(false, row.numerator));
    let nearest = answers::nearest_count(frames, q * row.denominator)?;
    Ok(timecodes::made(nearest, rate, kind))
}

// The ticks of a timecode, exactly (vtc's `premiere_ticks`). Refuses 6: no such rate; 5: the count is out of bounds.
#[tactic(auto, unfolding(crate::specs::Ticks::ticks_of))]
pub fn premiere_ticks(tc: Timecode) -> Result<i64, Refusal>
    ensures { result ≡ ticks_of tc }
{
    timecodes::admit(tc)?;
    Ok(timecodes::instant_of(tc))
}

// The seconds of a timecode, exactly, in lowest terms (vtc's `seconds`). Refuses 6: no such rate; 5: the count is out of bounds.
pub fn seconds(tc: Timecode) -> Result<Fraction, Refusal>
    ensures { SecondsOf tc result }
{
    timecodes::admit(tc)?;
    Ok(in_seconds(timecodes::instant_of(tc)))
}

// A number of ticks in seconds, in lowest terms. Asks that it is no more than an instant.
fn in_seconds(ticks: i64) -> Fraction
    requires { nat_abs ticks < 2 ^ 63 }
    ensures { InSeconds ticks result.p result.q }
{
    let f = numbers::lowest(ticks.unsigned_abs(), rates::SECOND_TICKS);
    Fraction {
        p: numbers::with_sign(ticks < 0, f.num),
        q: f.den,
    }
}
