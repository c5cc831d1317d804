// A query as a half-open range of frames: the position of its label, and its length behind it.
ghost use Rattle.std.specs.Prelude.{◌≡◌};
ghost use Rattle.router.specs.Query.{is_length, range_at, range_of};

use answers::{Cause, Refusal};
use reading::Read;
use timecodes::Kind;

// The frames from `start` up to `end`, which is not one of them.
#[derive(Clone, Copy, PartialEq, Eq)]
pub struct Frames {
    pub start: u64,
    pub end: u64,
}

// Whether a length is within its bounds: 0 to 400,000,000.
fn is_length(length: i64) -> bool
    ensures { result ≡ is_length length }
{
    length >= 0 && length.unsigned_abs() <= answers::MOST_COUNT
}

// The range from a count on. Refuses 5: the length is out of bounds; 17: it ends past the day.
#[tactic(auto, unfolding(crate::specs::Query::range_at))]
fn range_at(rate: u64, length: i64, count: i64) -> Result<Frames, Refusal>
    ensures { result ≡ range_at rate length count }
{
    if !is_length(length) {
        return Err(Cause::OutOfBounds.into());
    }
    let start = count.unsigned_abs();
    let end = start + length.unsigned_abs();
    if rates::day(rate) < end {
        return Err(Cause::PastDay.into());
    }
    Ok(Frames { start, end })
}

// The frames of a query at a rate. Refuses 6: no such rate; what the label is refused, with its place; 5: the length is out of bounds; 17:
// it ends past the day. (That a footage is read where only a label may stand cannot be.)
#[tactic(auto, unfolding(crate::specs::Query::range_of))]
pub fn query_range(rate: u64, length: i64, text: &[u8]) -> Result<Frames, Refusal>
    ensures { result ≡ range_of rate length text.now }
{
    match reading::read_label_only(text, rate, Kind::Position)? {
        Read::Label(tc) | Read::Footage(tc, _) => range_at(rate, length, tc.count),
    }
}
