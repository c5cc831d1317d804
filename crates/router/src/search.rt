// Which shards of rising lists of firsts and ends meet a range of frames, by halving.
ghost use Rattle.std.specs.Prelude.{◌≡◌, Ok};
ghost use Rattle.router.specs.Halving.{halved, halved_span};

use crate::Shards;
use crate::query::Frames;

// How many numbers of a rising list are below v: the part where they end is halved until nothing is left of it.
fn halve(xs: &[u64], v: u64) -> usize
    ensures { result ≡ halved v xs.now }
{
    let mut lo = 0;
    let mut hi = xs.len();
    while lo < hi {
        let mid = lo + (hi - lo) / 2;
        if xs[mid] < v {
            lo = mid + 1;
        } else {
            hi = mid;
        }
    }
    lo
}

// The shards that meet a range of frames: behind those that end by its start, before those that begin at its end or later.
#[tactic(auto, unfolding(crate::specs::Halving::halved_span))]
pub(crate) fn met(firsts: &[u64], ends: &[u64], frames: Frames) -> Shards
    ensures { Ok result ≡ halved_span frames.start frames.end firsts.now ends.now }
{
    let none = Shards { first: 0, after: 0 };
    if frames.end <= frames.start {
        return none;
    }
    let first = halve(ends, frames.start + 1);
    let after = halve(firsts, frames.end);
    if first < after {
        Shards { first, after }
    } else {
        none
    }
}
