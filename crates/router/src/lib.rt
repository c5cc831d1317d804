// The shards that a query must ask: a directory of half-open ranges of positions, a query of a position's label and a length in frames, and
// the first shard to ask and the one after the last, both 0 where there is none. Refuses 6: no such rate; 16: the directory breaks a rule;
// what the label is refused, with its place; 5: the length is out of bounds; 17: the query ends past the day; in this order.
#![tactic(auto)]

ghost use Rattle.std.specs.Prelude.{◌≡◌};
ghost use Rattle.router.specs.Query.{range_of};
ghost use Rattle.router.specs.Route.{route_of};
ghost use Rattle.router.specs.Halving.{found_in};

use answers::Refusal;

mod many;
mod query;
mod rules;
mod search;

pub use many::{Directory, route_tested, tested, verdict};
pub use query::{Frames, query_range};
pub use rules::check_directory;

// The first shard to ask and the one after the last, both 0 where there is none.
#[derive(Clone, Copy)]
pub struct Shards {
    pub first: usize,
    pub after: usize,
}

// The shards that a query asks, found by halving: those of any two lists of firsts and ends, whatever they hold.
pub(crate) fn found(
    rate: u64,
    firsts: &[u64],
    ends: &[u64],
    length: i64,
    text: &[u8],
) -> Result<Shards, Refusal>
    ensures { result ≡ found_in firsts.now ends.now (range_of rate length text.now) }
{
    let frames = query::query_range(rate, length, text)?;
    Ok(search::met(firsts, ends, frames))
}

// The shards of a directory that a query asks.
pub fn route(
    rate: u64,
    firsts: &[u64],
    ends: &[u64],
    length: i64,
    text: &[u8],
) -> Result<Shards, Refusal>
    ensures { result ≡ route_of rate firsts.now ends.now length text.now }
{
    rules::check_directory(rate, firsts, ends)?;
    found(rate, firsts, ends, length, text)
}
