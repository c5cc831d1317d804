// The router: the shards of a directory that a query asks.
ghost use Rattle.std.specs.Prelude.{◌≡◌};
ghost use Rattle.router.specs.Route.{route_of};
ghost use Rattle.exports.specs.HandedRoute.{handed_routed};

use crate::handed;
use answers::Refusal;
use router::Shards;

// The first shard to ask and the one after the last, both 0 where there is none. Refused: both 0, and the place in the label.
#[repr(C)]
#[derive(Clone, Copy)]
pub struct TzqShards {
    pub refused: u64,
    pub place: usize,
    pub first: usize,
    pub after: usize,
}

// The shards, or the refusal.
impl From<Result<Shards, Refusal>> for TzqShards {
    ghost from_gives = { λ a t. t ≡ handed_routed a };

    fn from(a: Result<Shards, Refusal>) -> TzqShards {
        match a {
            Ok(shards) => TzqShards {
                refused: 0,
                place: 0,
                first: shards.first,
                after: shards.after,
            },
            Err(e) => TzqShards {
                refused: handed::number_of(e),
                place: e.place,
                first: 0,
                after: 0,
            },
        }
    }
}

// The shards of a directory at a rate, by their firsts and their ends, that a query of a position's label and a length asks. Refuses 6: no
// such rate; 16: the directory breaks a rule; what the label is refused, with its place; 5: the length is out of bounds; 17: the query ends
// past the day.
#[unsafe(no_mangle)]
pub extern "C" fn tzq_route(
    rate: u64,
    firsts: &[u64],
    ends: &[u64],
    length: i64,
    text: &[u8],
) -> TzqShards
    ensures { result ≡ handed_routed (route_of rate firsts.now ends.now length text.now) }
{
    router::route(rate, firsts, ends, length, text).into()
}
