// The router: the shards of a directory that a query asks.
ghost use Rattle.std.specs.Prelude.{◌≡◌};
ghost use Rattle.router.specs.Route.{route_of};
ghost use Rattle.exports.specs.HandedRoute.{handed_routed};

use exports::route::TzqShards;

// The shards of a directory at a rate, by their firsts and their ends, that a query of a position's label and a length asks. Refuses 6: no
// such rate; 16: the directory breaks a rule; what the label is refused, with its place; 5: the length is out of bounds; 17: the query ends
// past the day.
#[unsafe(no_mangle)]
pub extern "C" fn tzq_route(
    rate: u64,
    firsts: &[u64],
    ends: &[u64],
    length: i64,
    text: &[u8],
) -> TzqShards
    ensures { result ≡ handed_routed (route_of rate firsts.now ends.now length text.now) }
{
    exports::route::tzq_route(rate, firsts, ends, length, text)
}
