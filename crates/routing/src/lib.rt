// What the program `route` reads and tells (docs/ROUTING.md): a line of a directory file, the directory that its lines make, a line that is
// a query, and the shards that are told. Refuses nothing itself: what the router refuses is told with its number.
#![tactic(auto)]

mod entries;
mod flaws;
mod loading;
mod queries;
mod told;

pub use entries::{Pair, entry_of};
pub use flaws::tell_flaw;
pub use loading::{Flaw, Head, Loaded, Loading, load};
pub use queries::{Query, query_of};
pub use told::answer;
