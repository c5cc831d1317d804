// What a line of the calculator asks (docs/ASK.md): which command, by its row in the table, the numbers behind its word, and where the
// rest begins. Refuses nothing itself: a line that is no command is not understood, and a number's bounds are the operations' matter.
#![tactic(auto)]

mod numbered;
mod recorded;
pub mod rows;
mod sharded;
mod table;
mod values;
mod words;

pub use numbered::{Listed, Numbers, numbers_of, rates};
pub use recorded::records;
pub use sharded::shards;
pub use values::{Word, number, signed_at, stands, word_stands};
pub use words::{Asked, Value, understand};
