// Lines gathered from chunks of any size, and text put on a sheet: what the programs share. It reads and writes nothing itself, and
// refuses nothing: a line that is too long says so, and text that finds no room changes nothing.
#![tactic(auto)]

mod gathered;
mod sheets;

pub use gathered::{Gathered, Step, gather};
pub use sheets::{Lent, Page, Sheet};
