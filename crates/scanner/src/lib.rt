// One scan for every shape of text: the sign, the divided fields and the tail that a grammar allows, and whether they are the whole text,
// or where it stopped.
// It refuses nothing itself: whoever reads decides what a text that does not fit is refused with.
#![tactic(auto)]

mod cursor;
mod fields;
mod text;

pub use cursor::Cursor;
pub use fields::Dividers;
pub use text::{Grammar, Misfit, TextScan, scan_text};
