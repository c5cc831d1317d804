// What the program `why` tells of a text (docs/WHY.md): the text, a caret under the place where it has one, the number with its phrase, and
// the fact in plain words; and what a question is. Refuses nothing itself: what has no room on the sheet changes nothing.
#![tactic(auto)]

mod answered;
mod facts;
mod joined;
mod pieces;
mod questions;
mod told;

pub use answered::answer;
pub use joined::join;
pub use questions::{Question, understand};
pub use told::{Options, Way, tell};
