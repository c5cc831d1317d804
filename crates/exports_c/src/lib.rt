// The static library for C: every function of `exports` under its own name, with its own clauses. Nothing is decided here.
#![tactic(auto)]

pub mod lists;
pub mod reads;
pub mod route;
pub mod sums;
pub mod tables;
pub mod times;
pub mod why;
pub mod writes;
