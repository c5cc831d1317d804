// What C may call: every public operation under a name that begins with `tzq_`, its answer as plain numbers, a refusal's number always
// among them (0: not refused). No rule is made here.
#![tactic(auto)]

pub mod handed;
pub mod lists;
pub mod reads;
pub mod route;
pub mod sums;
pub mod tables;
pub mod times;
pub mod why;
pub mod writes;
