// No code: the demands, the round trips and the starred cases, as statements over all crates, and one record of every promise.
#![tactic(auto)]
