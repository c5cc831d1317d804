// Laws of lists that no one crate owns. No code: they stand in specs/Every.antt.
#![tactic(auto)]
