// How many of the numbers below one pass a test, for any test. No code: the definition stands in specs/Before.antt.
#![tactic(auto)]
