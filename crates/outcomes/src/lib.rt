// What it means that a contract determines its outcome. No code: the definition stands in specs/Outcome.antt.
#![tactic(auto)]
