// How far a text goes as some text of a shape does, for any shape. No code: the definitions stand in specs/Beginning.antt.
#![tactic(auto)]
