// The even-tempo time of a stroke in double precision: its definition and its laws. Document 02, "The strike sheet". It has no code of its
// own.
#![tactic(auto)]
