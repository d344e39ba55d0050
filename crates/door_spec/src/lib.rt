// What the bytes that a C program lends stand for, and what a call on them answers and leaves: the definitions of document 01, "Blocks and
// the two doors", for the C door, and their laws. It has no code of its own; the calls are crate `door`.
#![tactic(auto)]
