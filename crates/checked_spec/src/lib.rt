// Document 01's ten checked examples, proved over the definitions: the table is in specs/, its statement and what follows from it in
// proofs/. There is no code here: `checked_runs` has the code carry the examples out.
#![tactic(auto)]
