// No code: demand 3, and what else was promised of the ledger (CR 7, 8 and 9), as theorems over the
// crates below.
#![tactic(auto)]
