// No code: thirty-two channels in one table, as mathematics, and the theorems of CR 3 for every row
// of calls.
#![tactic(auto)]
