// No code: the client's side of a line as mathematics, its table of states, and the theorems of
// CR 12 for every row of calls.
#![tactic(auto)]
