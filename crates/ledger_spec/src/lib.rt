// No code: the gap ledger as mathematics, its calls in document 01's numbers, and demand 3 for
// every row of them.
#![tactic(auto)]
