// No code: what was promised of the table of channels (CR 3) and of the month's page over channels
// (CR 11), as theorems over the crates below.
#![tactic(auto)]
