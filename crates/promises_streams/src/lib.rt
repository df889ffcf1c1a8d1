// No code: demand 1 and CR 1 for a capture while it arrives, in Rattle and through C, as theorems
// over the crates below.
#![tactic(auto)]
