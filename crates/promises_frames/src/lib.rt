// No code: demand 2, and what else was promised of frames and scrubbing (CR 2, 4 and 6), as
// theorems over the crates below.
#![tactic(auto)]
