// No code: what was promised of the other forms, STEP frames (CR 5) and market files (CR 10), as
// theorems over the crates below.
#![tactic(auto)]
