// No code: two captures that differ in private bytes alone can't be told apart, as theorems over
// the crates below.
#![tactic(auto)]
