// No code: that two captures which differ in private bytes alone are answered alike by the
// functions, in Rattle and through C, as theorems over the crates below.
#![tactic(auto)]
