// The month in whole numbers as mathematics: which figures a capture has, the page that sums them,
// its rules, calls and answers (request 11). There is no code in this crate.
#![tactic(auto)]
