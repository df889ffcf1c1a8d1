// No code: the words that the promises are said in: a number of the table, whatever a promise
// allows, a list of theorems.
#![tactic(auto)]
