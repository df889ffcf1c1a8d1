// What C calls: the functions of the crates host_*, exported. What each does and returns is said
// there; each stands here with the same clauses, and calls it.
#![tactic(auto)]

mod captures;
mod frames;
mod ledgers;
mod markets;
mod months;
mod sessions;
mod step;
mod streams;
mod tables;
