#![tactic(auto)]
// Runs of the program, that is every list of calls of its entries, and the queue theorem about them. This crate has no
// code.
