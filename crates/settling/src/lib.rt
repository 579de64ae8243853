#![tactic(auto)]
// The sets of a policy's atoms, brought up to date from what is tracked of it.
pub mod settle;
