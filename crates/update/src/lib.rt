#![tactic(auto)]
// What an update does: its mutations made in a policy's bytes and noted in what is tracked of it, and whether a listed query held
// before and fails after. Nothing here runs a program.
pub mod change;
mod listed;
mod mutations;
