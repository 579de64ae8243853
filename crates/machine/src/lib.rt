#![tactic(auto)]
// The run's loop over the nodes of a program's code, one turn for each unit.
pub mod steps;
