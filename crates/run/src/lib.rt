#![tactic(auto)]
// The run: one call that takes any policy, program, memory and fuel.
pub mod run;
