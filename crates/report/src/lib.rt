#![tactic(auto)]
// What the delivered program prints: the text of a run's number, units and variables, in a buffer that the caller lends.
pub mod lines;
pub mod numbers;
pub mod writing;
