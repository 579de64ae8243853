#![tactic(auto)]
// The policy file of document 01: its check, which gives the number 0 to 6 of any bytes, and its rows.
pub mod check;
mod pairs;
pub mod rows;
