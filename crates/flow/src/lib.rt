#![tactic(auto)]
// The flow rules of document 01, checked over a program's bytes: the check of a statement and of all that stand in it.
pub mod check;
