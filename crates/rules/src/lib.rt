#![tactic(auto)]
// The flow rules of a statement that has no other in it, and what surrounds those in a transaction that is entered.
pub mod enter;
pub mod simple;
