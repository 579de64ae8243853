#![tactic(auto)]
// A program's body as a run's code: its nodes in reading order, one for each statement that costs a unit, and the words of its
// expressions. What each contract says is of the tree that stands at a position; where none stands, any code is right.
pub mod compile;
pub mod simple;
pub mod sizes;
pub mod statements;
