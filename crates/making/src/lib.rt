#![tactic(auto)]
// One node of a run's code: that of an assignment or a test, from the words of its expression; and the bound of the variables that
// some nodes set, which a transaction's has.
pub mod bound;
pub mod expressions;
