#![tactic(auto)]
// What surrounds a statement where the flow rules are checked: the transaction around it and its context, the lists of its
// queries and of an update's mutations, and the order's part of the rules.
pub mod around;
pub mod files;
pub mod judge;
pub mod lists;
