#![tactic(auto)]
// The order between labels: a table that holds, for each atom, the atoms at most it. It is made from the fixed part,
// learns one known query at a time, and tells whether a join is at most an atom.
pub mod base;
pub mod decide;
pub mod learn;
pub mod table;
