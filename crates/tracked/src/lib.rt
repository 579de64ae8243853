#![tactic(auto)]
// What is tracked of a policy while a program runs: the sets of all atoms, and the policy the other way round, with which of its
// words were touched since the sets were last right. Nothing here changes a policy.
pub mod atoms;
pub mod index;
