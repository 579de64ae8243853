#![tactic(auto)]
// The meaning of a role under a policy, and of all roles at once.
pub mod least;
