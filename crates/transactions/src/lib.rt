#![tactic(auto)]
// The body of the k-th transaction of a program that was read without refusal: found, and its place in the bytes.
pub mod bodies;
pub mod span;
