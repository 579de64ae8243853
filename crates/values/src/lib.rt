#![tactic(auto)]
// Document 01's operators on values. A value is the number of its 32 bits; what it stands for in two's complement is the
// definition's `signed`. Every pair of values has a sum, a difference, a product, a quotient and a comparison.
pub mod operators;
pub mod signs;
