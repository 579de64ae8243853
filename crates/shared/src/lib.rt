#![tactic(auto)]
// What every layer shares: bytes by position, sets as words, the two sides, refusals and the numbers that a call returns, and the limits of document 01.
pub mod bytes;
pub mod limit;
pub mod number;
pub mod refusal;
pub mod sets;
pub mod side;
