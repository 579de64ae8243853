#![tactic(auto)]
// What a program file is made of: its layout, the codes, atoms, lists and rows of skips that stand in it, what reads them, and the
// refusal that it answers where it can't.
pub mod atoms;
pub mod codes;
pub mod entries;
pub mod layout;
pub mod reader;
pub mod refused;
pub mod skips;
