#![tactic(auto)]
// Reading a program: its expressions and statements, by calls of themselves with the remaining depth falling, and the whole
// file, with the first of 10 to 14 in reading order where it is not one.
pub mod body;
pub mod expressions;
pub mod file;
pub mod statements;
