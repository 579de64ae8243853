#![tactic(auto)]
// The parts of a turn of the run's loop: what it does by the fuel that is left, what it reads and sets by its node; and a memory's
// bytes as the words that it works on.
pub mod fuel;
pub mod memory;
pub mod node;
