#![tactic(auto)]
// A run that nothing refuses: what it works on beside the caller's buffers, the run itself, and its end.
pub mod buffers;
pub mod execute;
