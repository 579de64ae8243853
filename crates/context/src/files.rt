// The two files that a check is given.

// The bytes of the policy and of the program. They go from call to call by one reference, which is a register, where each slice
// is two words in memory.
#[derive(Clone, Copy)]
pub struct Files<'a> {
    pub policy: &'a [u8],
    pub program: &'a [u8],
}
