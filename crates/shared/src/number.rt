// The numbers that a call returns, in the order of document 01's table. Of a policy's only the first stands here: the others are in
// `refusal` alone, where all have a name.
pub const ACCEPTED: u32 = 0;

pub const POLICY_LENGTH: u32 = 1;

pub const PROGRAM_LENGTH: u32 = 10;

pub const PROGRAM_MARK: u32 = 11;

pub const PROGRAM_CODE: u32 = 12;

pub const PROGRAM_RANGE: u32 = 13;

pub const PROGRAM_DEPTH: u32 = 14;

pub const FLOW_TRANSACTION: u32 = 15;

pub const FLOW_GRANT: u32 = 16;

pub const FLOW_READING: u32 = 17;

pub const FLOW_TRUST: u32 = 18;

pub const MEMORY_LENGTH: u32 = 20;

pub const FUEL_RANGE: u32 = 21;

pub const FUEL_SPENT: u32 = 22;
