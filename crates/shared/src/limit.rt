// The limits of document 01, each by its one name.

// A policy's head: mark, version, P and R.
pub const HEAD_BYTES: usize = 7;

// The fields that every row has: owner, name, viewers, trusters, members, takes.
pub const FIELD_BYTES: usize = 22;

// How many principals and roles a policy has.
pub const PRINCIPALS: u8 = 32;

pub const ROLES: u8 = 64;

// How large a program may be.
pub const PROGRAM_BYTES: usize = 4096;

// How many variables it has.
pub const VARIABLES: u8 = 64;

// How deep statements and expressions may go; the outermost has depth 1.
pub const STATEMENT_DEPTH: u8 = 32;

pub const EXPRESSION_DEPTH: u8 = 16;

// How many mutations an update has, and how many queries a transaction lists.
pub const LIST: u8 = 16;

// How many units a run may be given.
pub const FUEL: u32 = 1000000;
