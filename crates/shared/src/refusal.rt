// Why a call refuses, each with its number in document 01's table.
ghost use Rattle.std.specs.Prelude.{◌≡◌};
ghost use Rattle.shared.specs.Refusals.{refusal_number};

// A policy's refusals, then a program's, then a run's.
#[derive(Clone, Copy, Debug, PartialEq, Eq)]
pub enum Refusal {
    PolicyLength = 1,
    PolicyMark = 2,
    PolicyRange = 3,
    RowPrincipal = 4,
    RowOwner = 5,
    RowGrants = 6,
    NoSuchRole = 7,
    ProgramLength = 10,
    ProgramMark = 11,
    ProgramCode = 12,
    ProgramRange = 13,
    ProgramDepth = 14,
    FlowTransaction = 15,
    FlowGrant = 16,
    FlowReading = 17,
    FlowTrust = 18,
    MemoryLength = 20,
    FuelRange = 21,
    FuelSpent = 22,
}

impl From<Refusal> for u32 {
    ghost from_gives = { λ refusal number. number ≡ refusal_number refusal };

    fn from(refusal: Refusal) -> u32 {
        refusal as u32
    }
}
