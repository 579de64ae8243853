// Rows of the table: a word each for roles, viewers and trusters. Everyone is at most every atom, so no row stores it.
ghost use Rattle.std.specs.Prelude.{◌≡◌, ◌<◌, ◌≤◌};
ghost use Rattle.model.specs.Limits.{role_limit};
ghost use Rattle.program.specs.Codes.{model_atom};
ghost use Rattle.shared.specs.Sides.{model_side};
ghost use Rattle.order.specs.Table.{trusters_at, table_rows, slot, index_of, row_in, watched, holds, union, with_role};

use program::codes::Atom;
use shared::side::Side;
use shared::{limit, sets};

// A set of atoms, without everyone.
#[derive(Clone, Copy, Default)]
pub struct Row {
    pub roles: u64,
    pub viewers: u64,
    pub trusters: u64,
}

impl Row {
    // Whether an atom is in the row.
    pub fn contains(self, atom: Atom) -> bool
        ensures { result ≡ holds self (model_atom atom) }
    {
        match atom {
            Atom::Role(j) => sets::contains(self.roles, u64::from(j)),
            Atom::Viewers(j) => sets::contains(self.viewers, u64::from(j)),
            Atom::Trusters(j) => sets::contains(self.trusters, u64::from(j)),
            Atom::Everyone => true,
        }
    }

    // The roles whose viewers (on the trust side, trusters) are in the row.
    pub fn watched(self, side: Side) -> u64
        ensures { result ≡ watched (model_side side) self }
    {
        match side {
            Side::Reading => self.viewers,
            Side::Trust => self.trusters,
        }
    }

    // The atoms of both rows.
    pub fn union(self, more: Row) -> Row
        ensures { result ≡ union self more }
    {
        Row {
            roles: self.roles | more.roles,
            viewers: self.viewers | more.viewers,
            trusters: self.trusters | more.trusters,
        }
    }

    // The row with a role.
    pub fn with_role(self, j: u64) -> Row
        requires { j < role_limit }
        ensures { result ≡ with_role self j }
    {
        Row {
            roles: sets::with(self.roles, j),
            ..self
        }
    }
}

// How many roles a policy has at most.
pub const ROLES: usize = limit::ROLES as usize;

// Where the rows of viewers, trusters and everyone begin; those of roles are the first.
pub const VIEWERS: usize = ROLES;

pub const TRUSTERS: usize = 2 * ROLES;

pub const EVERYONE: usize = 3 * ROLES;

// A row for each atom, 193.
pub const TABLE_ROWS: usize = EVERYONE + 1;

// The rows of all atoms.
pub type Table = [Row; TABLE_ROWS];

// Row j of those that begin at `from`. A role past 63, which no policy has, gets everyone's.
#[tactic(auto, using(crate::proofs::TableLaws::slots))]
fn place(from: usize, j: u8) -> usize
    requires { from ≤ trusters_at }
    ensures same { result ≡ slot from j }
    ensures inside { result < table_rows }
{
    let n = usize::from(j);
    if n < ROLES {
        return from + n;
    }
    EVERYONE
}

// Where an atom's row is.
fn index(atom: Atom) -> usize
    ensures same { result ≡ index_of atom }
    ensures inside { result < table_rows }
{
    match atom {
        Atom::Role(j) => place(0, j),
        Atom::Viewers(j) => place(VIEWERS, j),
        Atom::Trusters(j) => place(TRUSTERS, j),
        Atom::Everyone => EVERYONE,
    }
}

// An atom's row.
pub fn row_of(table: &Table, atom: Atom) -> Row
    ensures { result ≡ row_in table.now (index_of atom) }
{
    table[index(atom)]
}
