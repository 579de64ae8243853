// One more known query: all that is at most its first atom is now at most all that its second atom is at most. And whether
// the table has it so already.
ghost use Rattle.std.specs.Prelude.{◌≡◌, ◌+◌, ◌≤◌, length};
ghost use Rattle.model.specs.Limits.{role_limit};
ghost use Rattle.program.specs.Codes.{model_atom};
ghost use Rattle.order.specs.Table.{table_rows, query_of, Learnt, DecidesQuery};
ghost use Rattle.order.specs.Learn.{grown, StartGrew, Grew, AllGrew};

use super::table;
use super::table::{Row, Table};
use program::codes::Atom;

// A row takes in `lower`, where it holds the atom.
#[tactic(auto, using(crate::proofs::LearnLaws::grows))]
fn grow(row: &mut Row, atom: Atom, lower: Row)
    ensures { row.new ≡ grown (model_atom atom) lower row.old }
{
    if row.contains(atom) {
        *row = row.union(lower);
    }
}

// So do all of these.
#[tactic(auto, using(crate::proofs::LearnLaws::grows))]
fn grow_each(rows: &mut [Row], atom: Atom, lower: Row)
    ensures { StartGrew (model_atom atom) lower (length rows.old) rows.old rows.new }
{
    for row in rows {
        grow(row, atom, lower);
    }
}

// So do `count` rows of the table from `from` on.
#[tactic(auto, using(crate::proofs::LearnLaws::grew_part))]
fn grow_rows(table: &mut Table, from: usize, count: usize, atom: Atom, lower: Row)
    requires { from + count ≤ table_rows }
    ensures { Grew (model_atom atom) lower from count table.old table.new }
{
    grow_each(&mut table[from..from + count], atom, lower);
}

// So do the rows of everyone and of the atoms of the roles that there are.
fn grow_all(table: &mut Table, roles: usize, atom: Atom, lower: Row)
    requires { roles ≤ role_limit }
    ensures { AllGrew (model_atom atom) lower roles table.old table.new }
{
    grow_rows(table, 0, roles, atom, lower);
    grow_rows(table, table::VIEWERS, roles, atom, lower);
    grow_rows(table, table::TRUSTERS, roles, atom, lower);
    grow_rows(table, table::EVERYONE, 1, atom, lower);
}

// Each row that holds the second atom takes in the first atom's row, as that row was before any grew.
#[tactic(auto, using(crate::proofs::LearnLaws::learn_done))]
pub fn learn(table: &mut Table, roles: u8, first: Atom, second: Atom)
    requires { roles ≤ role_limit }
    ensures { Learnt roles table.old table.new (query_of first second) }
{
    let lower = table::row_of(table, first);
    grow_all(table, usize::from(roles), second, lower);
}

// Whether a query's first atom is at most its second already. To know it too then changes nothing, and needs no new table.
#[tactic(auto, using(crate::proofs::LearnLaws::query_decided))]
pub fn is_known(table: &Table, first: Atom, second: Atom) -> bool
    ensures { DecidesQuery table.now (query_of first second) result }
{
    table::row_of(table, second).contains(first)
}
