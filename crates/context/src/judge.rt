// The order's part of the flow rules: whether a context is at most what an assignment or an update writes. The reading side
// comes first, so its number 17 comes before the trust side's 18. What all updates of a transaction are held to is worked out
// once for a table: a join is at most each of some atoms exactly when it lies in the meet of their rows.
ghost use Rattle.std.specs.Prelude.{◌≡◌};
ghost use Rattle.model.specs.Syntax.{of, fixed};
ghost use Rattle.shared.specs.Sides.{model_side};
ghost use Rattle.program.specs.Codes.{model_atom};
ghost use Rattle.context.specs.Judge.{sides_number, TargetAt, OneBelow, lies_in, narrowed, everything, MetOne, MetAll, Met, MetBoth, Held, held_number, AssignNumber};

use super::around::{Around, Context, Join, Meets, Transaction};
use order::table;
use order::table::{Row, Table};
use program::codes::{Atom, UnknownCode};
use program::layout;
use shared::side::Side;
use shared::{number, sets};

// The set of all numbers that a word holds.
const ALL: u64 = 0xffffffffffffffff;

// What is written: a variable, which is held to its label, or a role, which is held to its viewers (on the trust side,
// trusters).
#[derive(Clone, Copy)]
pub enum Written {
    Variable,
    Role,
}

// A role's viewers (on the trust side, trusters).
fn watchers_atom(side: Side, x: u8) -> Atom
    ensures { model_atom result ≡ fixed (of (model_side side) x) }
{
    match side {
        Side::Reading => Atom::Viewers(x),
        Side::Trust => Atom::Trusters(x),
    }
}

// The atom that a write is held to.
#[tactic(auto, using(crate::proofs::JudgeLaws::targets))]
fn target(program: &[u8], side: Side, written: Written, x: u8) -> Result<Atom, UnknownCode>
    ensures { TargetAt program.now (model_side side) written x result }
{
    match written {
        Written::Variable => Atom::try_from(layout::label_of(program, side, x)),
        Written::Role => Ok(watchers_atom(side, x)),
    }
}

// Whether a join is at most what one write is held to. The empty join, as of a constant where nothing has flowed in, is.
#[tactic(auto, using(crate::proofs::JudgeLaws::ones))]
fn one_below(program: &[u8], table: &Table, join: Join, side: Side, written: Written, x: u8) -> bool
    ensures { OneBelow program.now table.now join (model_side side) written x result }
{
    if join.roles | join.watchers == 0 {
        return true;
    }
    let Ok(atom) = target(program, side, written, x) else {
        return false;
    };
    order::decide::join_below(table, join.roles, join.watchers, side, atom)
}

// What is in a meet, and in one more row.
fn narrowed(meet: Join, row: Row, side: Side) -> Join
    ensures { result ≡ narrowed (model_side side) meet row }
{
    Join {
        roles: meet.roles & row.roles,
        watchers: meet.watchers & row.watched(side),
    }
}

// What is in a meet, and is at most what one write is held to.
#[tactic(auto, using(crate::proofs::JudgeLaws::mets))]
fn met_one(program: &[u8], table: &Table, side: Side, written: Written, x: u8, meet: Join) -> Join
    ensures { MetOne program.now table.now (model_side side) written x meet result }
{
    let Ok(atom) = target(program, side, written, x) else {
        return meet;
    };
    narrowed(meet, table::row_of(table, atom), side)
}

// What is in a meet, and is at most what each write of a set is held to.
#[tactic(auto, using(crate::proofs::JudgeLaws::meetings))]
fn met_all(
    program: &[u8],
    table: &Table,
    side: Side,
    written: Written,
    set: u64,
    meet: Join,
) -> Join
    ensures { MetAll program.now table.now (model_side side) written set meet result }
{
    let mut met = meet;
    let mut left = set;
    while 0 < left {
        let x = sets::lowest(left) as u8;
        met = met_one(program, table, side, written, x, met);
        left = sets::without_lowest(left);
    }
    met
}

// Nothing written holds an update to nothing.
fn everything() -> Join
    ensures { result ≡ everything }
{
    Join {
        roles: ALL,
        watchers: ALL,
    }
}

// What is at most all that is written: the labels of variables, the viewers (trusters) of roles.
#[tactic(auto, using(crate::proofs::JudgeLaws::boths))]
fn meet_of(program: &[u8], table: &Table, side: Side, variables: u64, roles: u64) -> Join
    ensures { Met program.now table.now (model_side side) variables roles result }
{
    let met = met_all(
        program,
        table,
        side,
        Written::Variable,
        variables,
        everything(),
    );
    met_all(program, table, side, Written::Role, roles, met)
}

// The same on each side: what a transaction that writes all this holds its updates to.
#[tactic(auto, using(crate::proofs::JudgeLaws::boths))]
pub fn meets_of(program: &[u8], table: &Table, variables: u64, roles: u64) -> Meets
    ensures { MetBoth program.now table.now variables roles result }
{
    Meets {
        reading: meet_of(program, table, Side::Reading, variables, roles),
        trust: meet_of(program, table, Side::Trust, variables, roles),
    }
}

// A transaction with its updates held to that. One that mutates no role has none.
#[tactic(auto, using(crate::proofs::JudgeLaws::helds))]
pub fn held(program: &[u8], table: &Table, around: &Around) -> Around
    ensures { Held program.now table.now around.now result }
{
    let Around::Inside(transaction) = around else {
        return *around;
    };
    let roles = transaction.roles;
    if roles == 0 {
        return *around;
    }
    Around::Inside(Transaction {
        meets: meets_of(program, table, transaction.variables, roles),
        ..*transaction
    })
}

// Whether a join lies in a meet.
#[tactic(auto, using(crate::proofs::JudgeLaws::lies))]
fn lies_in(join: Join, meet: Join) -> bool
    ensures { result ≡ lies_in join meet }
{
    if sets::subset(join.roles, meet.roles) {
        return sets::subset(join.watchers, meet.watchers);
    }
    false
}

// 17 unless the reading side is derivable, then 18 unless the trust side is.
fn number_of(reading: bool, trust: bool) -> u32
    ensures { result ≡ sides_number reading trust }
{
    if reading {
        if trust {
            return number::ACCEPTED;
        }
        return number::FLOW_TRUST;
    }
    number::FLOW_READING
}

// A context that is held to the meet of each side.
#[tactic(auto, using(crate::proofs::JudgeLaws::held_sides))]
pub fn held_number(context: &Context, meets: &Meets) -> u32
    ensures { result ≡ held_number context.now meets.now }
{
    let reads = lies_in(context.join(Side::Reading), meets.reading);
    let trusts = lies_in(context.join(Side::Trust), meets.trust);
    number_of(reads, trusts)
}

// An assignment to variable x, in a context that is joined with the expression's labels.
#[tactic(auto, using(crate::proofs::JudgeLaws::assign_sides))]
pub fn assign_number(program: &[u8], table: &Table, context: &Context, x: u8) -> u32
    ensures { AssignNumber program.now table.now context.now x result }
{
    let reading = one_below(
        program,
        table,
        context.join(Side::Reading),
        Side::Reading,
        Written::Variable,
        x,
    );
    let trust = one_below(
        program,
        table,
        context.join(Side::Trust),
        Side::Trust,
        Written::Variable,
        x,
    );
    number_of(reading, trust)
}
