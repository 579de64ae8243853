// Whether a join of atoms is at most an atom: each of its atoms is in that atom's row.
ghost use Rattle.std.specs.Prelude.{◌≡◌};
ghost use Rattle.program.specs.Codes.{model_atom};
ghost use Rattle.shared.specs.Sides.{model_side};
ghost use Rattle.order.specs.Table.{Decides};

use super::table;
use super::table::Table;
use program::codes::Atom;
use shared::sets;
use shared::side::Side;

// On the reading side, or the trust side: the join's roles `rs`, and the roles `ws` whose viewers (trusters) are in it.
pub fn join_below(table: &Table, rs: u64, ws: u64, side: Side, target: Atom) -> bool
    ensures { Decides table.now (model_side side) rs ws (model_atom target) result }
{
    let row = table::row_of(table, target);
    if !sets::subset(rs, row.roles) {
        return false;
    }
    sets::subset(ws, row.watched(side))
}
