// Which of the queries that a transaction lists hold, a bit for each: an update compares these before and after.
ghost use Rattle.std.specs.Prelude.{◌≡◌, cond, ◌+◌, ◌*◌, ◌<◌, ◌≤◌, length};
ghost use Rattle.model.specs.Limits.{list_limit};
ghost use Rattle.model.specs.Sets.{with};
ghost use Rattle.tracked.specs.Live.{atom_words};
ghost use Rattle.update.specs.Listed.{HeldAt};

use gathered::positions;
use shared::sets;
use tracked::atoms;

// The bits with that of query i, if it holds.
fn noted(bits: u64, i: u64, holds: bool) -> u64
    requires { i < 64 }
    ensures { result ≡ cond holds (with bits i) bits }
{
    if holds {
        return sets::with(bits, i);
    }
    bits
}

// The queries that hold, of `count` that stand from a position on. That their bytes are there is known from the program's
// check, so no position is tested again: 16 queries take 8 ns and not 35.
#[tactic(auto, using(crate::proofs::ListedLaws::notings))]
pub fn held(program: &[u8], at: usize, count: u8, atoms: &[u32; atoms::WORDS]) -> u64
    requires { (count ≤ list_limit) × (at + 2 * count ≤ length program.now) }
    ensures { HeldAt program.now at count atoms.now result }
{
    let mut bits = 0;
    for i in 0..count {
        let next = at + positions::QUERY_BYTES * usize::from(i);
        let holds = atoms::holds(atoms, program[next], program[next + 1]);
        bits = noted(bits, u64::from(i), holds);
    }
    bits
}
