// Skips, codes 00, that stand in a row.
ghost use Rattle.std.specs.Prelude.{◌≡◌, ◌+◌, ◌≤◌};
ghost use Rattle.program.specs.Skips.{Skips};

use shared::bytes;

const EIGHT: u8 = 8;

// How many skips stand in a row from a position on, by whole eights and at most `most`: eight are one word that is 0. Blocks of
// skips take a third of the time by it.
#[tactic(auto, using(crate::proofs::SkipLaws::eights))]
pub fn in_eights(program: &[u8], at: usize, most: u8) -> u8
    ensures skips { Skips program.now at result }
    ensures few { result ≤ most }
{
    for eights in 0..most / EIGHT {
        let found = EIGHT * eights;
        let here = at + 8 * usize::from(eights);
        if program.len() <= here {
            return found;
        }
        if program.len() - here < 8 {
            return found;
        }
        if bytes::word64(program, here) != 0 {
            return found;
        }
    }
    EIGHT * (most / EIGHT)
}

// The position behind so many skips.
pub fn after(program: &[u8], at: usize, count: u8) -> usize
    requires { Skips program.now at count }
    ensures { result ≡ at + count }
{
    at + usize::from(count)
}
