// Rule 5's pairs of owner and name: one bit for each pair that can be, so that no row is compared with every earlier one.
ghost use Rattle.std.specs.Prelude.{◌≡◌, ◌+◌, ◌*◌, ◌<◌, length};
ghost use Rattle.model.specs.Number.{first_below};
ghost use Rattle.model.specs.Policy.{HasRow, principals, owner, name, pair_number};
ghost use Rattle.shared.specs.Refusals.{outcome_number};
ghost use Rattle.policy.specs.Pairs.{pair, marked, mark, Seen};

use super::rows;
use shared::refusal::Refusal;
use shared::sets;

// 64 bits a word, for 32 owners of 256 names each.
pub const WORDS: usize = 128;

// The same for a few owners, so that a small policy has less to clear.
pub const FEW: u8 = 4;

pub const FEW_WORDS: usize = 16;

// Owner and name of row i as one number.
fn pair_of(policy: &[u8], i: usize) -> usize
    requires { HasRow policy.now i }
    ensures same { result ≡ pair policy.now i }
    ensures small { name policy.now i < 256 }
{
    let owner = usize::from(rows::owner_of(policy, i));
    let name = usize::from(rows::name_of(policy, i));
    owner * 256 + name
}

// Whether a number is marked.
#[tactic(auto, using(crate::proofs::PairLaws::marked_is))]
fn is_marked(words: &[u64], c: usize) -> bool
    requires { c < 64 * length words.now }
    ensures { result ≡ marked words.now c }
{
    sets::contains(words[c / 64], (c % 64) as u64)
}

// Marks a number.
#[tactic(auto, using(crate::proofs::PairLaws::mark_is))]
fn set_mark(words: &mut [u64], c: usize)
    requires { c < 64 * length words.old }
    ensures { words.new ≡ mark words.old c }
{
    words[c / 64] = words[c / 64] | sets::single((c % 64) as u64);
}

// 5: no earlier row has the owner and name of row i, which are marked now.
#[tactic(auto, using(crate::proofs::PairLaws::pair_laws, crate::proofs::PairLaws::length_mark))]
pub fn check_pair(policy: &[u8], i: usize, seen: &mut [u64]) -> Result<(), Refusal>
    requires { (HasRow policy.now i) × (owner policy.now i < principals policy.now) × Seen policy.now seen.old i }
    ensures number { outcome_number result ≡ first_below (pair_number policy.now i) i }
    ensures now_seen { Seen policy.now seen.new (i + 1) }
{
    let pair = pair_of(policy, i);
    let before = is_marked(seen, pair);
    set_mark(seen, pair);
    if before {
        return Err(Refusal::RowOwner);
    }
    Ok(())
}
