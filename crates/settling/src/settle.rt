// Brings the sets of the roles up to date, for the principals alone whose places may have changed since they were. So an update
// costs what it changes and not what the policy holds, and one that comes to nothing costs next to nothing.
ghost use Rattle.std.specs.Prelude.{◌≡◌, ◌<◌, ◌≤◌, length, get_or, set};
ghost use Rattle.model.specs.Limits.{principal_limit, role_limit};
ghost use Rattle.model.specs.Sets.{has};
ghost use Rattle.tracked.specs.Live.{atom_words};
ghost use Rattle.tracked.specs.Index.{known_at, index_words, current, placed, Tracked, Upward, Reaching, Known, Learnt};
ghost use Rattle.settling.specs.Settle.{Settling, Settled, Spread};

use policy::rows;
use shared::sets;
use tracked::{atoms, index};

// The roles in `start`, those that take one of them in, those that take in one of these, and so on. Each is looked at once, and
// those not at all that are already found: from them one of `start` is reached, and whatever takes one of them in is found too.
#[tactic(auto, using(crate::proofs::SettleLaws::climbings))]
fn climb(index: &[u64; index::WORDS], start: u64, found: u64) -> u64
    requires { Upward (current index.now) start found }
    ensures { Reaching (current index.now) start result }
{
    let mut seen = start | found;
    let mut done = found;
    let mut left = seen ^ done;
    while 0 < left {
        let j = sets::lowest(left);
        seen = seen | index[j as usize];
        done = sets::with(done, j);
        left = seen ^ done;
    }
    seen
}

// The same, with what is known of roles. Where all of `start` are known it is the union of their words, and no chain of steps
// that take 3 ns each. Else one that is not known is looked at alone and noted. That adds no step, since the others go on from
// what it found.
#[tactic(auto, using(crate::proofs::SettleLaws::reachings))]
fn reaching(index: &mut [u64; index::WORDS], start: u64) -> u64
    requires { Known (current index.old) index.old (get_or index.old known_at 0) }
    ensures learnt { Learnt index.old index.new }
    ensures among { Reaching (current index.old) start result }
{
    let unknown = start ^ (start & index::known(index));
    if unknown == 0 {
        return index::above(index, start);
    }
    let j = sets::lowest(unknown);
    let one = climb(index, sets::single(j), 0);
    let all = climb(index, start, one);
    index::note_above(index, j, one);
    all
}

// Whether a number is in a set of small numbers. In words of 32 bits, as the sets are, four tests are one step of the machine.
// Kept beside `sets::contains`: with that one, of 64 bits, `spread` takes a third longer.
fn contains(a: u32, i: u32) -> bool
    requires { i < 32 }
    ensures { result ≡ has a i }
{
    (a >> i) % 2 == 1
}

// A set with or without the principal p, with no jump. Kept beside `index::placed`, in words of 32 bits for the same reason: with that
// one `spread` takes a tenth more instructions, and updates of 16 members a tenth longer.
#[tactic(auto, using(crate::proofs::SettleLaws::placeds))]
fn placed(here: bool, old: u32, p: u64) -> u32
    requires { p < principal_limit }
    ensures { result ≡ placed here old p }
{
    let bit = sets::single(p) as u32;
    let both = old | bit;
    if here { both } else { both - bit }
}

// Puts the principal p into the set of role i or takes it out.
fn place(atoms: &mut [u32], i: usize, here: bool, p: u64)
    requires { (i < length atoms.old) × (p < principal_limit) }
    ensures { atoms.new ≡ set atoms.old i (placed here (get_or atoms.old i 0) p) }
{
    atoms[i] = placed(here, atoms[i], p);
}

// Puts the principal p into the sets of the roles that are among some, and takes it out of all others. Four at a time, also
// past the last role, where no set is: the compiler makes one step of the four, and 64 roles take 15 ns and not 75.
// Kept as a `while`: of a `for` by `step_by(4)` the compiler makes steps of four and no longer of eight, and updates of 16 members
// take a tenth longer.
fn spread(atoms: &mut [u32; atoms::WORDS], count: usize, among: u64, p: u64)
    requires { (count ≤ role_limit) × (p < principal_limit) }
    ensures { Spread count among p atoms.old atoms.new }
{
    let mut rest = among;
    let mut i = 0;
    while i < count {
        let four = (rest % 16) as u32;
        place(atoms, i, contains(four, 0), p);
        place(atoms, i + 1, contains(four, 1), p);
        place(atoms, i + 2, contains(four, 2), p);
        place(atoms, i + 3, contains(four, 3), p);
        rest /= 16;
        i += 4;
    }
}

// Brings the places of some principals up to date, one principal at a time.
#[tactic(auto, using(crate::proofs::SettleLaws::settlings))]
pub fn settle_some(
    policy: &[u8],
    atoms: &mut [u32; atoms::WORDS],
    index: &mut [u64; index::WORDS],
    some: u64,
)
    requires { Settling policy.now atoms.old index.old some }
    ensures { Settled policy.now atoms.new index.new }
{
    let count = usize::from(rows::roles_of(policy));
    let mut rest = some;
    while 0 < rest {
        let p = sets::lowest(rest);
        let among = reaching(index, index::holders(index, p));
        spread(atoms, count, among, p);
        rest = sets::without_lowest(rest);
    }
}

// Brings all places up to date.
#[tactic(auto, using(crate::proofs::SettleLaws::settlings))]
pub fn settle_all(policy: &[u8], atoms: &mut [u32; atoms::WORDS], index: &mut [u64; index::WORDS])
    requires { Tracked policy.now atoms.old index.old }
    ensures { Settled policy.now atoms.new index.new }
{
    let some = index::sift(atoms, index);
    settle_some(policy, atoms, index, some);
}

// The same. Mostly nothing was touched.
#[tactic(auto, using(crate::proofs::SettleLaws::settlings))]
pub fn settle(policy: &[u8], atoms: &mut [u32; atoms::WORDS], index: &mut [u64; index::WORDS])
    requires { Tracked policy.now atoms.old index.old }
    ensures { Settled policy.now atoms.new index.new }
{
    if index::pending(index) == 0 {
        return;
    }
    settle_all(policy, atoms, index);
}
