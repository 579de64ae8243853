// The policy the other way round, as words beside it: of each role the roles that take it in, of each principal the roles that
// have it as a member. A role means a principal exactly where one of the principal's roles is reached from it, so one
// principal's places in the sets of the atoms follow from these words alone. Of each word that is touched the word as it was when
// the sets were last right is kept: only when they are asked for the two are compared, and a word that is again as it was costs
// nothing. The roles from which a role is reached are kept once they are found, until a role takes in another or no longer.
ghost use Rattle.std.specs.Prelude.{◌≡◌, ◌+◌, ◌<◌, length, get_or, replicate};
ghost use Rattle.std.specs.Int.Bits.{bit_or};
ghost use Rattle.model.specs.Limits.{principal_limit, role_limit};
ghost use Rattle.model.specs.Policy.{roles, Accepted};
ghost use Rattle.shared.specs.Words.{single, United};
ghost use Rattle.tracked.specs.Live.{atom_words};
ghost use Rattle.tracked.specs.Index.{holders_at, moved_at, known_at, rewired_at, index_words, current, Mark, SetInside, Entered, Loaded, Few, placed, turns, Marked, Turned, Changed, Cleared, Sifted, Reaching, Known, Learnt};

use super::atoms;
use policy::rows;
use shared::sets;

// How many words there are; where those of the principals begin, where the principals whose words were touched stand, of which
// roles it is known from where they are reached, where the words of that begin, where the roles whose words were touched stand,
// and where the words as they were begin.
pub const WORDS: usize = 259;

const HOLDERS: usize = 64;

const MOVED: usize = 96;

const KNOWN: usize = 97;

const ABOVE: usize = 98;

const REWIRED: usize = 162;

const BEFORE: usize = 163;

// Puts i into each word, from `from` on, whose number is in a set.
fn enter(index: &mut [u64; WORDS], from: usize, set: u64, i: u64)
    requires { (SetInside from set) × (i < role_limit) }
    ensures { Entered from set i index.old index.new }
{
    let mut rest = set;
    while 0 < rest {
        let k = from + (sets::lowest(rest) as usize);
        index[k] = sets::with(index[k], i);
        rest = sets::without_lowest(rest);
    }
}

// The words of a policy, in words that are 0. None was touched.
#[tactic(auto, using(crate::proofs::IndexLaws::loadings))]
pub fn load(policy: &[u8], index: &mut [u64; WORDS])
    requires { (Accepted policy.now) × (index.old ≡ replicate index_words 0) }
    ensures { Loaded policy.now (roles policy.now) index.new }
{
    let count = usize::from(rows::roles_of(policy));
    for i in 0..count {
        let taken = rows::takes_of(policy, i);
        let members = u64::from(rows::members_of(policy, i));
        enter(index, 0, taken, i as u64);
        enter(index, HOLDERS, members, i as u64);
    }
}

// A set with or without a number, with no jump.
#[tactic(auto, using(crate::proofs::IndexLaws::placings))]
pub fn placed(present: bool, set: u64, i: u64) -> u64
    requires { i < role_limit }
    ensures { result ≡ placed present set i }
{
    let bit = 1 << i;
    let both = set | bit;
    if present {
        return both;
    }
    both - bit
}

// Keeps word k as it was when the sets were last right, where nothing touched it since.
#[tactic(auto, using(crate::proofs::KeepLaws::keepings))]
fn keep(index: &mut [u64; WORDS], k: usize, mark: usize, x: u64)
    requires { (k < moved_at) × (mark < index_words) × (x < role_limit) × Mark k mark x }
    ensures { Marked k index.old index.new }
{
    if sets::contains(index[mark], x) {
        return;
    }
    index[mark] = sets::with(index[mark], x);
    index[BEFORE + k] = index[k];
}

// Puts i into word k or takes it out: whether that changed the word.
#[tactic(auto, using(crate::proofs::KeepLaws::turnings))]
fn turn(index: &mut [u64; WORDS], k: usize, i: u64, present: bool, mark: usize, x: u64) -> bool
    requires { (k < moved_at) × (i < role_limit) × (mark < index_words) × (x < role_limit) × Mark k mark x }
    ensures turned { Turned k i present index.old index.new }
    ensures told { result ≡ turns present (get_or index.old k 0) i }
{
    let old = index[k];
    let new = placed(present, old, i);
    if new == old {
        return false;
    }
    keep(index, k, mark, x);
    index[k] = new;
    true
}

// Role `role` has the principal x as a member, or no longer: whether that changes anything.
// Kept beside `note_taken`: what the two have in common is `turn`.
#[tactic(auto, using(crate::proofs::KeepLaws::mark_member))]
pub fn note_member(index: &mut [u64; WORDS], role: usize, x: u64, present: bool) -> bool
    requires { (role < role_limit) × (x < principal_limit) }
    ensures turned { Turned (holders_at + x) role present index.old index.new }
    ensures told { result ≡ turns present (get_or index.old (holders_at + x) 0) role }
{
    turn(
        index,
        HOLDERS + (x as usize),
        role as u64,
        present,
        MOVED,
        x,
    )
}

// Role `role` takes in role x, or no longer: whether that changes anything.
#[tactic(auto, using(crate::proofs::KeepLaws::mark_taken))]
pub fn note_taken(index: &mut [u64; WORDS], role: usize, x: u64, present: bool) -> bool
    requires { (role < role_limit) × (x < role_limit) }
    ensures turned { Turned x role present index.old index.new }
    ensures told { result ≡ turns present (get_or index.old x 0) role }
{
    turn(index, x as usize, role as u64, present, REWIRED, x)
}

// What was touched since the sets were last right: 0 where nothing was.
pub fn pending(index: &[u64; WORDS]) -> u64
    ensures { result ≡ bit_or (get_or index.now moved_at 0) (get_or index.now rewired_at 0) }
{
    index[MOVED] | index[REWIRED]
}

// Those of a set whose word, from `from` on, is another than it was.
#[tactic(auto, using(crate::proofs::SiftLaws::comparings))]
fn changed(index: &[u64; WORDS], from: usize, set: u64) -> u64
    requires { (SetInside from set) }
    ensures { Changed from set index.now result }
{
    let mut found = 0;
    let mut rest = set;
    while 0 < rest {
        let j = sets::lowest(rest);
        let k = from + (j as usize);
        found = placed(index[k] != index[BEFORE + k], found, j);
        rest = sets::without_lowest(rest);
    }
    found
}

// All that are in the sets of some roles.
#[tactic(auto, using(shared::proofs::UnionLaws::unions))]
fn union_of(atoms: &[u32; atoms::WORDS], some: u64) -> u32
    ensures { United (current atoms.now) some 0 0 result }
{
    let mut found = 0;
    let mut rest = some;
    while 0 < rest {
        let j = sets::lowest(rest);
        found = found | atoms[j as usize];
        rest = sets::without_lowest(rest);
    }
    found
}

// Nothing is touched any more; and where the words of some roles are others than they were, nothing is known.
fn clear(index: &mut [u64; WORDS], rewired: u64)
    ensures { Cleared rewired index.old index.new }
{
    index[MOVED] = 0;
    index[REWIRED] = 0;
    if rewired == 0 {
        return;
    }
    index[KNOWN] = 0;
}

// The principals whose places may be out of date: those whose own word is another than it was, and all that are in the set of a
// role whose word is. Nobody else's places can have changed. The caller puts these right, so nothing counts as touched any more.
#[tactic(auto, using(crate::proofs::SiftLaws::siftings))]
pub fn sift(atoms: &[u32; atoms::WORDS], index: &mut [u64; WORDS]) -> u64
    requires { Few (get_or index.old moved_at 0) }
    ensures { Sifted atoms.now index.old index.new result }
{
    let moved = changed(index, HOLDERS, index[MOVED]);
    let rewired = changed(index, 0, index[REWIRED]);
    clear(index, rewired);
    moved | u64::from(union_of(atoms, rewired))
}

// The roles that have a principal as a member.
pub fn holders(index: &[u64; WORDS], p: u64) -> u64
    requires { (p < principal_limit) }
    ensures { result ≡ get_or index.now (holders_at + p) 0 }
{
    index[HOLDERS + (p as usize)]
}

// The roles of which it is known from where they are reached.
pub fn known(index: &[u64; WORDS]) -> u64
    ensures { result ≡ get_or index.now known_at 0 }
{
    index[KNOWN]
}

// Notes from where role j is reached.
pub fn note_above(index: &mut [u64; WORDS], j: u64, above: u64)
    requires { (j < role_limit) × (Known (current index.old) index.old (get_or index.old known_at 0)) × Reaching (current index.old) (single j) above }
    ensures { Learnt index.old index.new }
{
    index[ABOVE + (j as usize)] = above;
    index[KNOWN] = sets::with(index[KNOWN], j);
}

// The roles from which one of some is reached that are all known.
pub fn above(index: &[u64; WORDS], start: u64) -> u64
    requires { Known (current index.now) index.now start }
    ensures { Reaching (current index.now) start result }
{
    let mut seen = 0;
    let mut rest = start;
    while 0 < rest {
        let j = sets::lowest(rest);
        seen = seen | index[ABOVE + (j as usize)];
        rest = sets::without_lowest(rest);
    }
    seen
}
