// An update: its mutations in the policy's bytes, the sets of the atoms after them, and whether a listed query broke.
ghost use Rattle.std.specs.Prelude.{◌≡◌, ◌+◌, ◌*◌, ◌≤◌, length, replicate};
ghost use Rattle.model.specs.Limits.{list_limit};
ghost use Rattle.model.specs.Policy.{Accepted};
ghost use Rattle.tracked.specs.Live.{atom_words};
ghost use Rattle.tracked.specs.Index.{index_words, Tracked};
ghost use Rattle.settling.specs.Settle.{Settling};
ghost use Rattle.update.specs.Mutations.{Mutable};
ghost use Rattle.update.specs.Listed.{Listing};
ghost use Rattle.update.specs.Change.{is_awaited, Judged, CarriedOut};

use super::{listed, mutations};
use settling::settle;
use shared::sets;
use tracked::{atoms, index};

// What is tracked of a policy when a run begins, in words of which those of the index are 0.
#[tactic(auto, using(tracked::proofs::TrackedLaws::tracked_loaded))]
pub fn track(policy: &[u8], atoms: &mut [u32; atoms::WORDS], index: &mut [u64; index::WORDS])
    requires { (Accepted policy.now) × (index.old ≡ replicate index_words 0) }
    ensures { Tracked policy.now atoms.new index.new }
{
    atoms::load(policy, atoms);
    index::load(policy, index);
}

// Whether the sets are asked for and may be out of date: something is listed, and something was touched. Mostly not, and then an
// update passes the policy on to nothing but its mutations: with this test behind the call that settles, updates of one mutation
// took a tenth to a seventh longer.
#[tactic(auto, using(crate::proofs::ChangeLaws::awaits))]
fn is_awaited(count: u8, index: &[u64; index::WORDS]) -> bool
    ensures { result ≡ is_awaited count index.now }
{
    if count == 0 {
        return false;
    }
    index::pending(index) != 0
}

// Whether a listed query broke by mutations that can have changed the places of some principals. Until these are settled the
// sets are those from before the mutations.
fn judge(
    program: &[u8],
    listing: usize,
    count: u8,
    policy: &[u8],
    atoms: &mut [u32; atoms::WORDS],
    index: &mut [u64; index::WORDS],
    some: u64,
) -> bool
    requires { (Settling policy.now atoms.old index.old some) × (count ≤ list_limit) × (listing + 2 * count ≤ length program.now) }
    ensures { Judged program.now listing count policy.now atoms.old atoms.new index.new result }
{
    let before = listed::held(program, listing, count, atoms);
    settle::settle_some(policy, atoms, index, some);
    let after = listed::held(program, listing, count, atoms);
    !sets::subset(before, after)
}

// Whether a listed query broke by mutations that were made in the policy since the sets were up to date; then they are again.
// Where nobody's places changed by them no query breaks.
#[tactic(auto, using(crate::proofs::ChangeLaws::judgings))]
fn settle_judged(
    program: &[u8],
    listing: usize,
    count: u8,
    policy: &[u8],
    atoms: &mut [u32; atoms::WORDS],
    index: &mut [u64; index::WORDS],
) -> bool
    requires { (Tracked policy.now atoms.old index.old) × (count ≤ list_limit) × (listing + 2 * count ≤ length program.now) }
    ensures { Judged program.now listing count policy.now atoms.old atoms.new index.new result }
{
    let some = index::sift(atoms, index);
    if some == 0 {
        return false;
    }
    judge(program, listing, count, policy, atoms, index, some)
}

// Carries out the update whose code stands at `at`: true where one of the `count` queries listed from `listing` on held
// before the whole update and fails after it. Where none is listed nothing asks for the sets, and they are settled when
// something does. The mutations are made at one place in the code, where the compiler puts their loop.
pub fn carry_out(
    program: &[u8],
    at: usize,
    listing: usize,
    count: u8,
    policy: &mut [u8],
    atoms: &mut [u32; atoms::WORDS],
    index: &mut [u64; index::WORDS],
) -> bool
    requires { (Tracked policy.old atoms.old index.old) × (Mutable program.now policy.old at) × Listing program.now policy.old count listing }
    ensures { CarriedOut program.now policy.old at listing count policy.new atoms.new index.new result }
{
    if is_awaited(count, index) {
        settle::settle_all(policy, atoms, index);
    }
    mutations::mutate_all(program, at, policy, index);
    if !is_awaited(count, index) {
        return false;
    }
    settle_judged(program, listing, count, policy, atoms, index)
}
