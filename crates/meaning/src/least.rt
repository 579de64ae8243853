// The meaning of a role: the least sets where each role holds its members and all that the roles it takes hold.
ghost use Rattle.std.specs.Prelude.{◌≡◌, ◌+◌, ◌^◌, ◌<◌, length};
ghost use Rattle.model.specs.Policy.{roles, members, takes, Accepted};
ghost use Rattle.model.specs.Meaning.{meanings, meaning, meaning_of};
ghost use Rattle.shared.specs.Words.{United};
ghost use Rattle.meaning.specs.Answers.{meaning_answer};
ghost use Rattle.meaning.specs.Reach.{Found, Searches};

use policy::{check, rows};
use shared::refusal::Refusal;
use shared::{limit, sets};

// How far the search from a role has come: the roles that it has seen, those of them that it is done with, and their bits.
// Kept: the searches of all roles stand in three arrays. Tried as one array of this struct: the sets of 64 roles took 60 to 100 ns
// longer, of some 180 to 370.
#[derive(Clone, Copy)]
struct Search {
    seen: u64,
    done: u64,
    bits: u32,
}

// The search from role i, gone on by the searches from the roles above it. The lowest comes first: it has gone on most.
fn with_above(policy: &[u8], i: usize, seen: &[u64], done: &[u64], sets: &[u32]) -> Search
    requires { (Searches policy.now (i + 1) seen.now done.now sets.now) × (Accepted policy.now) × (i < roles policy.now) }
    ensures { Found policy.now i result.seen result.done result.bits }
{
    let mut reached = sets::with(rows::takes_of(policy, i), i as u64);
    let mut passed = sets::with(0, i as u64);
    let mut bits = rows::members_of(policy, i);
    let mut left = (reached ^ passed) >> i;
    while 0 < left {
        let j = i + sets::lowest(left) as usize;
        reached = reached | seen[j];
        passed = passed | done[j];
        bits = bits | sets[j];
        left = (reached ^ passed) >> i;
    }
    Search {
        seen: reached,
        done: passed,
        bits,
    }
}

// The search from role i, gone on until nothing is left. The highest comes first: where only roles below i are left, it has gone on most.
fn with_all(policy: &[u8], i: usize, seen: &[u64], done: &[u64], sets: &[u32]) -> Search
    requires { (Searches policy.now 0 seen.now done.now sets.now) × (i < roles policy.now) }
    ensures found { Found policy.now i result.seen result.done result.bits }
    ensures whole { result.bits ≡ meaning policy.now i }
{
    let mut reached = seen[i];
    let mut passed = done[i];
    let mut bits = sets[i];
    let mut left = reached ^ passed;
    while 0 < left {
        let j = sets::highest(left) as usize;
        reached = reached | seen[j];
        passed = passed | done[j];
        bits = bits | sets[j];
        left = reached ^ passed;
    }
    Search {
        seen: reached,
        done: passed,
        bits,
    }
}

// The searches from the last role down, each gone on by those before it: none has a role above its own left.
#[tactic(auto, using(crate::proofs::ReachLaws::down_laws))]
fn look_above(policy: &[u8], seen: &mut [u64], done: &mut [u64], sets: &mut [u32])
    requires { (Searches policy.now (roles policy.now) seen.old done.old sets.old) × Accepted policy.now }
    ensures { Searches policy.now 0 seen.new done.new sets.new }
{
    for row in (0..sets.len()).rev() {
        let far = with_above(policy, row, seen, done, sets);
        seen[row] = far.seen;
        done[row] = far.done;
        sets[row] = far.bits;
    }
}

// Each search from the first role's up goes on until nothing is left.
#[tactic(auto, using(crate::proofs::ReachLaws::told_laws))]
fn look_on(policy: &[u8], seen: &mut [u64], done: &mut [u64], sets: &mut [u32])
    requires { Searches policy.now 0 seen.old done.old sets.old }
    ensures { sets.new ≡ meanings policy.now }
{
    for i in 0..sets.len() {
        let far = with_all(policy, i, seen, done, sets);
        seen[i] = far.seen;
        done[i] = far.done;
        sets[i] = far.bits;
    }
}

// The least sets of all roles. Down and then up again, each search meets those that have gone on most, whichever way the takes lead.
fn least_sets(policy: &[u8], seen: &mut [u64], done: &mut [u64], sets: &mut [u32])
    requires { (Searches policy.now (roles policy.now) seen.old done.old sets.old) × Accepted policy.now }
    ensures { sets.new ≡ meanings policy.now }
{
    look_above(policy, seen, done, sets);
    look_on(policy, seen, done, sets);
}

// The meanings of all roles, a word for each.
pub fn all_meanings(policy: &[u8], sets: &mut [u32])
    requires { (length sets.old ≡ roles policy.now) × Accepted policy.now }
    ensures { sets.new ≡ meanings policy.now }
{
    let mut seen = [0u64; limit::ROLES as usize];
    let mut done = [0u64; limit::ROLES as usize];
    least_sets(policy, &mut seen, &mut done, sets);
}

// Adds what some roles take in to the roles that were seen, and their members to the bits.
#[tactic(auto, using(crate::proofs::ReachLaws::row_laws))]
fn add_rows(policy: &[u8], some: u64, seen: &mut u64, bits: &mut u32)
    requires { (Accepted policy.now) × (some < 2 ^ roles policy.now) }
    ensures taken { United (takes policy.now) some 0 seen.old seen.new }
    ensures members { United (members policy.now) some 0 bits.old bits.new }
{
    let mut rest = some;
    while 0 < rest {
        let j = sets::lowest(rest) as usize;
        *seen = *seen | rows::takes_of(policy, j);
        *bits = *bits | rows::members_of(policy, j);
        rest = sets::without_lowest(rest);
    }
}

// The least set of a role that there is: the members of each role that is reached from it, of which each is looked at once. All
// that are new are looked at before those that they take in: so no row waits for the one before, and 64 dense ones take 50 ns
// and not 200.
fn least_set(policy: &[u8], role: usize) -> u32
    requires { (Accepted policy.now) × (role < roles policy.now) }
    ensures { result ≡ meaning policy.now role }
{
    let mut seen = sets::with(0, role as u64);
    let mut done = 0;
    let mut bits = 0;
    while done < seen {
        let new = seen ^ done;
        done = seen;
        add_rows(policy, new, &mut seen, &mut bits);
    }
    bits
}

// The meaning of a role under a policy: any bytes, any role number.
#[tactic(auto, using(crate::proofs::MeaningLaws::asked))]
pub fn meaning_of(policy: &[u8], role: u32) -> Result<u32, Refusal>
    ensures { meaning_answer result ≡ meaning_of policy.now role }
{
    check::check_policy(policy)?;
    if u32::from(rows::roles_of(policy)) <= role {
        return Err(Refusal::NoSuchRole);
    }
    Ok(least_set(policy, role as usize))
}
