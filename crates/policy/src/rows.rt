// What stands where in a policy, the head and the fields of row i: no other module knows. And what a row's viewers and
// trusters allow. The row must be there.
ghost use Rattle.std.specs.Prelude.{◌≡◌, ◌+◌, ◌≤◌, length};
ghost use Rattle.model.specs.Limits.{field_bytes};
ghost use Rattle.model.specs.Bytes.{word};
ghost use Rattle.model.specs.Policy.{has_mark, principals, roles, row_at, policy_bytes, HasRow, owner, name, viewers, trusters, members, takes, may_take, may_hold};
ghost use Rattle.model.specs.Mutation.{put_members, put_takes};

use shared::{bytes, limit, sets};

// Where each field stands in a row.
const OWNER: usize = 0;

const NAME: usize = 1;

const VIEWERS: usize = 2;

const TRUSTERS: usize = 6;

const MEMBERS: usize = 10;

const TAKES: usize = 14;

// Whether the head has the mark, and a version that there is.
#[tactic(auto, using(crate::proofs::RowLaws::mark_is))]
pub fn has_mark(policy: &[u8]) -> bool
    ensures { result ≡ has_mark policy.now }
{
    bytes::starts_with(policy, b"RXT\x01\x00")
}

// P, the number of principals.
pub fn principals_of(policy: &[u8]) -> u8
    ensures { result ≡ principals policy.now }
{
    bytes::byte_at(policy, 5)
}

// R, the number of roles.
pub fn roles_of(policy: &[u8]) -> u8
    ensures { result ≡ roles policy.now }
{
    bytes::byte_at(policy, 6)
}

// How long the file must be.
#[tactic(auto, using(crate::proofs::RowLaws::bytes_are))]
pub fn policy_bytes(policy: &[u8]) -> usize
    ensures { result ≡ policy_bytes policy.now }
{
    limit::HEAD_BYTES + limit::FIELD_BYTES * usize::from(roles_of(policy))
}

// Where row i begins. Its fields lie within the bytes.
#[tactic(auto, using(crate::proofs::RowLaws::row_begins, crate::proofs::RowLaws::row_fits))]
fn row_at(policy: &[u8], i: usize) -> usize
    requires { HasRow policy.now i }
    ensures start { result ≡ row_at policy.now i }
    ensures room { result + field_bytes ≤ length policy.now }
{
    limit::HEAD_BYTES + limit::FIELD_BYTES * i
}

pub fn owner_of(policy: &[u8], i: usize) -> u8
    requires { HasRow policy.now i }
    ensures { result ≡ owner policy.now i }
{
    policy[row_at(policy, i) + OWNER]
}

pub fn name_of(policy: &[u8], i: usize) -> u8
    requires { HasRow policy.now i }
    ensures { result ≡ name policy.now i }
{
    policy[row_at(policy, i) + NAME]
}

// A set of principals in row i, by where it stands in the row.
fn principals_at(policy: &[u8], i: usize, field: usize) -> u32
    requires { (HasRow policy.now i) × (field + 4 ≤ field_bytes) }
    ensures { result ≡ word policy.now (row_at policy.now i + field) 4 }
{
    bytes::word32(policy, row_at(policy, i) + field)
}

#[tactic(auto, using(crate::proofs::RowLaws::fields))]
pub fn viewers_of(policy: &[u8], i: usize) -> u32
    requires { HasRow policy.now i }
    ensures { result ≡ viewers policy.now i }
{
    principals_at(policy, i, VIEWERS)
}

#[tactic(auto, using(crate::proofs::RowLaws::fields))]
pub fn trusters_of(policy: &[u8], i: usize) -> u32
    requires { HasRow policy.now i }
    ensures { result ≡ trusters policy.now i }
{
    principals_at(policy, i, TRUSTERS)
}

#[tactic(auto, using(crate::proofs::RowLaws::fields))]
pub fn members_of(policy: &[u8], i: usize) -> u32
    requires { HasRow policy.now i }
    ensures { result ≡ members policy.now i }
{
    principals_at(policy, i, MEMBERS)
}

#[tactic(auto, using(crate::proofs::RowLaws::fields))]
pub fn takes_of(policy: &[u8], i: usize) -> u64
    requires { HasRow policy.now i }
    ensures { result ≡ takes policy.now i }
{
    bytes::word64(policy, row_at(policy, i) + TAKES)
}

// Writes the members of row i.
#[tactic(auto, using(crate::proofs::RowLaws::writes))]
pub fn set_members(policy: &mut [u8], i: usize, v: u32)
    requires { HasRow policy.old i }
    ensures { policy.new ≡ put_members policy.old i v }
{
    let at = row_at(policy, i) + MEMBERS;
    bytes::put32(policy, at, v);
}

// Writes what row i takes in.
#[tactic(auto, using(crate::proofs::RowLaws::writes))]
pub fn set_takes(policy: &mut [u8], i: usize, v: u64)
    requires { HasRow policy.old i }
    ensures { policy.new ≡ put_takes policy.old i v }
{
    let at = row_at(policy, i) + TAKES;
    bytes::put64(policy, at, v);
}

// Whether row i may take in role j: both have the same viewers and trusters.
#[tactic(auto, using(crate::proofs::RowLaws::take_laws))]
pub fn may_take(policy: &[u8], i: usize, j: usize) -> bool
    requires { (HasRow policy.now i) × (HasRow policy.now j) }
    ensures { result ≡ may_take policy.now i j }
{
    viewers_of(policy, i) == viewers_of(policy, j)
        && trusters_of(policy, i) == trusters_of(policy, j)
}

// Whether row i may have the principal as a member: it is viewer and truster both.
#[tactic(auto, using(crate::proofs::RowLaws::hold_laws))]
pub fn may_hold(policy: &[u8], i: usize, principal: u64) -> bool
    requires { HasRow policy.now i }
    ensures { result ≡ may_hold policy.now i principal }
{
    sets::contains(u64::from(viewers_of(policy, i)), principal)
        && sets::contains(u64::from(trusters_of(policy, i)), principal)
}
