// The lists of a transaction and of an update: which queries are listed, which roles they name, whether the policy file
// allows what is added. Where a list was refused any answer is right, so each function takes every position.
ghost use Rattle.std.specs.Prelude.{◌≡◌, ◌+◌, ◌≤◌, length};
ghost use Rattle.model.specs.Policy.{Accepted};
ghost use Rattle.context.specs.Lists.{SameAt, ListedAt, QueryAt, KnownAt, byte_roles, QueryRolesAt, ListRolesAt, HoldsRight, TakesRight, OneAllowedAt, AllowedAt};

use gathered::positions;
use order::table::Table;
use policy::rows;
use program::codes::{Atom, Kind, UnknownCode};
use shared::sets;

// Whether the query that stands at `at` is the one that stands at `other`: both bytes are the same.
#[tactic(auto, using(crate::proofs::ListLaws::first_differs, crate::proofs::ListLaws::first_same))]
fn is_same(program: &[u8], at: usize, other: usize) -> bool
    requires { (at + 2 ≤ length program.now) × (other + 2 ≤ length program.now) }
    ensures { SameAt program.now at other result }
{
    if program[other] != program[at] {
        return false;
    }
    program[other + 1] == program[at + 1]
}

// Whether the query that stands at `other` is among the n queries that stand at `at`. Where one or the others do not lie within
// the bytes any answer is right: with that asked once, no byte of them is asked for again.
#[tactic(auto, using(crate::proofs::ListLaws::listings))]
pub fn is_listed(program: &[u8], n: u64, at: usize, other: usize) -> bool
    ensures { ListedAt program.now n at other result }
{
    if program.len() <= other {
        return false;
    }
    if program.len() - other < positions::QUERY_BYTES {
        return false;
    }
    if program.len() <= at {
        return false;
    }
    let room = (program.len() - at) / positions::QUERY_BYTES;
    let count = n as usize;
    if room < count {
        return false;
    }
    for i in 0..count {
        let here = at + positions::QUERY_BYTES * i;
        if is_same(program, here, other) {
            return true;
        }
    }
    false
}

// The atoms of a query.
#[derive(Clone, Copy)]
pub struct Query {
    pub first: Atom,
    pub second: Atom,
}

// The query that stands at `at`.
#[tactic(auto, using(crate::proofs::ListLaws::query_reads))]
pub fn query_at(program: &[u8], at: usize) -> Result<Query, UnknownCode>
    ensures { QueryAt program.now at result }
{
    let first = positions::atom_at(program, at)?;
    let second = positions::atom_at(program, positions::ahead(program, at, 1))?;
    Ok(Query { first, second })
}

// The role that the byte of an atom names, as a set. Everyone's, FF, names none.
#[tactic(auto, using(crate::proofs::ListLaws::byte_some, crate::proofs::ListLaws::byte_none))]
fn byte_roles(b: u8) -> u64
    ensures { result ≡ byte_roles b }
{
    if b < 0xc0 {
        return sets::single(u64::from(b) % 64);
    }
    0
}

// The roles named in the query that stands at `at`.
#[tactic(auto, using(crate::proofs::ListLaws::query_names))]
pub fn query_roles(program: &[u8], at: usize) -> u64
    ensures { QueryRolesAt program.now at result }
{
    if program.len() <= at {
        return 0;
    }
    if program.len() - at < positions::QUERY_BYTES {
        return 0;
    }
    byte_roles(program[at]) | byte_roles(program[at + 1])
}

// Whether the table knows the query that stands at `at` already.
#[tactic(auto, using(crate::proofs::ListLaws::known_queries))]
pub fn is_known(program: &[u8], table: &Table, at: usize) -> bool
    ensures { KnownAt program.now table.now at result }
{
    let Ok(query) = query_at(program, at) else {
        return false;
    };
    order::learn::is_known(table, query.first, query.second)
}

// The roles named in the n queries that stand at `at`.
#[tactic(auto, using(crate::proofs::ListLaws::namings))]
pub fn list_roles(program: &[u8], n: u8, at: usize) -> u64
    ensures { ListRolesAt program.now n at result }
{
    let mut found: u64 = 0;
    let mut here = at;
    for _ in 0..n {
        found = found | query_roles(program, here);
        here = positions::ahead(program, here, positions::QUERY_BYTES);
    }
    found
}

// Whether a role that there is may have the principal as a member.
#[tactic(auto, using(crate::proofs::ListLaws::holds_laws, crate::proofs::ListLaws::row_there))]
fn may_hold(policy: &[u8], role: u8, principal: u8) -> bool
    requires { Accepted policy.now }
    ensures { HoldsRight policy.now role principal result }
{
    if rows::roles_of(policy) <= role {
        return false;
    }
    rows::may_hold(policy, usize::from(role), u64::from(principal))
}

// Whether a role that there is may take in another.
#[tactic(auto, using(crate::proofs::ListLaws::takes_laws, crate::proofs::ListLaws::row_there))]
fn may_take(policy: &[u8], role: u8, other: u8) -> bool
    requires { Accepted policy.now }
    ensures { TakesRight policy.now role other result }
{
    let roles = rows::roles_of(policy);
    if roles <= role {
        return false;
    }
    if roles <= other {
        return false;
    }
    rows::may_take(policy, usize::from(role), usize::from(other))
}

// Whether the policy file allows the mutation that stands at `at`: kind, role, operand. A deletion is always
// allowed.
#[tactic(auto, using(crate::proofs::ListLaws::alloweds))]
fn is_allowed(policy: &[u8], program: &[u8], at: usize) -> bool
    requires { (Accepted policy.now) × (at + 3 ≤ length program.now) }
    ensures { OneAllowedAt policy.now program.now at result }
{
    let Ok(kind) = Kind::try_from(program[at]) else {
        return true;
    };
    match kind {
        Kind::AddMember => may_hold(policy, program[at + 1], program[at + 2]),
        Kind::AddTaken => may_take(policy, program[at + 1], program[at + 2]),
        Kind::DeleteMember => true,
        Kind::DeleteTaken => true,
    }
}

// Whether the policy file allows each of the n mutations that stand at `at`. Where they do not lie within the bytes any answer
// is right: with that asked once, no byte of them is asked for again.
#[tactic(auto, using(crate::proofs::ListLaws::allowings))]
pub fn all_allowed(policy: &[u8], program: &[u8], n: u8, at: usize) -> bool
    requires { Accepted policy.now }
    ensures { AllowedAt policy.now program.now n at result }
{
    if program.len() <= at {
        return true;
    }
    let count = usize::from(n);
    if program.len() - at < positions::MUTATION_BYTES * count {
        return true;
    }
    for i in 0..count {
        let here = at + positions::MUTATION_BYTES * i;
        if !is_allowed(policy, program, here) {
            return false;
        }
    }
    true
}
