// The check of any bytes as a policy, in the order that document 01 fixes: the head, then 4 and 5 row by row, then 6.
ghost use Rattle.std.specs.Prelude.{◌≡◌, ◌+◌, true, ◌^◌, ◌<◌, OnOk};
ghost use Rattle.model.specs.Number.{first_below};
ghost use Rattle.model.specs.Sets.{has};
ghost use Rattle.model.specs.Policy.{roles, HasRow, takes, AcceptedHead, head_number, principal_number, owner_number, row_number, taken_number, takes_number, grants_number, policy_number};
ghost use Rattle.shared.specs.Refusals.{outcome_number};
ghost use Rattle.policy.specs.Pairs.{Seen};
ghost use Rattle.policy.specs.Takable.{Takable};

use super::{pairs, rows};
use shared::refusal::Refusal;
use shared::{limit, number, sets};

// The head: under 7 bytes, mark or version, ranges, then the length.
#[tactic(auto, using(crate::proofs::CheckLaws::heads))]
fn check_head(policy: &[u8]) -> Result<(), Refusal>
    ensures { outcome_number result ≡ head_number policy.now }
{
    if policy.len() < limit::HEAD_BYTES {
        return Err(Refusal::PolicyLength);
    }
    if !rows::has_mark(policy) {
        return Err(Refusal::PolicyMark);
    }
    let principals = rows::principals_of(policy);
    if principals < 1 {
        return Err(Refusal::PolicyRange);
    }
    if limit::PRINCIPALS < principals {
        return Err(Refusal::PolicyRange);
    }
    if limit::ROLES < rows::roles_of(policy) {
        return Err(Refusal::PolicyRange);
    }
    if policy.len() != rows::policy_bytes(policy) {
        return Err(Refusal::PolicyLength);
    }
    Ok(())
}

// 4: row i names only principals that there are.
#[tactic(auto, using(crate::proofs::CheckLaws::principal_laws))]
fn check_principals(policy: &[u8], i: usize) -> Result<(), Refusal>
    requires { HasRow policy.now i }
    ensures { outcome_number result ≡ principal_number policy.now i }
{
    let principals = rows::principals_of(policy);
    if principals <= rows::owner_of(policy, i) {
        return Err(Refusal::RowPrincipal);
    }
    let n = u64::from(principals);
    if !sets::all_below(u64::from(rows::viewers_of(policy, i)), n) {
        return Err(Refusal::RowPrincipal);
    }
    if !sets::all_below(u64::from(rows::trusters_of(policy, i)), n) {
        return Err(Refusal::RowPrincipal);
    }
    if !sets::all_below(u64::from(rows::members_of(policy, i)), n) {
        return Err(Refusal::RowPrincipal);
    }
    Ok(())
}

// 5: the owner of row i is its viewer and truster.
#[tactic(auto, using(crate::proofs::CheckLaws::owner_laws))]
fn check_owner(policy: &[u8], i: usize) -> Result<(), Refusal>
    requires { HasRow policy.now i }
    ensures { outcome_number result ≡ owner_number policy.now i }
{
    let owner = u64::from(rows::owner_of(policy, i));
    if rows::may_hold(policy, i, owner) {
        return Ok(());
    }
    Err(Refusal::RowOwner)
}

// Row i: 4 before 5.
#[tactic(auto, using(crate::proofs::CheckLaws::row_laws, crate::proofs::PairLaws::owner_fits, model::proofs::Rows::row_inside))]
fn check_row(policy: &[u8], i: usize, seen: &mut [u64]) -> Result<(), Refusal>
    requires { (AcceptedHead policy.now) × (i < roles policy.now) × Seen policy.now seen.old i }
    ensures number { outcome_number result ≡ row_number policy.now i }
    ensures now_seen { OnOk result (Seen policy.now seen.new (i + 1)) }
{
    check_principals(policy, i)?;
    check_owner(policy, i)?;
    pairs::check_pair(policy, i, seen)
}

// 4 and 5 of all n rows, row by row, with room for the pairs that were seen.
#[tactic(auto, using(crate::proofs::CheckLaws::loops))]
fn check_each_row(policy: &[u8], n: usize, seen: &mut [u64]) -> Result<(), Refusal>
    requires { (AcceptedHead policy.now) × (n ≡ roles policy.now) × Seen policy.now seen.old 0 }
    ensures { outcome_number result ≡ first_below (row_number policy.now) n }
{
    for i in 0..n {
        check_row(policy, i, seen)?;
    }
    Ok(())
}

// 4 and 5 of all rows.
#[tactic(auto, using(crate::proofs::PairLaws::seen_few, crate::proofs::PairLaws::seen_all, crate::proofs::RowLaws::head_inside))]
fn check_rows(policy: &[u8], n: usize) -> Result<(), Refusal>
    requires { (AcceptedHead policy.now) × (n ≡ roles policy.now) }
    ensures { outcome_number result ≡ first_below (row_number policy.now) n }
{
    if rows::principals_of(policy) <= pairs::FEW {
        let mut few = [0u64; pairs::FEW_WORDS];
        return check_each_row(policy, n, &mut few);
    }
    let mut seen = [0u64; pairs::WORDS];
    check_each_row(policy, n, &mut seen)
}

// 6: row i, which takes role j, may take it in.
#[tactic(auto, using(crate::proofs::TakesLaws::taken_laws))]
fn check_taken(policy: &[u8], i: usize, j: usize) -> Result<(), Refusal>
    requires { (HasRow policy.now i) × (HasRow policy.now j) × (has (takes policy.now i) j ≡ true) }
    ensures { outcome_number result ≡ taken_number policy.now i j }
{
    if rows::may_take(policy, i, j) {
        return Ok(());
    }
    Err(Refusal::RowGrants)
}

// 6: row i takes in only roles that it may. Only those that it takes are visited.
#[tactic(auto, using(crate::proofs::TakesLaws::takes_laws, crate::proofs::RowLaws::insides))]
fn check_each_taken(policy: &[u8], i: usize, n: usize) -> Result<(), Refusal>
    requires { (AcceptedHead policy.now) × (n ≡ roles policy.now) × (i < n) × (takes policy.now i < 2 ^ n) }
    ensures { outcome_number result ≡ first_below (taken_number policy.now i) n }
{
    let mut rest = rows::takes_of(policy, i);
    while 0 < rest {
        let j = sets::lowest(rest);
        check_taken(policy, i, j as usize)?;
        rest = sets::without_lowest(rest);
    }
    Ok(())
}

// 6: row i takes in only roles that there are, and that it may. Where all that it takes are among those takable, none is visited.
#[tactic(auto, using(crate::proofs::CheckLaws::row_takes, crate::proofs::RowLaws::insides))]
fn check_takes(policy: &[u8], i: usize, n: usize, takable: u64) -> Result<(), Refusal>
    requires { (AcceptedHead policy.now) × (n ≡ roles policy.now) × (i < n) × Takable policy.now i takable }
    ensures { outcome_number result ≡ takes_number policy.now i n }
{
    let takes = rows::takes_of(policy, i);
    if !sets::all_below(takes, n as u64) {
        return Err(Refusal::RowGrants);
    }
    if sets::subset(takes, takable) {
        return Ok(());
    }
    check_each_taken(policy, i, n)
}

// 6: members of row i are its viewers and trusters; it takes in only roles that there are and that it may.
#[tactic(auto, using(crate::proofs::CheckLaws::grants_laws, crate::proofs::RowLaws::insides))]
fn check_grants(policy: &[u8], i: usize, n: usize, takable: u64) -> Result<(), Refusal>
    requires { (AcceptedHead policy.now) × (n ≡ roles policy.now) × (i < n) × Takable policy.now i takable }
    ensures { outcome_number result ≡ grants_number policy.now i }
{
    let members = u64::from(rows::members_of(policy, i));
    if !sets::subset(members, u64::from(rows::viewers_of(policy, i))) {
        return Err(Refusal::RowGrants);
    }
    if !sets::subset(members, u64::from(rows::trusters_of(policy, i))) {
        return Err(Refusal::RowGrants);
    }
    check_takes(policy, i, n, takable)
}

// Of roles that row k may take in, such as row i may too: all of them where it may take in row k, else none.
#[tactic(auto, using(crate::proofs::CheckLaws::takable_laws))]
fn takable_too(policy: &[u8], i: usize, k: usize, takable: u64) -> u64
    requires { (HasRow policy.now i) × (HasRow policy.now k) × Takable policy.now k takable }
    ensures { Takable policy.now i result }
{
    if rows::may_take(policy, i, k) {
        return takable;
    }
    0
}

// 6 of all rows. Where many rows of the same viewers and trusters take in the same roles, these are visited once.
#[tactic(auto, using(crate::proofs::CheckLaws::loops, crate::proofs::CheckLaws::takable_laws, crate::proofs::RowLaws::insides))]
fn check_all_grants(policy: &[u8], n: usize) -> Result<(), Refusal>
    requires { (AcceptedHead policy.now) × (n ≡ roles policy.now) }
    ensures { outcome_number result ≡ first_below (grants_number policy.now) n }
{
    let mut takable = 0;
    let mut last = 0;
    for i in 0..n {
        takable = takable_too(policy, i, last, takable);
        check_grants(policy, i, n, takable)?;
        takable = takable | rows::takes_of(policy, i);
        last = i;
    }
    Ok(())
}

// Whether any bytes are a policy, and if not, why.
#[tactic(auto, using(crate::proofs::CheckLaws::policy_laws, crate::proofs::RowLaws::insides))]
pub fn check_policy(policy: &[u8]) -> Result<(), Refusal>
    ensures { outcome_number result ≡ policy_number policy.now }
{
    check_head(policy)?;
    let roles = usize::from(rows::roles_of(policy));
    check_rows(policy, roles)?;
    check_all_grants(policy, roles)
}

// The number of any bytes as a policy.
pub fn policy_number(policy: &[u8]) -> u32
    ensures { result ≡ policy_number policy.now }
{
    match check_policy(policy) {
        Ok(()) => number::ACCEPTED,
        Err(refusal) => u32::from(refusal),
    }
}
