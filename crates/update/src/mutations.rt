// The mutations of an update, made in the policy's bytes in written order, and noted beside them. Those that stand in an
// accepted program are allowed, so the policy stays accepted, and its fixed part stays. One that changes nothing writes nothing.
ghost use Rattle.std.specs.Prelude.{◌+◌, ◌<◌, ◌≤◌, length};
ghost use Rattle.model.specs.Policy.{roles};
ghost use Rattle.model.specs.Mutation.{operand_count};
ghost use Rattle.program.specs.Codes.{model_kind};
ghost use Rattle.tracked.specs.Index.{Mirrored, member_kind, taken_kind, Made};
ghost use Rattle.update.specs.Mutations.{MutableOne, Mutable, MutatedOne, Mutated};

use gathered::positions;
use policy::rows;
use program::codes::Kind;
use tracked::index;

// Role `role` has the principal x as a member, or no longer.
// Kept beside `place_taken`: the two have no call in common but `placed`, so one function would take the other calls as closures.
#[tactic(auto, using(crate::proofs::MutationLaws::ones))]
fn place_member(
    policy: &mut [u8],
    index: &mut [u64; index::WORDS],
    role: usize,
    x: u64,
    present: bool,
)
    requires { (Mirrored policy.old index.old) × (role < roles policy.old) × (x < operand_count policy.old (member_kind present)) }
    ensures { Made (member_kind present) role x policy.old index.old policy.new index.new }
{
    if index::note_member(index, role, x, present) {
        let members = index::placed(present, u64::from(rows::members_of(policy, role)), x);
        rows::set_members(policy, role, members as u32);
    }
}

// Role `role` takes in role x, or no longer.
#[tactic(auto, using(crate::proofs::MutationLaws::ones))]
fn place_taken(
    policy: &mut [u8],
    index: &mut [u64; index::WORDS],
    role: usize,
    x: u64,
    present: bool,
)
    requires { (Mirrored policy.old index.old) × (role < roles policy.old) × (x < operand_count policy.old (taken_kind present)) }
    ensures { Made (taken_kind present) role x policy.old index.old policy.new index.new }
{
    if index::note_taken(index, role, x, present) {
        let takes = index::placed(present, rows::takes_of(policy, role), x);
        rows::set_takes(policy, role, takes);
    }
}

// One mutation of a role's row, by its kind.
fn mutate(policy: &mut [u8], index: &mut [u64; index::WORDS], kind: Kind, role: usize, x: u64)
    requires { (Mirrored policy.old index.old) × (role < roles policy.old) × (x < operand_count policy.old (model_kind kind)) }
    ensures { Made (model_kind kind) role x policy.old index.old policy.new index.new }
{
    match kind {
        Kind::AddMember => place_member(policy, index, role, x, true),
        Kind::DeleteMember => place_member(policy, index, role, x, false),
        Kind::AddTaken => place_taken(policy, index, role, x, true),
        Kind::DeleteTaken => place_taken(policy, index, role, x, false),
    }
}

// The mutation that stands at a position. That its bytes are there is known from the program's check.
fn mutate_at(program: &[u8], at: usize, policy: &mut [u8], index: &mut [u64; index::WORDS])
    requires { (Mirrored policy.old index.old) × (MutableOne program.now policy.old at) × (at + 3 ≤ length program.now) }
    ensures { MutatedOne program.now policy.old at index.old policy.new index.new }
{
    let Ok(kind) = Kind::try_from(program[at]) else {
        return;
    };
    let role = usize::from(program[at + 1]);
    let x = u64::from(program[at + 2]);
    mutate(policy, index, kind, role, x);
}

// All mutations of the update whose code stands at a position, in written order.
#[tactic(auto, using(crate::proofs::MutationLaws::mutatings))]
pub fn mutate_all(program: &[u8], at: usize, policy: &mut [u8], index: &mut [u64; index::WORDS])
    requires { (Mirrored policy.old index.old) × (Mutable program.now policy.old at) × (at + 2 ≤ length program.now) }
    ensures { Mutated program.now policy.old at index.old policy.new index.new }
{
    let count = program[at + 1];
    for i in 0..count {
        let next = at + 2 + positions::MUTATION_BYTES * usize::from(i);
        mutate_at(program, next, policy, index);
    }
}
