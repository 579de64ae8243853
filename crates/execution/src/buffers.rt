// The buffers of a run beside the caller's, of two sizes.
ghost use Rattle.std.specs.Prelude.{◌≡◌, ◌+◌, ◌*◌, ◌≤◌, length};
ghost use Rattle.model.specs.Calls.{ended, run_answer};
ghost use Rattle.execution.specs.Execution.{Admitted};

use super::execute;
use super::execute::Answer;
use code::words;
use shared::limit;
use tracked::{atoms, index};

// The longest policy.
const POLICY_BYTES: usize = limit::HEAD_BYTES + limit::FIELD_BYTES * (limit::ROLES as usize);

// A policy of four roles or fewer is copied into a small one: the smallest run takes a tenth less.
const SMALL_POLICY: usize = limit::HEAD_BYTES + limit::FIELD_BYTES * 4;

// A program of so many bytes or fewer runs in small buffers, so that a short run need not clear large ones.
const SMALL_BYTES: usize = 128;

// A node has four words.
const SMALL_NODES: usize = 4 * SMALL_BYTES;

const LARGE_NODES: usize = 4 * limit::PROGRAM_BYTES;

const SMALL_WORDS: usize = words::VARIABLES + SMALL_BYTES;

const LARGE_WORDS: usize = words::VARIABLES + limit::PROGRAM_BYTES;

// Runs in buffers that have room for the code, the words and a copy of the policy.
// Kept: the caller's buffers, `vars` and `fuel` stay parameters. Of a struct that holds a `&mut` each function would have to ensure
// beside the rest that it still holds the same one.
fn run_within<const NODES: usize, const WORDS: usize, const POLICY: usize>(
    policy: &mut [u8],
    program: &[u8],
    memory: &mut [u8],
    vars: usize,
    fuel: u32,
) -> Answer
    requires admitted { Admitted policy.old program.now memory.old vars fuel }
    requires nodes { (4 * length program.now ≤ NODES) × (NODES ≤ 16384) }
    requires words { (64 + length program.now ≤ WORDS) × (WORDS ≤ 4160) }
    requires copy { (length policy.old ≤ POLICY) × (POLICY ≤ 1415) }
    ensures { ended result.number result.units policy.new memory.new ≡ run_answer policy.old program.now memory.old fuel }
{
    let n = policy.len();
    let mut copy = [0u8; POLICY];
    let mut code = [0u16; NODES];
    let mut words = [0u32; WORDS];
    let mut sets = [0u32; atoms::WORDS];
    let mut index = [0u64; index::WORDS];
    execute::run_in(
        policy,
        program,
        memory,
        vars,
        fuel,
        &mut code,
        &mut words,
        &mut copy[..n],
        &mut sets,
        &mut index,
    )
}

// The same, with a copy of the policy that is small where the policy is.
fn run_beside<const NODES: usize, const WORDS: usize>(
    policy: &mut [u8],
    program: &[u8],
    memory: &mut [u8],
    vars: usize,
    fuel: u32,
) -> Answer
    requires admitted { Admitted policy.old program.now memory.old vars fuel }
    requires nodes { (4 * length program.now ≤ NODES) × (NODES ≤ 16384) }
    requires words { (64 + length program.now ≤ WORDS) × (WORDS ≤ 4160) }
    ensures { ended result.number result.units policy.new memory.new ≡ run_answer policy.old program.now memory.old fuel }
{
    if policy.len() <= SMALL_POLICY {
        return run_within::<NODES, WORDS, SMALL_POLICY>(policy, program, memory, vars, fuel);
    }
    run_within::<NODES, WORDS, POLICY_BYTES>(policy, program, memory, vars, fuel)
}

// A run that nothing refuses.
pub fn run_admitted(
    policy: &mut [u8],
    program: &[u8],
    memory: &mut [u8],
    vars: usize,
    fuel: u32,
) -> Answer
    requires { Admitted policy.old program.now memory.old vars fuel }
    ensures { ended result.number result.units policy.new memory.new ≡ run_answer policy.old program.now memory.old fuel }
{
    if program.len() <= SMALL_BYTES {
        return run_beside::<SMALL_NODES, SMALL_WORDS>(policy, program, memory, vars, fuel);
    }
    run_beside::<LARGE_NODES, LARGE_WORDS>(policy, program, memory, vars, fuel)
}
