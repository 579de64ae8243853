// A run that nothing refuses, in given buffers beside the caller's: these are filled, the loop steps through the code, and the
// end is written into the caller's once, when the run has finished.
ghost use Rattle.std.specs.Prelude.{◌≡◌, take};
ghost use Rattle.model.specs.Memory.{memory_of};
ghost use Rattle.model.specs.Machine.{answer_of};
ghost use Rattle.model.specs.Calls.{ended, run_answer};
ghost use Rattle.machine.specs.Steps.{ending_of};
ghost use Rattle.execution.specs.Execution.{Admitted, Loadable, Loaded, Executed, Finishable};

use machine::steps;
use shared::number;
use tracked::{atoms, index};
use turn::fuel::Spent;
use turn::memory;
use update::change;

// What a run gives: document 01's number, and the units. Kept as the two numbers: a run that is spent has a number other than 0
// and units, so neither stands for the other's lack.
#[derive(Clone, Copy)]
pub struct Answer {
    pub number: u32,
    pub units: u32,
}

// Fills what the run works on beside the caller's buffers: a copy of the policy with what is tracked of it, the code, the
// values of the variables. The node where the run starts.
fn load(
    policy: &[u8],
    program: &[u8],
    memory: &[u8],
    vars: usize,
    code: &mut [u16],
    words: &mut [u32],
    working: &mut [u8],
    sets: &mut [u32; atoms::WORDS],
    index: &mut [u64; index::WORDS],
) -> usize
    requires { Loadable policy.now program.now memory.now vars code.old words.old working.old index.old }
    ensures { Loaded policy.now program.now memory.now vars code.new words.new working.new sets.new index.new result }
{
    memory::copy_bytes(policy, working);
    change::track(working, sets, index);
    let start = compile::compile::compile(program, code, words);
    memory::load(memory, words, vars);
    start
}

// Writes the end of a run that has finished into the caller's buffers, and nothing where it was spent.
fn finish(
    policy: &mut [u8],
    memory: &mut [u8],
    working: &[u8],
    words: &[u32],
    vars: usize,
    fuel: u32,
    stop: Result<u32, Spent>,
) -> Answer
    requires { Finishable policy.old memory.old working.now words.now vars fuel stop }
    ensures { ended result.number result.units policy.new memory.new ≡ answer_of policy.old memory.old fuel (ending_of stop working.now (memory_of (take vars words.now))) }
{
    match stop {
        Ok(left) => {
            memory::copy_bytes(working, policy);
            memory::store(memory, words, vars);
            Answer {
                number: number::ACCEPTED,
                units: fuel - left,
            }
        }
        Err(Spent) => Answer {
            number: number::FUEL_SPENT,
            units: fuel,
        },
    }
}

// The run itself, in buffers beside the caller's: how it stops. `working` and the first of `words` are left as it leaves them.
// Kept: the buffers are lent side by side and not in a struct of arrays, whose sizes each caller would have to have as constants.
fn execute(
    policy: &[u8],
    program: &[u8],
    memory: &[u8],
    vars: usize,
    fuel: u32,
    code: &mut [u16],
    words: &mut [u32],
    working: &mut [u8],
    sets: &mut [u32; atoms::WORDS],
    index: &mut [u64; index::WORDS],
) -> Result<u32, Spent>
    requires { (Admitted policy.now program.now memory.now vars fuel) × Loadable policy.now program.now memory.now vars code.old words.old working.old index.old }
    ensures { Executed policy.now program.now memory.now vars fuel result working.new words.new }
{
    let start = load(
        policy, program, memory, vars, code, words, working, sets, index,
    );
    steps::steps(
        program, code, words, working, sets, index, vars, start, fuel,
    )
}

// The same, and its end in the caller's buffers.
pub fn run_in(
    policy: &mut [u8],
    program: &[u8],
    memory: &mut [u8],
    vars: usize,
    fuel: u32,
    code: &mut [u16],
    words: &mut [u32],
    working: &mut [u8],
    sets: &mut [u32; atoms::WORDS],
    index: &mut [u64; index::WORDS],
) -> Answer
    requires { (Admitted policy.old program.now memory.old vars fuel) × Loadable policy.old program.now memory.old vars code.old words.old working.old index.old }
    ensures { ended result.number result.units policy.new memory.new ≡ run_answer policy.old program.now memory.old fuel }
{
    let stop = execute(
        policy, program, memory, vars, fuel, code, words, working, sets, index,
    );
    finish(policy, memory, working, words, vars, fuel, stop)
}
