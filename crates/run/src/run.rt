// A run of any program on any policy and memory with any fuel: what is refused, and changes nothing.
ghost use Rattle.std.specs.Prelude.{◌≡◌};
ghost use Rattle.model.specs.Number.{fine};
ghost use Rattle.model.specs.Flow.{program_verdict};
ghost use Rattle.model.specs.Calls.{ended, run_answer};

use execution::buffers;
use execution::execute::Answer;
use program::layout;
use shared::{bytes, limit, number};

// A refusal spends no unit.
fn refusal(number: u32) -> Answer
    ensures { result ≡ record { number = number; units = 0 } }
{
    Answer { number, units: 0 }
}

// An accepted program under an accepted policy: the memory's length, then the fuel, then the run.
#[tactic(auto, using(crate::proofs::RunLaws::refusals))]
fn run_accepted(policy: &mut [u8], program: &[u8], memory: &mut [u8], fuel: u32) -> Answer
    requires { program_verdict policy.old program.now ≡ fine }
    ensures { ended result.number result.units policy.new memory.new ≡ run_answer policy.old program.now memory.old fuel }
{
    let vars = usize::from(layout::variables_of(program));
    if memory.len() != 4 * vars {
        return refusal(number::MEMORY_LENGTH);
    }
    if fuel == 0 {
        return refusal(number::FUEL_RANGE);
    }
    if limit::FUEL < fuel {
        return refusal(number::FUEL_RANGE);
    }
    buffers::run_admitted(policy, program, memory, vars, fuel)
}

// A run: 1 to 6 of the policy, else 10 to 18 of the program, else 20 and 21, else 22 for a run that is spent, else 0.
pub fn run(policy: &mut [u8], program: &[u8], memory: &mut [u8], fuel: u32) -> Answer
    ensures { ended result.number result.units policy.new memory.new ≡ run_answer policy.old program.now memory.old fuel }
{
    match verdict::verdict::program_verdict(policy, program) {
        Ok(()) => run_accepted(policy, program, memory, fuel),
        Err(refused) => refusal(refused.number()),
    }
}
