#![tactic(auto)]
// The public face: the calls of document 01, as the crate rx_c exports them for C and Rust. Each takes every input.
// Rattle callers also have policy::check::policy_number, meaning::least::meaning_of, verdict::verdict::program_verdict and
// run::run::run, which these call, and transaction_body below. What no export can say stands last: that two runs leak nothing
// (`two_runs`).
ghost use Rattle.std.specs.Prelude.{◌≡◌};
ghost use Rattle.model.specs.Number.{number_of};
ghost use Rattle.model.specs.Policy.{policy_number};
ghost use Rattle.model.specs.Meaning.{answer, meaning_of};
ghost use Rattle.model.specs.Flow.{program_verdict, transaction_part};
ghost use Rattle.model.specs.Calls.{located, place_answer, body, transaction_answer, part_bytes, ended, run_answer};
ghost use Rattle.model.specs.Claim.{Claim};

use execution::execute::Answer;
use shared::number;

// The number 0 to 6 of any bytes as a policy.
pub fn rx_policy(policy: &[u8]) -> u32
    ensures { result ≡ policy_number policy.now }
{
    policy::check::policy_number(policy)
}

// The number 0 to 7 of asking for the meaning of a role, and in `bits` the meaning, 0 at any refusal.
pub fn rx_meaning(policy: &[u8], role: u32, bits: &mut u32) -> u32
    ensures { answer result bits.new ≡ meaning_of policy.now role }
{
    match meaning::least::meaning_of(policy, role) {
        Ok(meaning) => {
            *bits = meaning;
            number::ACCEPTED
        }
        Err(refusal) => {
            *bits = 0;
            u32::from(refusal)
        }
    }
}

// The number of a program under a policy: 1 to 6 of the policy, else 10 to 18 of the program, else 0.
#[tactic(auto, using(crate::proofs::Laws::answers))]
pub fn rx_program(policy: &[u8], program: &[u8]) -> u32
    ensures { result ≡ number_of (program_verdict policy.now program.now) }
{
    match verdict::verdict::program_verdict(policy, program) {
        Ok(()) => number::ACCEPTED,
        Err(refused) => refused.number(),
    }
}

// The same number, and in `place` where it shows, 0 for 0 and for the policy's numbers.
#[tactic(auto, using(crate::proofs::Laws::answers))]
pub fn rx_place(policy: &[u8], program: &[u8], place: &mut usize) -> u32
    ensures { located result place.new ≡ place_answer policy.now program.now }
{
    match verdict::verdict::program_verdict(policy, program) {
        Ok(()) => {
            *place = 0;
            number::ACCEPTED
        }
        Err(refused) => {
            *place = refused.place();
            refused.number()
        }
    }
}

// The same number, and where the body of transaction k starts in the program and how long it is; 0 and 0 where there is
// none or a file is refused.
#[tactic(auto, using(crate::proofs::Laws::answers))]
pub fn rx_transaction(
    policy: &[u8],
    program: &[u8],
    k: u32,
    start: &mut usize,
    length: &mut usize,
) -> u32
    ensures { body result start.new length.new ≡ transaction_answer policy.now program.now k }
{
    match verdict::verdict::program_verdict(policy, program) {
        Ok(()) => {
            let span = transactions::span::body_span(policy, program, k as usize);
            *start = span.start;
            *length = span.size;
            number::ACCEPTED
        }
        Err(refused) => {
            *start = 0;
            *length = 0;
            refused.number()
        }
    }
}

// The body of transaction k as a part of the program's own bytes, empty where there is none or a file is refused.
pub fn transaction_body<'a>(policy: &[u8], program: &'a [u8], k: usize) -> &'a [u8]
    ensures { result.now ≡ part_bytes program.now (transaction_part policy.now program.now k) }
{
    let Ok(()) = verdict::verdict::program_verdict(policy, program) else {
        return transactions::span::part_of(program, 0, 0);
    };
    let span = transactions::span::body_span(policy, program, k);
    transactions::span::part_of(program, span.start, span.size)
}

// A run: the number 0, 1 to 6, 10 to 18, 20, 21 or 22, and in `units` the units. Policy and memory are written by 0 alone.
pub fn rx_run(
    policy: &mut [u8],
    program: &[u8],
    memory: &mut [u8],
    fuel: u32,
    units: &mut u32,
) -> u32
    ensures { ended result units.new policy.new memory.new ≡ run_answer policy.old program.now memory.old fuel }
{
    let answer = run::run::run(policy, program, memory, fuel);
    *units = answer.units;
    answer.number
}

// What two runs of one program give.
#[derive(Clone, Copy)]
pub struct Answers {
    pub first: Answer,
    pub second: Answer,
}

// Two runs of one program, each with its own policy, memory and fuel. Demand 3 is what this function ensures: `Claim` says of
// the buffers at entry and at exit and of the two answers that nothing hidden from a group of principals shows in the other
// run's end.
pub fn two_runs(
    program: &[u8],
    policy1: &mut [u8],
    memory1: &mut [u8],
    fuel1: u32,
    policy2: &mut [u8],
    memory2: &mut [u8],
    fuel2: u32,
) -> Answers
    ensures { Claim program.now policy1.old policy2.old memory1.old memory2.old fuel1 fuel2 (ended result.first.number result.first.units policy1.new memory1.new) (ended result.second.number result.second.units policy2.new memory2.new) }
{
    let first = run::run::run(policy1, program, memory1, fuel1);
    let second = run::run::run(policy2, program, memory2, fuel2);
    Answers { first, second }
}
