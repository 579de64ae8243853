#![tactic(auto)]
// The exports for C and Rust, declared in include/rx.h: each is the call of the crate rx of the same name, and promises the
// same. Nothing checks a caller from C, so no export requires anything.
ghost use Rattle.std.specs.Prelude.{◌≡◌};
ghost use Rattle.model.specs.Number.{number_of};
ghost use Rattle.model.specs.Policy.{policy_number};
ghost use Rattle.model.specs.Meaning.{answer, meaning_of};
ghost use Rattle.model.specs.Flow.{program_verdict};
ghost use Rattle.model.specs.Calls.{located, place_answer, body, transaction_answer, ended, run_answer};

// The number 0 to 6 of any bytes as a policy.
#[unsafe(no_mangle)]
pub extern "C" fn rx_policy(policy: &[u8]) -> u32
    ensures { result ≡ policy_number policy.now }
{
    rx::rx_policy(policy)
}

// The number 0 to 7 of asking for the meaning of a role, and in `bits` the meaning, 0 at any refusal.
#[unsafe(no_mangle)]
pub extern "C" fn rx_meaning(policy: &[u8], role: u32, bits: &mut u32) -> u32
    ensures { answer result bits.new ≡ meaning_of policy.now role }
{
    rx::rx_meaning(policy, role, bits)
}

// The number of a program under a policy: 1 to 6 of the policy, else 10 to 18 of the program, else 0.
#[unsafe(no_mangle)]
pub extern "C" fn rx_program(policy: &[u8], program: &[u8]) -> u32
    ensures { result ≡ number_of (program_verdict policy.now program.now) }
{
    rx::rx_program(policy, program)
}

// The same number, and in `place` where it shows, 0 for 0 and for the policy's numbers.
#[unsafe(no_mangle)]
pub extern "C" fn rx_place(policy: &[u8], program: &[u8], place: &mut usize) -> u32
    ensures { located result place.new ≡ place_answer policy.now program.now }
{
    rx::rx_place(policy, program, place)
}

// The same number, and where the body of transaction k starts in the program and how long it is; 0 and 0 where there is
// none or a file is refused.
#[unsafe(no_mangle)]
pub extern "C" fn rx_transaction(
    policy: &[u8],
    program: &[u8],
    k: u32,
    start: &mut usize,
    length: &mut usize,
) -> u32
    ensures { body result start.new length.new ≡ transaction_answer policy.now program.now k }
{
    rx::rx_transaction(policy, program, k, start, length)
}

// A run: the number 0, 1 to 6, 10 to 18, 20, 21 or 22, and in `units` the units. Policy and memory are written by 0 alone.
#[unsafe(no_mangle)]
pub extern "C" fn rx_run(
    policy: &mut [u8],
    program: &[u8],
    memory: &mut [u8],
    fuel: u32,
    units: &mut u32,
) -> u32
    ensures { ended result units.new policy.new memory.new ≡ run_answer policy.old program.now memory.old fuel }
{
    rx::rx_run(policy, program, memory, fuel, units)
}
