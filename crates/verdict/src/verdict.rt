// The verdict of any bytes as a program under any bytes as a policy: the policy's number, then 10 to 14 at the first byte in
// reading order that shows one, then 15 to 18 at the first statement in reading order.
ghost use Rattle.std.specs.Prelude.{◌≡◌};
ghost use Rattle.model.specs.Policy.{Accepted, principals, roles};
ghost use Rattle.model.specs.Program.{read_program};
ghost use Rattle.model.specs.Flow.{body_verdict, program_verdict};
ghost use Rattle.verdict.specs.Verdict.{verdict_of, BodyVerdict};

use context::around::{Around, Context};
use context::files::Files;
use flow::check;
use gathered::labels;
use gathered::labels::Labels;
use order::table;
use order::table::Row;
use policy::rows;
use program::layout;
use program::refused::Refused;
use shared::{limit, number};

// The flow rules on a program that was read: no transaction around it, nothing known, empty contexts.
#[tactic(auto, using(crate::proofs::VerdictLaws::bodies))]
fn body_verdict(policy: &[u8], program: &[u8]) -> Result<(), Refused>
    requires { Accepted policy.now }
    ensures { BodyVerdict policy.now program.now result }
{
    let mut table = [Row::default(); table::TABLE_ROWS];
    order::base::base_table(policy, &mut table);
    let variables = layout::variables_of(program);
    let none = Labels {
        readers: 0,
        trusters: 0,
    };
    let mut all = none;
    labels::all_labels(program, variables, &mut all);
    let context = Context {
        labels: none,
        asked: 0,
    };
    let start = layout::body_at(variables);
    check::check_stmt(
        &Files { policy, program },
        &table,
        &Around::Outside(all),
        &context,
        limit::STATEMENT_DEPTH,
        start,
    )?;
    Ok(())
}

// The program is read, then checked.
#[tactic(auto, using(crate::proofs::VerdictLaws::reads))]
fn read_verdict(policy: &[u8], program: &[u8]) -> Result<(), Refused>
    requires { Accepted policy.now }
    ensures { verdict_of result ≡ body_verdict policy.now program.now (read_program program.now (principals policy.now) (roles policy.now)) }
{
    parser::file::read_program(program, rows::principals_of(policy), rows::roles_of(policy))?;
    body_verdict(policy, program)
}

// Nothing against the program; or document 01's number and the place in the program that shows it, 0 for the policy's.
#[tactic(auto, using(crate::proofs::VerdictLaws::policies))]
pub fn program_verdict(policy: &[u8], program: &[u8]) -> Result<(), Refused>
    ensures { verdict_of result ≡ program_verdict policy.now program.now }
{
    let number = policy::check::policy_number(policy);
    if number == number::ACCEPTED {
        return read_verdict(policy, program);
    }
    Err(Refused::new(number, 0))
}
