// The flow rules of an assignment and of an update, which have no statement in them, over the bytes of a program that was read:
// 15 to 18 where one stands, lowest number first. Contracts speak of the tree that stands at a position; where none stands, any
// answer is right.
ghost use Rattle.std.specs.Prelude.{◌≡◌};
ghost use Rattle.model.specs.Policy.{Accepted};
ghost use Rattle.context.specs.declared.around.Around.TheVariants.{Inside};
ghost use Rattle.context.specs.Context.{carried};
ghost use Rattle.rules.specs.Check.{numbered_answer, JoinedAt, AssignAt, UpdateAt};

use context::around::{Around, Context, Transaction};
use context::files::Files;
use context::{judge, lists};
use gathered::{labels, positions};
use order::table::Table;
use program::refused::Refused;
use shared::{bytes, limit, number};

// The answer of a number at a place, on a statement that ends at a position.
#[tactic(auto, unfolding(crate::specs::Check::numbered_answer))]
fn numbered(number: u32, at: usize, next: usize) -> Result<usize, Refused>
    ensures { result ≡ numbered_answer number at next }
{
    if number == number::ACCEPTED {
        return Ok(next);
    }
    Err(Refused::new(number, at))
}

// Joins the labels of the expression at `at` to the context, and returns where it ends.
pub fn join_labels(program: &&[u8], at: usize, context: &mut Context) -> usize
    ensures { JoinedAt program.now.now at context.old context.new result }
{
    labels::expr_labels(program, limit::EXPRESSION_DEPTH, at, &mut context.labels)
}

// Context and expression label are at most the variable's label.
#[tactic(auto, using(crate::proofs::SimpleLaws::assign_checked))]
pub fn check_assign(
    program: &&[u8],
    table: &Table,
    context: &Context,
    at: usize,
) -> Result<usize, Refused>
    ensures { AssignAt program.now.now table.now context.now at result }
{
    let target = bytes::byte_at(*program, positions::ahead(*program, at, 1));
    let mut joined = *context;
    let next = join_labels(program, positions::ahead(*program, at, 2), &mut joined);
    let number = judge::assign_number(*program, table, &joined, target);
    numbered(number, at, next)
}

// An update in a transaction adds only what the policy file allows. The context joined with the labels of all listed queries
// is at most all that the transaction writes.
#[tactic(auto, using(crate::proofs::SimpleLaws::updates))]
fn check_granted(
    files: &Files,
    transaction: &Transaction,
    context: &Context,
    at: usize,
) -> Result<usize, Refused>
    requires { Accepted files.now.policy.now }
    ensures { UpdateAt files.now.policy.now files.now.program.now (carried (Inside transaction.now) context.now) at result }
{
    let count = bytes::byte_at(files.program, positions::ahead(files.program, at, 1));
    if lists::all_allowed(
        files.policy,
        files.program,
        count,
        positions::ahead(files.program, at, 2),
    ) {
        let asked = transaction.named | context.asked;
        let joined = Context { asked, ..*context };
        let number = judge::held_number(&joined, &transaction.meets);
        return numbered(
            number,
            at,
            positions::after_list(files.program, at, positions::MUTATION_BYTES),
        );
    }
    Err(Refused::new(number::FLOW_GRANT, at))
}

// Only in a transaction.
#[tactic(auto, using(crate::proofs::SimpleLaws::updates))]
pub fn check_update(
    files: &Files,
    around: &Around,
    context: &Context,
    at: usize,
) -> Result<usize, Refused>
    requires { Accepted files.now.policy.now }
    ensures { UpdateAt files.now.policy.now files.now.program.now (carried around.now context.now) at result }
{
    match around {
        Around::Inside(transaction) => check_granted(files, transaction, context, at),
        Around::Outside(_) => Err(Refused::new(number::FLOW_TRANSACTION, at)),
    }
}
