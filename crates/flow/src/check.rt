// The flow rules over the bytes of a program that was read: 15 to 18 at the first statement in reading order, lowest number
// first. Statement check and transaction check call each other, the remaining depth falling; what is around forbids nesting.
// Contracts speak of the tree that stands at a position; where none stands, any answer is right.
ghost use Rattle.std.specs.Prelude.{◌<◌};
ghost use Rattle.model.specs.Policy.{Accepted};
ghost use Rattle.program.specs.declared.codes.Statement.TheVariants.{Block, If, While, Query, Transaction};
ghost use Rattle.context.specs.Context.{carried};
ghost use Rattle.rules.specs.Check.{CheckedAt};
ghost use Rattle.flow.specs.Check.{CodedAt, PairAt, BothAt, LearntAt, BranchesOf};

use context::around::{Around, Context};
use context::files::Files;
use context::{judge, lists};
use gathered::positions;
use order::table::Table;
use policy::rows;
use program::codes::Statement;
use program::refused::Refused;
use program::skips;
use rules::{enter, simple};
use shared::{bytes, number};

// Where no statement stands any answer is right.
#[cycle(checking)]
#[tactic(auto, using(crate::proofs::CheckLaws::statements))]
pub fn check_stmt(
    files: &Files,
    table: &Table,
    around: &Around,
    context: &Context,
    depth: u8,
    at: usize,
) -> Result<usize, Refused>
    requires { Accepted files.now.policy.now }
    ensures { CheckedAt files.now.policy.now files.now.program.now table.now (carried around.now context.now) depth at result }
{
    if depth == 0 {
        return Err(Refused::new(number::PROGRAM_DEPTH, at));
    }
    let Ok(code) = positions::statement_at(files.program, at) else {
        return Err(Refused::new(number::PROGRAM_CODE, at));
    };
    match code {
        Statement::Skip => Ok(positions::ahead(files.program, at, 1)),
        Statement::Assign => simple::check_assign(&files.program, table, context, at),
        Statement::Block => check_block(files, table, around, context, depth, at),
        Statement::If => check_if(files, table, around, context, depth, at),
        Statement::While => check_while(files, table, around, context, depth, at),
        Statement::Query => check_query(files, table, around, context, depth, at),
        Statement::Update => simple::check_update(files, around, context, at),
        Statement::Transaction => check_transaction(files, table, around, context, depth, at),
    }
}

// A statement of a block. Assignments and updates come in rows; they are checked here, since the call that finds out which kind
// a statement is costs as much as a small one.
#[cycle(checking)]
#[tactic(auto, using(crate::proofs::CheckLaws::statements))]
fn check_part(
    files: &Files,
    table: &Table,
    around: &Around,
    context: &Context,
    depth: u8,
    at: usize,
) -> Result<usize, Refused>
    requires { Accepted files.now.policy.now }
    ensures { CheckedAt files.now.policy.now files.now.program.now table.now (carried around.now context.now) depth at result }
{
    let Ok(code) = positions::statement_at(files.program, at) else {
        return Err(Refused::new(number::PROGRAM_CODE, at));
    };
    match code {
        Statement::Assign => simple::check_assign(&files.program, table, context, at),
        Statement::Update => simple::check_update(files, around, context, at),
        _ => check_stmt(files, table, around, context, depth, at),
    }
}

// A skip is passed over here, since a call would cost more than all else of it, and with it those behind it: so the loop goes
// on by as many statements as stand in such a row, and counts down what is left.
#[cycle(checking)]
#[tactic(auto, using(crate::proofs::CheckLaws::blocks))]
fn check_block(
    files: &Files,
    table: &Table,
    around: &Around,
    context: &Context,
    depth: u8,
    at: usize,
) -> Result<usize, Refused>
    requires { (Accepted files.now.policy.now) × (0 < depth) }
    ensures { CodedAt Block files.now.policy.now files.now.program.now table.now (carried around.now context.now) depth at result }
{
    let inner = depth - 1;
    let mut left = bytes::byte_at(files.program, positions::ahead(files.program, at, 1));
    let mut next = positions::ahead(files.program, at, 2);
    while 0 < left {
        if positions::is_skip(files.program, next) {
            let rest = positions::ahead(files.program, next, 1);
            left -= 1;
            let more = skips::in_eights(files.program, rest, left);
            next = skips::after(files.program, rest, more);
            left -= more;
        } else {
            next = check_part(files, table, around, context, inner, next)?;
            left -= 1;
        }
    }
    Ok(next)
}

// A branch of an if or a query. It is often a skip, which is passed over here as in a block. This and the pair go into their
// callers: with calls of their own a nest of ifs takes 1.15 times as long.
#[cycle(checking)]
#[tactic(auto, using(crate::proofs::CheckLaws::branch_skip))]
#[inline(always)]
fn check_branch(
    files: &Files,
    table: &Table,
    around: &Around,
    context: &Context,
    depth: u8,
    at: usize,
) -> Result<usize, Refused>
    requires { Accepted files.now.policy.now }
    ensures { CheckedAt files.now.policy.now files.now.program.now table.now (carried around.now context.now) depth at result }
{
    if positions::is_skip(files.program, at) {
        return Ok(positions::ahead(files.program, at, 1));
    }
    check_stmt(files, table, around, context, depth, at)
}

// Two statements, one after the other.
#[cycle(checking)]
#[tactic(auto, using(crate::proofs::CheckLaws::pairs))]
#[inline(always)]
fn check_pair(
    files: &Files,
    table: &Table,
    around: &Around,
    context: &Context,
    depth: u8,
    at: usize,
) -> Result<usize, Refused>
    requires { Accepted files.now.policy.now }
    ensures { PairAt files.now.policy.now files.now.program.now table.now (carried around.now context.now) depth at result }
{
    let mid = check_branch(files, table, around, context, depth, at)?;
    check_branch(files, table, around, context, depth, mid)
}

// The branches are checked with the expression's label joined to the context.
#[cycle(checking)]
#[tactic(auto, using(crate::proofs::CheckLaws::if_checked))]
fn check_if(
    files: &Files,
    table: &Table,
    around: &Around,
    context: &Context,
    depth: u8,
    at: usize,
) -> Result<usize, Refused>
    requires { (Accepted files.now.policy.now) × (0 < depth) }
    ensures { CodedAt If files.now.policy.now files.now.program.now table.now (carried around.now context.now) depth at result }
{
    let test = positions::ahead(files.program, at, 1);
    let mut joined = *context;
    let next = simple::join_labels(&files.program, test, &mut joined);
    check_pair(files, table, around, &joined, depth - 1, next)
}

// So is the body.
#[cycle(checking)]
#[tactic(auto, using(crate::proofs::CheckLaws::while_checked))]
fn check_while(
    files: &Files,
    table: &Table,
    around: &Around,
    context: &Context,
    depth: u8,
    at: usize,
) -> Result<usize, Refused>
    requires { (Accepted files.now.policy.now) × (0 < depth) }
    ensures { CodedAt While files.now.policy.now files.now.program.now table.now (carried around.now context.now) depth at result }
{
    let test = positions::ahead(files.program, at, 1);
    let mut joined = *context;
    let next = simple::join_labels(&files.program, test, &mut joined);
    check_stmt(files, table, around, &joined, depth - 1, next)
}

// Only in a transaction whose list holds it. In a free transaction every test passes already, so nothing need be learnt. A query
// that the table knows already needs no table of its own: so however deep queries nest, no more tables are held at once than a
// transaction lists queries.
#[cycle(checking)]
#[tactic(auto, using(crate::proofs::CheckLaws::queries))]
fn check_query(
    files: &Files,
    table: &Table,
    around: &Around,
    context: &Context,
    depth: u8,
    at: usize,
) -> Result<usize, Refused>
    requires { (Accepted files.now.policy.now) × (0 < depth) }
    ensures { CodedAt Query files.now.policy.now files.now.program.now table.now (carried around.now context.now) depth at result }
{
    let Around::Inside(transaction) = around else {
        return Err(Refused::new(number::FLOW_TRANSACTION, at));
    };
    let inner = depth - 1;
    let query = positions::ahead(files.program, at, 1);
    if lists::is_listed(files.program, transaction.count, transaction.list, query) {
        let asked = lists::query_roles(files.program, query) | context.asked;
        let joined = Context { asked, ..*context };
        let start = positions::ahead(files.program, at, 3);
        if transaction.free {
            return check_pair(files, table, around, &joined, inner, start);
        }
        if lists::is_known(files.program, table, query) {
            return check_branches(files, table, table, around, around, &joined, inner, start);
        }
        return check_learnt(files, table, around, &joined, inner, start, query);
    }
    Err(Refused::new(number::FLOW_TRANSACTION, at))
}

// The branches of the query that stands at `query`, which the table does not know: the first has a table that does.
#[cycle(checking)]
#[tactic(auto, using(crate::proofs::CheckLaws::learns))]
fn check_learnt(
    files: &Files,
    table: &Table,
    around: &Around,
    context: &Context,
    depth: u8,
    at: usize,
    query: usize,
) -> Result<usize, Refused>
    requires { Accepted files.now.policy.now }
    ensures { BranchesOf files.now.policy.now files.now.program.now table.now (carried around.now context.now) depth at query result }
{
    let Ok(known) = lists::query_at(files.program, query) else {
        return Err(Refused::new(number::PROGRAM_CODE, query));
    };
    let mut learnt = *table;
    order::learn::learn(
        &mut learnt,
        rows::roles_of(files.policy),
        known.first,
        known.second,
    );
    check_held(files, &learnt, table, around, context, depth, at)
}

// The same with that table: an update in the first branch is held to what it gives.
#[cycle(checking)]
#[tactic(auto, using(crate::proofs::CheckLaws::held_both))]
fn check_held(
    files: &Files,
    learnt: &Table,
    table: &Table,
    around: &Around,
    context: &Context,
    depth: u8,
    at: usize,
) -> Result<usize, Refused>
    requires { Accepted files.now.policy.now }
    ensures { LearntAt files.now.policy.now files.now.program.now learnt.now table.now (carried around.now context.now) depth at result }
{
    let known = judge::held(files.program, learnt, around);
    check_branches(files, learnt, table, &known, around, context, depth, at)
}

// The first branch also knows the query, by the table `learnt` and what `known` is held to; the second does not.
#[cycle(checking)]
#[tactic(auto, using(crate::proofs::CheckLaws::branches))]
fn check_branches(
    files: &Files,
    learnt: &Table,
    table: &Table,
    known: &Around,
    around: &Around,
    context: &Context,
    depth: u8,
    at: usize,
) -> Result<usize, Refused>
    requires { Accepted files.now.policy.now }
    ensures { BothAt files.now.policy.now files.now.program.now learnt.now table.now (carried known.now context.now) (carried around.now context.now) depth at result }
{
    let other = check_branch(files, learnt, known, context, depth, at)?;
    check_branch(files, table, around, context, depth, other)
}

// A transaction holds no transaction.
#[cycle(checking)]
#[tactic(auto, using(crate::proofs::CheckLaws::transaction_nested, crate::proofs::CheckLaws::transaction_body))]
fn check_transaction(
    files: &Files,
    table: &Table,
    around: &Around,
    context: &Context,
    depth: u8,
    at: usize,
) -> Result<usize, Refused>
    requires { (Accepted files.now.policy.now) × (0 < depth) }
    ensures { CodedAt Transaction files.now.policy.now files.now.program.now table.now (carried around.now context.now) depth at result }
{
    let Around::Outside(all) = around else {
        return Err(Refused::new(number::FLOW_TRANSACTION, at));
    };
    let inner = depth - 1;
    let body = positions::after_list(files.program, at, positions::QUERY_BYTES);
    let mut inside = *around;
    enter::enter(files.program, table, all, context, inner, at, &mut inside);
    check_stmt(files, table, &inside, context, inner, body)
}
