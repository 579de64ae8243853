// Entering a transaction: what surrounds the statements in it.
ghost use Rattle.rules.specs.Check.{Enters};

use context::around::{Around, Context, Transaction};
use context::{judge, lists};
use gathered::labels::Labels;
use gathered::writes::Writes;
use gathered::{positions, writes};
use order::table::Table;
use shared::{bytes, number};

// The transaction whose code stands at `at`, its updates held to what they are by the table. All that may flow in it are the
// labels of all variables, the context around it and the labels of its listed queries. It is written where it stays: in a copy
// of words just written the processor would wait for them.
#[tactic(auto, using(crate::proofs::EnterLaws::enters))]
pub fn enter(
    program: &[u8],
    table: &Table,
    all: &Labels,
    context: &Context,
    depth: u8,
    at: usize,
    inside: &mut Around,
)
    ensures { Enters program.now table.now all.now context.now depth at inside.new }
{
    let count = bytes::byte_at(program, positions::ahead(program, at, 1));
    let list = positions::ahead(program, at, 2);
    let body = positions::after_list(program, at, positions::QUERY_BYTES);
    let mut written = Writes {
        variables: 0,
        roles: 0,
    };
    let _ = writes::stmt_writes(&program, depth, body, &mut written);
    let named = lists::list_roles(program, count, list);
    let meets = judge::meets_of(program, table, written.variables, written.roles);
    let flows = Context {
        labels: Labels {
            readers: all.readers | context.labels.readers,
            trusters: all.trusters | context.labels.trusters,
        },
        asked: named | context.asked,
    };
    let number = judge::held_number(&flows, &meets);
    *inside = Around::Inside(Transaction {
        list,
        count: u64::from(count),
        named,
        variables: written.variables,
        roles: written.roles,
        meets,
        free: number == number::ACCEPTED,
    });
}
