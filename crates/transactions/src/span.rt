// Where the body of a transaction stands in the bytes of an accepted program, and the bytes of such a part.
ghost use Rattle.std.specs.Prelude.{◌≡◌, ◌+◌, ◌≤◌, length};
ghost use Rattle.model.specs.Number.{fine};
ghost use Rattle.model.specs.Flow.{part, program_verdict, transaction_part};
ghost use Rattle.model.specs.Calls.{part_bytes};

use super::bodies;
use program::layout;
use shared::limit;
use std::ops::ControlFlow;

// Both are 0 where there is no such transaction.
#[derive(Clone, Copy)]
pub struct Span {
    pub start: usize,
    pub size: usize,
}

// The body of transaction k, counted from 0. The search starts after the labels.
#[tactic(auto, using(crate::proofs::SpanLaws::spans))]
pub fn body_span(policy: &[u8], program: &[u8], k: usize) -> Span
    requires { program_verdict policy.now program.now ≡ fine }
    ensures is { part result.start result.size ≡ transaction_part policy.now program.now k }
    ensures inside { result.start + result.size ≤ length program.now }
{
    let start = layout::body_at(layout::variables_of(program));
    match bodies::find_body(&program, limit::STATEMENT_DEPTH, start, k) {
        ControlFlow::Break(body) => body,
        ControlFlow::Continue(_) => Span { start: 0, size: 0 },
    }
}

// The bytes of a part.
#[tactic(auto, using(crate::proofs::SpanLaws::parts))]
pub fn part_of<'a>(program: &'a [u8], start: usize, size: usize) -> &'a [u8]
    requires { start + size ≤ length program.now }
    ensures { result.now ≡ part_bytes program.now (part start size) }
{
    let end = start + size;
    &program[start..end]
}
