// Positions in the bytes of a program: the byte that stands at one, what it is the code of, and the position after an
// expression or a list. Each function takes every position; one past the end is the end, and the byte there is 0.
ghost use Rattle.std.specs.Prelude.{◌≡◌, ◌≤◌, eqb};
ghost use Rattle.model.specs.Bytes.{byte};
ghost use Rattle.program.specs.Codes.{statement_of, expression_of, atom_of};
ghost use Rattle.gathered.specs.Positions.{ahead, after_list, ExprEnds};

use program::codes::{Atom, Expression, Statement, UnknownCode};
use shared::bytes;

pub const QUERY_BYTES: usize = 2;

pub const MUTATION_BYTES: usize = 3;

// The code of the statement that stands at a position.
// Kept beside expression_at and atom_at: one generic function would be no plainer, since each of the three is one line, and with
// it every caller would name the type that it reads.
pub fn statement_at(program: &[u8], at: usize) -> Result<Statement, UnknownCode>
    ensures { result ≡ statement_of (byte program.now at) }
{
    Statement::try_from(bytes::byte_at(program, at))
}

// Whether a skip would stand at a position.
pub fn is_skip(program: &[u8], at: usize) -> bool
    ensures { result ≡ eqb (byte program.now at) 0 }
{
    statement_at(program, at) == Ok(Statement::Skip)
}

// The code of the expression that stands at a position.
pub fn expression_at(program: &[u8], at: usize) -> Result<Expression, UnknownCode>
    ensures { result ≡ expression_of (byte program.now at) }
{
    Expression::try_from(bytes::byte_at(program, at))
}

// The atom that stands at a position.
pub fn atom_at(program: &[u8], at: usize) -> Result<Atom, UnknownCode>
    ensures { result ≡ atom_of (byte program.now at) }
{
    Atom::try_from(bytes::byte_at(program, at))
}

// The position n bytes on, or the end.
#[tactic(auto, using(crate::proofs::PositionLaws::aheads))]
pub fn ahead(program: &[u8], at: usize, n: usize) -> usize
    ensures { result ≡ ahead program.now at n }
{
    at.saturating_add(n).min(program.len())
}

// The position after the list of the update or transaction whose code stands at `at`.
#[tactic(auto, using(crate::proofs::PositionLaws::lists))]
pub fn after_list(program: &[u8], at: usize, size: usize) -> usize
    requires { size ≤ 3 }
    ensures { result ≡ after_list program.now at size }
{
    let n = usize::from(bytes::byte_at(program, ahead(program, at, 1)));
    ahead(program, at, 2 + size * n)
}

// The position after an expression. Where none stands any position is right.
#[tactic(auto, using(crate::proofs::PositionLaws::ends))]
pub fn after_expr(program: &&[u8], depth: u8, at: usize) -> usize
    ensures { ExprEnds program.now.now depth at result }
{
    if depth == 0 {
        return at;
    }
    let Ok(code) = expression_at(*program, at) else {
        return at;
    };
    match code {
        Expression::Constant => ahead(*program, at, 5),
        Expression::Variable => ahead(*program, at, 2),
        Expression::Binary(_) => {
            let mid = after_expr(program, depth - 1, ahead(*program, at, 1));
            after_expr(program, depth - 1, mid)
        }
    }
}
