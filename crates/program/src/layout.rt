// Where things stand in a program file: the mark, the version, V, then V pairs of label bytes, then the body. No other
// module knows these positions. Each function takes any program and any number; past the end stands 0.
ghost use Rattle.std.specs.Prelude.{◌≡◌};
ghost use Rattle.model.specs.Program.{version, variables, label_at, label_byte, body_at};
ghost use Rattle.shared.specs.Sides.{model_side};

use shared::bytes;
use shared::side::Side;

const VERSION: usize = 3;

const VARIABLES: usize = 5;

const LABELS: usize = 6;

// A program's version, by the low byte of its 16 bits: 2 or else 1. That the bits say nothing else, reading the head sees to.
#[tactic(auto, using(crate::proofs::LayoutLaws::versions))]
pub fn version_of(program: &[u8]) -> u8
    ensures { result ≡ version program.now }
{
    if bytes::byte_at(program, VERSION) == 2 {
        return 2;
    }
    1
}

// How many variables a program has.
pub fn variables_of(program: &[u8]) -> u8
    ensures { result ≡ variables program.now }
{
    bytes::byte_at(program, VARIABLES)
}

// Where the pair of labels of variable x stands: who may read, then who trusts.
fn label_at(side: Side, x: u8) -> usize
    ensures { result ≡ label_at (model_side side) x }
{
    let pair = LABELS + 2 * usize::from(x);
    match side {
        Side::Reading => pair,
        Side::Trust => pair + 1,
    }
}

// The label of variable x on a side, as its byte.
pub fn label_of(program: &[u8], side: Side, x: u8) -> u8
    ensures { result ≡ label_byte program.now (model_side side) x }
{
    bytes::byte_at(program, label_at(side, x))
}

// Where the body of a program with so many variables starts.
pub fn body_at(vars: u8) -> usize
    ensures { result ≡ body_at vars }
{
    LABELS + 2 * usize::from(vars)
}
