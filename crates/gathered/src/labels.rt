// The labels of an expression, for both sides at once: the roles among its variables' labels are added to those gathered before.
// Everyone adds nothing.
ghost use Rattle.std.specs.Prelude.{◌≡◌};
ghost use Rattle.shared.specs.Words.{single};
ghost use Rattle.gathered.specs.Labels.{variable_added, AllAdded, LabelsAt};

use super::positions;
use program::codes::{Atom, Expression};
use program::layout;
use shared::side::Side;
use shared::{bytes, sets};

// The roles among labels, as sets: who may read, and who trusts.
#[derive(Clone, Copy)]
pub struct Labels {
    pub readers: u64,
    pub trusters: u64,
}

// A label's role as a set; everyone adds nothing, and no other atom is a label.
#[tactic(auto, using(crate::proofs::LabelLaws::label_roles))]
fn label_role(label: u8) -> u64
    ensures { result ≡ single label }
{
    match Atom::try_from(label) {
        Ok(Atom::Role(j)) => sets::single(u64::from(j)),
        _ => 0,
    }
}

// Adds the labels of variable x.
#[tactic(auto, using(crate::proofs::LabelLaws::variable_words))]
fn add_variable(program: &[u8], x: u8, labels: &mut Labels)
    ensures { labels.new ≡ variable_added program.now x labels.old }
{
    labels.readers |= label_role(layout::label_of(program, Side::Reading, x));
    labels.trusters |= label_role(layout::label_of(program, Side::Trust, x));
}

// Adds the labels of all variables.
#[tactic(auto, using(crate::proofs::LabelLaws::alls))]
pub fn all_labels(program: &[u8], variables: u8, labels: &mut Labels)
    ensures { AllAdded program.now variables labels.old labels.new }
{
    for x in 0..variables {
        add_variable(program, x, labels);
    }
}

// An expression's label joins its variables' labels; constants add nothing. Where no expression stands any answer is right.
#[tactic(auto, using(crate::proofs::LabelLaws::labels))]
pub fn expr_labels(program: &&[u8], depth: u8, at: usize, labels: &mut Labels) -> usize
    ensures { LabelsAt program.now.now depth at labels.old labels.new result }
{
    if depth == 0 {
        return at;
    }
    let Ok(code) = positions::expression_at(*program, at) else {
        return at;
    };
    let next = positions::ahead(*program, at, 1);
    match code {
        Expression::Constant => positions::ahead(*program, at, 5),
        Expression::Variable => {
            add_variable(*program, bytes::byte_at(*program, next), labels);
            positions::ahead(*program, at, 2)
        }
        Expression::Binary(_) => {
            let mid = expr_labels(program, depth - 1, next, labels);
            expr_labels(program, depth - 1, mid, labels)
        }
    }
}
