// What surrounds a statement on the check's way: the transaction around it, and its context. Both are lent by reference: a
// struct by value would be copied at each call, and the callee would wait for the copy (a nest of ifs then takes twice as long).
ghost use Rattle.std.specs.Prelude.{◌≡◌};
ghost use Rattle.shared.specs.Sides.{model_side};
ghost use Rattle.context.specs.Context.{join_of};

use gathered::labels::Labels;
use shared::side::Side;

// A join of labels on one side: the roles in it, and the roles whose viewers (on the trust side, trusters) are in it.
// Everyone adds nothing to a join.
#[derive(Clone, Copy)]
pub struct Join {
    pub roles: u64,
    pub watchers: u64,
}

// What every update of a transaction is held to: on each side, all that is at most each of the atoms that its writes are held
// to. It changes only with the transaction and the table.
#[derive(Clone, Copy)]
pub struct Meets {
    pub reading: Join,
    pub trust: Join,
}

// A transaction: where the queries that it lists stand, how many they are, and the roles that they name; all the variables and
// roles that it writes, and what that holds its updates to. It is free where an update would be accepted in the context of all
// that may ever flow in it: every test in it then passes, whatever is learnt.
#[derive(Clone, Copy)]
pub struct Transaction {
    pub list: usize,
    pub count: u64,
    pub named: u64,
    pub variables: u64,
    pub roles: u64,
    pub meets: Meets,
    pub free: bool,
}

// The transaction around a statement; or none, with the roles among the labels of all variables.
#[derive(Clone, Copy)]
pub enum Around {
    Outside(Labels),
    Inside(Transaction),
}

// The context of each side is a join of labels: on the reading side of the roles in `readers`, on the trust side of those in
// `trusters`, and on both of the viewers or trusters of the roles in `asked`, which only queries bring in.
#[derive(Clone, Copy)]
pub struct Context {
    pub labels: Labels,
    pub asked: u64,
}

impl Context {
    // The join on a side.
    pub fn join(&self, side: Side) -> Join
        ensures { result ≡ join_of (model_side side) self.now }
    {
        let roles = match side {
            Side::Reading => self.labels.readers,
            Side::Trust => self.labels.trusters,
        };
        Join {
            roles,
            watchers: self.asked,
        }
    }
}
