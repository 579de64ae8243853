// Reading what statements and expressions are made of: a byte below a bound, an atom, a label, a query, a mutation.
ghost use Rattle.std.specs.Prelude.{◌≡◌, ◌+◌, ◌<◌, ◌≤◌, length};
ghost use Rattle.model.specs.Limits.{role_limit};
ghost use Rattle.model.specs.Program.{read_below, read_atom, read_label, read_query, read_mutation};
ghost use Rattle.program.specs.Answer.{place_limit, end_of};
ghost use Rattle.program.specs.Entries.{FindsMutation};
ghost use Rattle.program.specs.Refused.{Answers};

use super::codes::{Atom, Kind};
use super::reader::Reader;
use super::refused::Refused;
use shared::number;

impl<'a> Reader<'a> {
    // A byte below a bound.
    #[tactic(auto, using(crate::proofs::AtomLaws::belows))]
    pub fn read_below(&self, bound: u8, at: usize) -> Result<usize, Refused>
        requires { at < place_limit }
        ensures { Answers result (end_of (read_below self.now.program.now bound at)) }
    {
        if self.program.len() <= at {
            return Err(Refused::new(number::PROGRAM_LENGTH, self.program.len()));
        }
        if self.program[at] < bound {
            return Ok(at + 1);
        }
        Err(Refused::new(number::PROGRAM_RANGE, at))
    }

    // An atom: C0–FE is 12, a role that there is not 13.
    #[tactic(auto, using(crate::proofs::AtomLaws::atoms))]
    pub fn read_atom(&self, at: usize) -> Result<usize, Refused>
        requires { at < place_limit }
        ensures { Answers result (end_of (read_atom self.now.program.now self.now.roles at)) }
    {
        if self.program.len() <= at {
            return Err(Refused::new(number::PROGRAM_LENGTH, self.program.len()));
        }
        let Ok(atom) = Atom::try_from(self.program[at]) else {
            return Err(Refused::new(number::PROGRAM_CODE, at));
        };
        if atom.is_below(self.roles) {
            return Ok(at + 1);
        }
        Err(Refused::new(number::PROGRAM_RANGE, at))
    }

    // A variable's label is a role below R or everyone; all else is 13, a byte that is no atom too.
    #[tactic(auto, using(crate::proofs::AtomLaws::labels))]
    pub fn read_label(&self, at: usize) -> Result<usize, Refused>
        requires few { self.now.roles ≤ role_limit }
        requires low { at < place_limit }
        ensures { Answers result (end_of (read_label self.now.program.now self.now.roles at)) }
    {
        if self.program.len() <= at {
            return Err(Refused::new(number::PROGRAM_LENGTH, self.program.len()));
        }
        let Ok(label) = Atom::try_from(self.program[at]) else {
            return Err(Refused::new(number::PROGRAM_RANGE, at));
        };
        match label {
            Atom::Role(j) => {
                if j < self.roles {
                    return Ok(at + 1);
                }
                Err(Refused::new(number::PROGRAM_RANGE, at))
            }
            Atom::Viewers(_) => Err(Refused::new(number::PROGRAM_RANGE, at)),
            Atom::Trusters(_) => Err(Refused::new(number::PROGRAM_RANGE, at)),
            Atom::Everyone => Ok(at + 1),
        }
    }

    // A query is two atoms.
    #[tactic(auto, using(crate::proofs::AtomLaws::queries))]
    pub fn read_query(&self, at: usize) -> Result<usize, Refused>
        requires { at < place_limit }
        ensures { Answers result (end_of (read_query self.now.program.now self.now.roles at)) }
    {
        let first = self.read_atom(at)?;
        self.read_atom(first)
    }

    // A mutation is kind, role, operand, judged in that order.
    #[tactic(auto, using(crate::proofs::AtomLaws::mutations))]
    pub fn read_mutation(&self, at: usize) -> Result<usize, Refused>
        requires { at < place_limit }
        ensures { Answers result (end_of (read_mutation self.now.program.now self.now.principals self.now.roles at)) }
    {
        if self.program.len() <= at {
            return Err(Refused::new(number::PROGRAM_LENGTH, self.program.len()));
        }
        let Ok(kind) = Kind::try_from(self.program[at]) else {
            return Err(Refused::new(number::PROGRAM_CODE, at));
        };
        let role = self.read_below(self.roles, at + 1)?;
        self.read_below(kind.operand_bound(self.principals, self.roles), role)
    }
}

// Whether the three bytes at `at` are a mutation: kind, role, operand. Of a program of any length, so no method of `Reader`.
#[tactic(auto, using(crate::proofs::AtomLaws::founds))]
pub fn is_mutation(program: &[u8], principals: u8, roles: u8, at: usize) -> bool
    requires { at + 3 ≤ length program.now }
    ensures { FindsMutation program.now principals roles at result }
{
    if roles <= program[at + 1] {
        return false;
    }
    match Kind::try_from(program[at]) {
        Ok(kind) => program[at + 2] < kind.operand_bound(principals, roles),
        Err(_) => false,
    }
}
