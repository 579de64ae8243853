// The lists of a program: so many labels, queries or mutations, one after the other.
ghost use Rattle.std.specs.Prelude.{◌≡◌, ◌<◌};
ghost use Rattle.model.specs.Program.{read_many, read_mutation};
ghost use Rattle.program.specs.Answer.{place_limit, end_of};
ghost use Rattle.program.specs.Entries.{Room, read_entry, FindsMutations};
ghost use Rattle.program.specs.Refused.{Answers};

use super::atoms;
use super::reader::Reader;
use super::refused::Refused;

pub const MUTATION_BYTES: usize = 3;

// What a list holds: the labels of variables, the queries of a transaction, the mutations of an update. Kept an enum: with a
// closure for the reader of one entry each caller would have to say, and prove, which reading of the model it is.
#[derive(Clone, Copy)]
pub enum Entry {
    Label,
    Query,
    Mutation,
}

impl<'a> Reader<'a> {
    // One entry.
    #[tactic(auto, using(crate::proofs::EntryLaws::entries))]
    fn read_entry(&self, entry: Entry, at: usize) -> Result<usize, Refused>
        requires room { Room entry self.now.roles }
        requires low { at < place_limit }
        ensures { Answers result (end_of (read_entry self.now.program.now self.now.principals self.now.roles entry at)) }
    {
        match entry {
            Entry::Label => self.read_label(at),
            Entry::Query => self.read_query(at),
            Entry::Mutation => self.read_mutation(at),
        }
    }

    // n entries.
    #[tactic(auto, using(crate::proofs::RefusedLaws::counts))]
    pub fn read_entries(&self, entry: Entry, n: u8, at: usize) -> Result<usize, Refused>
        requires room { Room entry self.now.roles }
        requires low { at < place_limit }
        ensures { Answers result (end_of (read_many (read_entry self.now.program.now self.now.principals self.now.roles entry) n at)) }
    {
        let mut next = at;
        for _ in 0..n {
            next = self.read_entry(entry, next)?;
        }
        Ok(next)
    }

    // Whether n mutations stand at `at` within the bytes, each as it must be.
    #[tactic(auto, using(crate::proofs::EntryLaws::findings))]
    fn are_mutations(&self, n: u8, at: usize) -> bool
        requires { at < place_limit }
        ensures { FindsMutations self.now.program.now self.now.principals self.now.roles n at result }
    {
        if self.program.len() < at + MUTATION_BYTES * usize::from(n) {
            return false;
        }
        for i in 0..n {
            let here = at + MUTATION_BYTES * usize::from(i);
            if !atoms::is_mutation(self.program, self.principals, self.roles, here) {
                return false;
            }
        }
        true
    }

    // n mutations. Most lists are as they must be, and finding that out takes half the time of reading entry by entry, since
    // whether they lie within the bytes is asked once. Any other is read entry by entry, for the first byte that shows a number.
    #[tactic(auto, using(crate::proofs::EntryLaws::mutations_found))]
    pub fn read_mutations(&self, n: u8, at: usize) -> Result<usize, Refused>
        requires { at < place_limit }
        ensures { Answers result (end_of (read_many (read_mutation self.now.program.now self.now.principals self.now.roles) n at)) }
    {
        if self.are_mutations(n, at) {
            return Ok(at + MUTATION_BYTES * usize::from(n));
        }
        self.read_entries(Entry::Mutation, n, at)
    }
}
