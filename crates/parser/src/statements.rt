// Reading a statement: a cycle of calls in which the remaining depth falls. Each function but the first reads one kind of
// statement after its code, which stands just before `at`; `depth` is then what is left for the statements that it holds.
ghost use Rattle.std.specs.Prelude.{◌≡◌, ◌<◌};
ghost use Rattle.parser.specs.Body.{stmt_in, block_in, if_in, while_in, query_in, transaction_in};
ghost use Rattle.program.specs.Answer.{place_limit, end_of, read_assign, read_update, FindsCode};
ghost use Rattle.program.specs.Codes.{statement_byte};
ghost use Rattle.program.specs.Refused.{Answers};

use super::body::Body;
use program::codes::Statement;
use program::entries::Entry;
use program::refused::Refused;
use program::skips;
use shared::{limit, number};

impl<'a> Body<'a> {
    // Too deep is 14 before the code is read.
    #[cycle(reading)]
    #[tactic(auto, using(crate::proofs::StatementLaws::statements))]
    pub fn read_stmt(&self, depth: u8, at: usize) -> Result<usize, Refused>
        requires { at < place_limit }
        ensures { Answers result (end_of (stmt_in self.now depth at)) }
    {
        if depth == 0 {
            return Err(Refused::new(number::PROGRAM_DEPTH, at));
        }
        if self.reader.program.len() <= at {
            return Err(Refused::new(number::PROGRAM_LENGTH, self.reader.program.len()));
        }
        let next = at + 1;
        let inner = depth - 1;
        let Ok(code) = Statement::try_from(self.reader.program[at]) else {
            return Err(Refused::new(number::PROGRAM_CODE, at));
        };
        match code {
            Statement::Skip => Ok(next),
            Statement::Assign => self.read_assign(next),
            Statement::Block => self.read_block(inner, next),
            Statement::If => self.read_if(inner, next),
            Statement::While => self.read_while(inner, next),
            Statement::Query => self.read_query(inner, next),
            Statement::Update => self.read_update(next),
            Statement::Transaction => self.read_transaction(inner, next),
        }
    }

    // A variable, an expression.
    #[tactic(auto, using(crate::proofs::StatementLaws::assigns))]
    fn read_assign(&self, at: usize) -> Result<usize, Refused>
        requires { at < place_limit }
        ensures { Answers result (end_of (read_assign self.now.reader.program.now self.now.variables at)) }
    {
        let target = self.reader.read_below(self.variables, at)?;
        self.read_expr(limit::EXPRESSION_DEPTH, target)
    }

    // Whether a statement's code stands at a position with depth left for it.
    #[tactic(auto, using(crate::proofs::StatementLaws::codes))]
    fn is_code(&self, depth: u8, at: usize, code: Statement) -> bool
        ensures { FindsCode self.now.reader.program.now depth at (statement_byte code) result }
    {
        if depth == 0 {
            return false;
        }
        if self.reader.program.len() <= at {
            return false;
        }
        self.reader.program[at] == code as u8
    }

    // A statement of a block, or a branch. Assignments and updates are many; they are read here, since the call that finds out
    // which kind a statement is costs as much as a small one: blocks of such take a seventh less.
    #[cycle(reading)]
    #[tactic(auto, using(crate::proofs::StatementLaws::parts))]
    fn read_part(&self, depth: u8, at: usize) -> Result<usize, Refused>
        requires { at < place_limit }
        ensures { Answers result (end_of (stmt_in self.now depth at)) }
    {
        if self.is_code(depth, at, Statement::Assign) {
            return self.read_assign(at + 1);
        }
        if self.is_code(depth, at, Statement::Update) {
            return self.read_update(at + 1);
        }
        self.read_stmt(depth, at)
    }

    // n, n statements. A skip is passed over here, since a call would cost more than all else of it, and with it those behind it.
    #[cycle(reading)]
    #[tactic(auto, using(crate::proofs::StatementLaws::blocks, crate::proofs::StatementLaws::skips))]
    fn read_block(&self, depth: u8, at: usize) -> Result<usize, Refused>
        requires { at < place_limit }
        ensures { Answers result (end_of (block_in self.now depth at)) }
    {
        if self.reader.program.len() <= at {
            return Err(Refused::new(number::PROGRAM_LENGTH, self.reader.program.len()));
        }
        let mut left = self.reader.program[at];
        let mut next = at + 1;
        // Kept a `while`: one turn goes over as many statements as skips stand in a row.
        while 0 < left {
            if self.is_code(depth, next, Statement::Skip) {
                let rest = next + 1;
                left -= 1;
                let more = skips::in_eights(self.reader.program, rest, left);
                next = skips::after(self.reader.program, rest, more);
                left -= more;
            } else {
                next = self.read_part(depth, next)?;
                left -= 1;
            }
        }
        Ok(next)
    }

    // A branch of an if or a query. It is often a skip, which is passed over here as in a block.
    #[cycle(reading)]
    #[tactic(auto, using(crate::proofs::StatementLaws::skip_branch))]
    fn read_branch(&self, depth: u8, at: usize) -> Result<usize, Refused>
        requires { at < place_limit }
        ensures { Answers result (end_of (stmt_in self.now depth at)) }
    {
        if self.is_code(depth, at, Statement::Skip) {
            return Ok(at + 1);
        }
        self.read_part(depth, at)
    }

    // An expression, two statements.
    #[cycle(reading)]
    #[tactic(auto, using(crate::proofs::StatementLaws::ifs))]
    fn read_if(&self, depth: u8, at: usize) -> Result<usize, Refused>
        requires { at < place_limit }
        ensures { Answers result (end_of (if_in self.now depth at)) }
    {
        let test = self.read_expr(limit::EXPRESSION_DEPTH, at)?;
        let taken = self.read_branch(depth, test)?;
        self.read_branch(depth, taken)
    }

    // An expression, a statement.
    #[cycle(reading)]
    #[tactic(auto, using(crate::proofs::StatementLaws::whiles))]
    fn read_while(&self, depth: u8, at: usize) -> Result<usize, Refused>
        requires { at < place_limit }
        ensures { Answers result (end_of (while_in self.now depth at)) }
    {
        let test = self.read_expr(limit::EXPRESSION_DEPTH, at)?;
        self.read_stmt(depth, test)
    }

    // Two atoms, two statements.
    #[cycle(reading)]
    #[tactic(auto, using(crate::proofs::StatementLaws::queries))]
    fn read_query(&self, depth: u8, at: usize) -> Result<usize, Refused>
        requires { at < place_limit }
        ensures { Answers result (end_of (query_in self.now depth at)) }
    {
        let query = self.reader.read_query(at)?;
        let known = self.read_branch(depth, query)?;
        self.read_branch(depth, known)
    }

    // n, n mutations; n is 1 to 16.
    #[tactic(auto, using(crate::proofs::StatementLaws::updates))]
    fn read_update(&self, at: usize) -> Result<usize, Refused>
        requires { at < place_limit }
        ensures { Answers result (end_of (read_update self.now.reader.program.now self.now.reader.principals self.now.reader.roles at)) }
    {
        if self.reader.program.len() <= at {
            return Err(Refused::new(number::PROGRAM_LENGTH, self.reader.program.len()));
        }
        let n = self.reader.program[at];
        if n == 0 {
            return Err(Refused::new(number::PROGRAM_RANGE, at));
        }
        if limit::LIST < n {
            return Err(Refused::new(number::PROGRAM_RANGE, at));
        }
        self.reader.read_mutations(n, at + 1)
    }

    // n, n atom pairs, a statement; n is 0 to 16.
    #[cycle(reading)]
    #[tactic(auto, using(crate::proofs::StatementLaws::transactions))]
    fn read_transaction(&self, depth: u8, at: usize) -> Result<usize, Refused>
        requires { at < place_limit }
        ensures { Answers result (end_of (transaction_in self.now depth at)) }
    {
        if self.reader.program.len() <= at {
            return Err(Refused::new(number::PROGRAM_LENGTH, self.reader.program.len()));
        }
        let n = self.reader.program[at];
        if limit::LIST < n {
            return Err(Refused::new(number::PROGRAM_RANGE, at));
        }
        let list = self.reader.read_entries(Entry::Query, n, at + 1)?;
        self.read_stmt(depth, list)
    }
}
