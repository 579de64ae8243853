// Reading a whole program: its mark and version, V, the labels of the variables, one statement, nothing more.
ghost use Rattle.std.specs.Prelude.{◌≡◌, ◌<◌, ◌≤◌, length};
ghost use Rattle.model.specs.Limits.{role_limit};
ghost use Rattle.model.specs.Program.{version, program_head, read_mark, read_body, read_program};
ghost use Rattle.program.specs.Answer.{place_limit, end_of, read_variables};
ghost use Rattle.program.specs.Refused.{Answers};

use super::body::Body;
use program::entries::Entry;
use program::layout;
use program::reader::Reader;
use program::refused::Refused;
use shared::{bytes, limit, number};

// The bytes of a mark at the head: the first that is missing is 10, the first that differs 11.
#[tactic(auto, using(crate::proofs::FileLaws::marks))]
fn read_mark(reader: &Reader, mark: &[u8]) -> Result<usize, Refused>
    requires { length mark.now < place_limit }
    ensures { Answers result (end_of (read_mark reader.now.program.now mark.now 0)) }
{
    let same = bytes::matching(reader.program, mark);
    if same == mark.len() {
        return Ok(same);
    }
    if same < reader.program.len() {
        return Err(Refused::new(number::PROGRAM_MARK, same));
    }
    Err(Refused::new(number::PROGRAM_LENGTH, reader.program.len()))
}

// Mark and version at the head: of two fixed byte strings the one of the version that the program states.
#[tactic(auto, using(crate::proofs::FileLaws::heads))]
fn read_head(reader: &Reader) -> Result<usize, Refused>
    ensures { Answers result (end_of (read_mark reader.now.program.now (program_head (version reader.now.program.now)) 0)) }
{
    if layout::version_of(reader.program) == 2 {
        return read_mark(reader, b"RXP\x02\x00");
    }
    read_mark(reader, b"RXP\x01\x00")
}

// One statement, and nothing more.
#[tactic(auto, using(crate::proofs::FileLaws::bodies))]
fn read_body(body: &Body, at: usize) -> Result<usize, Refused>
    requires { at < place_limit }
    ensures { Answers result (end_of (read_body body.now.reader.program.now body.now.reader.principals body.now.reader.roles body.now.variables at)) }
{
    let end = body.read_stmt(limit::STATEMENT_DEPTH, at)?;
    if end != body.reader.program.len() {
        return Err(Refused::new(number::PROGRAM_LENGTH, end));
    }
    Ok(end)
}

// V, V pairs of labels, the body.
#[tactic(auto, using(crate::proofs::FileLaws::variables))]
fn read_variables(reader: &Reader, at: usize) -> Result<usize, Refused>
    requires few { reader.now.roles ≤ role_limit }
    requires low { at < place_limit }
    ensures { Answers result (end_of (read_variables reader.now.program.now reader.now.principals reader.now.roles at)) }
{
    if reader.program.len() <= at {
        return Err(Refused::new(number::PROGRAM_LENGTH, reader.program.len()));
    }
    let variables = reader.program[at];
    if limit::VARIABLES < variables {
        return Err(Refused::new(number::PROGRAM_RANGE, at));
    }
    let labels = reader.read_entries(Entry::Label, 2 * variables, at + 1)?;
    let body = Body {
        reader: *reader,
        variables,
    };
    read_body(&body, labels)
}

// Any bytes as a program under a policy of P principals and R roles, as many as there may be. Over-length comes before the
// mark.
#[tactic(auto, using(crate::proofs::FileLaws::programs))]
pub fn read_program(program: &[u8], principals: u8, roles: u8) -> Result<usize, Refused>
    requires { roles ≤ role_limit }
    ensures { Answers result (end_of (read_program program.now principals roles)) }
{
    if limit::PROGRAM_BYTES < program.len() {
        return Err(Refused::new(number::PROGRAM_LENGTH, limit::PROGRAM_BYTES));
    }
    let reader = Reader {
        program,
        principals,
        roles,
    };
    let head = read_head(&reader)?;
    read_variables(&reader, head)
}
