// The lines of the text: `answer N`, and for 0 `used U` and `vX D` for each variable.
ghost use Rattle.std.specs.Prelude.{◌≡◌, ◌+◌, ◌*◌, ◌/◌, ◌≤◌, length};
ghost use Rattle.model.specs.Text.{numbered, variable_line, variable_lines, rest_of, text_of};
ghost use Rattle.report.specs.Writing.{written, write};

use super::{numbers, writing};
use shared::{bytes, number};

// A word, a number and the byte after it.
#[tactic(auto, using(crate::proofs::LineLaws::with_number))]
fn write_numbered(out: &mut [u8], at: usize, word: &[u8], n: u64, last: u8) -> usize
    ensures { written out.new result ≡ write out.old at (numbered word.now n last) }
{
    let digits = writing::put_all(out, at, word);
    let end = numbers::write_decimal(out, digits, n);
    writing::put(out, end, last)
}

// A variable that the memory has.
#[tactic(auto, using(crate::proofs::LineLaws::variable_line_lem))]
fn write_variable(out: &mut [u8], at: usize, memory: &[u8], x: usize) -> usize
    requires { 4 * x + 4 ≤ length memory.now }
    ensures { written out.new result ≡ write out.old at (variable_line memory.now x) }
{
    let value = write_numbered(out, at, b"v", x as u64, b' ');
    let end = numbers::write_signed(out, value, bytes::word32(memory, 4 * x));
    writing::put(out, end, b'\n')
}

// All variables of the memory.
#[tactic(auto, using(crate::proofs::LineLaws::variables_end, crate::proofs::LineLaws::variables_more, crate::proofs::LineLaws::variables_none))]
fn write_variables(out: &mut [u8], at: usize, memory: &[u8]) -> usize
    ensures { written out.new result ≡ write out.old at (variable_lines memory.now (length memory.now / 4)) }
{
    let mut next = at;
    for x in 0..memory.len() / 4 {
        next = write_variable(out, next, memory, x);
    }
    next
}

// What follows the answer: nothing after a refusal.
#[tactic(auto, using(crate::proofs::LineLaws::rest_accepted, crate::proofs::LineLaws::rest_refused))]
fn write_rest(out: &mut [u8], at: usize, number: u32, units: u32, memory: &[u8]) -> usize
    ensures { written out.new result ≡ write out.old at (rest_of number units memory.now) }
{
    if number == number::ACCEPTED {
        let next = write_numbered(out, at, b"used ", u64::from(units), b'\n');
        return write_variables(out, next, memory);
    }
    at
}

// The whole text, from the start of the buffer; the answer is how many bytes of it there are.
#[tactic(auto, using(crate::proofs::LineLaws::whole))]
pub fn write_report(out: &mut [u8], number: u32, units: u32, memory: &[u8]) -> usize
    ensures { written out.new result ≡ write out.old 0 (text_of number units memory.now) }
{
    let next = write_numbered(out, 0, b"answer ", u64::from(number), b'\n');
    write_rest(out, next, number, units, memory)
}
