// Numbers as decimal digits.
ghost use Rattle.std.specs.Prelude.{◌≡◌, ◌+◌, ◌<◌};
ghost use Rattle.model.specs.Text.{decimal, signed_decimal};
ghost use Rattle.report.specs.Writing.{written, write};

use super::writing;

// The digit of a number below ten.
fn digit(d: u64) -> u8
    requires { d < 10 }
    ensures { result ≡ 0x30 + d }
{
    b'0' + d as u8
}

// The digits before the last are those of the tenth part.
pub fn write_decimal(out: &mut [u8], at: usize, n: u64) -> usize
    ensures { written out.new result ≡ write out.old at (decimal n) }
{
    if n < 10 {
        return writing::put(out, at, digit(n));
    }
    let last = write_decimal(out, at, n / 10);
    writing::put(out, last, digit(n % 10))
}

// A value: a minus sign before the digits of a negative one, whose distance from zero may need the 32nd bit.
#[tactic(auto, using(crate::proofs::NumberLaws::signs))]
pub fn write_signed(out: &mut [u8], at: usize, value: u32) -> usize
    ensures { written out.new result ≡ write out.old at (signed_decimal value) }
{
    let signed = value.cast_signed();
    if signed < 0 {
        let digits = writing::put(out, at, b'-');
        return write_decimal(out, digits, u64::from(signed.unsigned_abs()));
    }
    write_decimal(out, at, u64::from(value))
}
