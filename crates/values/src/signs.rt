// A value's bits as the integer that they stand for in two's complement, and back.
ghost use Rattle.std.specs.Prelude.{◌≡◌};
ghost use Rattle.model.specs.Signed.{signed};
ghost use Rattle.model.specs.Value.{magnitude};
ghost use Rattle.values.specs.Signs.{outward};

// How many values there are, and two of them: the lowest and minus one.
pub const MODULUS: u64 = 0x1_0000_0000;

pub const LOWEST: u32 = 0x8000_0000;

pub const MINUS_ONE: u32 = 0xffff_ffff;

// 2^32 among the integers.
const PERIOD: i64 = MODULUS as i64;

// From the lowest on, a value stands for its bits' number less 2^32.
pub fn signed_of(v: u32) -> i32
    ensures { result ≡ signed v }
{
    if v < LOWEST {
        v as i32
    } else {
        ((v as i64) - PERIOD) as i32
    }
}

// The one value that stands for a number.
pub fn value_of(n: i32) -> u32
    ensures { signed result ≡ n }
{
    if n < 0 {
        ((n as i64) + PERIOD) as u32
    } else {
        n as u32
    }
}

// How far a value is from zero. That of the lowest is 2^31, which is no i32.
pub fn size_of(v: u32) -> u32
    ensures { result ≡ magnitude v }
{
    if v < LOWEST {
        v
    } else {
        std::num::wrapping_sub_u32(0, v)
    }
}

// One on the side of zero where the quotient of two values stands, which a quotient of 0 does not show.
pub fn outward(a: u32, b: u32) -> u32
    ensures { result ≡ outward a b }
{
    if a < LOWEST {
        if b < LOWEST { 1 } else { MINUS_ONE }
    } else {
        if b < LOWEST { MINUS_ONE } else { 1 }
    }
}
