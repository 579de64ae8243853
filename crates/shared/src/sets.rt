// Sets of principals or roles as the bits of a word. Each function takes every word and every number.
ghost use Rattle.std.specs.Prelude.{◌≡◌, true, false, ◌^◌, ◌<◌, ltb};
ghost use Rattle.std.specs.Int.Count.{count_trailing_zeros};
ghost use Rattle.model.specs.Sets.{has, within, with, without};
ghost use Rattle.shared.specs.Words.{single};

// Whether i is in the set.
#[tactic(auto, using(crate::proofs::SetLaws::pasts))]
pub fn contains(a: u64, i: u64) -> bool
    ensures { result ≡ has a i }
{
    i < 64 && (a >> i) % 2 == 1
}

// Whether every number in a is in b.
pub fn subset(a: u64, b: u64) -> bool
    ensures { result ≡ within a b }
{
    a & b == a
}

// Whether every number in the set is below n.
#[tactic(auto, using(crate::proofs::SetLaws::pasts))]
pub fn all_below(a: u64, n: u64) -> bool
    ensures { result ≡ ltb a (2 ^ n) }
{
    64 <= n || a < 1 << n
}

// The set of one number, empty where the number is past the word.
#[tactic(auto, using(crate::proofs::SetLaws::singles))]
pub fn single(i: u64) -> u64
    ensures { result ≡ single i }
{
    if i < 64 { 1 << i } else { 0 }
}

// The set with i.
pub fn with(a: u64, i: u64) -> u64
    requires { i < 64 }
    ensures { result ≡ with a i }
{
    a | 1 << i
}

// The set without i.
pub fn without(a: u64, i: u64) -> u64
    requires { i < 64 }
    ensures { result ≡ without a i }
{
    if contains(a, i) { a - (1 << i) } else { a }
}

// The lowest number in a set that has one.
#[tactic(auto, using(crate::proofs::SetLaws::lowest_in))]
pub fn lowest(a: u64) -> u64
    requires { 0 < a }
    ensures lowest { result ≡ count_trailing_zeros 64 a }
    ensures member { has a result ≡ true }
    ensures small { result < 64 }
{
    u64::from(a.trailing_zeros())
}

// The highest number in a set that has one.
#[tactic(auto, using(crate::proofs::SetLaws::highest))]
pub fn highest(a: u64) -> u64
    requires { 0 < a }
    ensures { has a result ≡ true }
{
    63 - u64::from(a.leading_zeros())
}

// The set without its lowest number.
#[tactic(auto, using(crate::proofs::SetLaws::lowest_out))]
pub fn without_lowest(a: u64) -> u64
    requires { 0 < a }
    ensures { result ≡ without a (count_trailing_zeros 64 a) }
{
    a & (a - 1)
}
