// Writing text into a buffer from a position on, as much of it as there is room for; the answer is where the next byte goes.
// Kept in place of `write!`: that fails where there is no room, and these, which cannot fail, write what there is room for.
ghost use Rattle.std.specs.Prelude.{◌≡◌, [], ◌∷◌};
ghost use Rattle.report.specs.Writing.{written, write};

// One byte.
#[tactic(auto, using(crate::proofs::WritingLaws::put_full, crate::proofs::WritingLaws::put_there))]
pub fn put(out: &mut [u8], at: usize, b: u8) -> usize
    ensures { written out.new result ≡ write out.old at (b ∷ []) }
{
    if at < out.len() {
        out[at] = b;
        return at + 1;
    }
    at
}

// Some bytes one after the other.
#[tactic(auto, using(crate::proofs::WritingLaws::all_end, crate::proofs::WritingLaws::all_more, crate::proofs::WritingLaws::all_none))]
pub fn put_all(out: &mut [u8], at: usize, text: &[u8]) -> usize
    ensures { written out.new result ≡ write out.old at text.now }
{
    let mut next = at;
    for &b in text {
        next = put(out, next, b);
    }
    next
}
