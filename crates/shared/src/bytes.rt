// Bytes by position: little-endian numbers, and the mark at the head of a file.
ghost use Rattle.std.specs.Prelude.{◌≡◌, ◌+◌, ◌≤◌, length, slice_range};
ghost use Rattle.model.specs.Bytes.{byte, word, put, starts_with};
ghost use Rattle.shared.specs.Marks.{matching};

// The byte at any position, 0 past the end.
pub fn byte_at(s: &[u8], at: usize) -> u8
    ensures { result ≡ byte s.now at }
{
    s.get(at).copied().unwrap_or(0)
}

// The N bytes from a position on.
fn chunk<const N: usize>(s: &[u8], at: usize) -> [u8; N]
    requires { at + N ≤ length s.now }
    ensures { result ≡ slice_range s.now at (at + N) }
{
    s[at..at + N].try_into().unwrap()
}

// The 32-bit number at a position.
#[tactic(auto, using(crate::proofs::ByteLaws::words))]
pub fn word32(s: &[u8], at: usize) -> u32
    requires { at + 4 ≤ length s.now }
    ensures { result ≡ word s.now at 4 }
{
    u32::from_le_bytes(chunk(s, at))
}

// The 64-bit number at a position.
#[tactic(auto, using(crate::proofs::ByteLaws::words))]
pub fn word64(s: &[u8], at: usize) -> u64
    requires { at + 8 ≤ length s.now }
    ensures { result ≡ word s.now at 8 }
{
    u64::from_le_bytes(chunk(s, at))
}

// Writes a 32-bit number at a position.
#[tactic(auto, using(crate::proofs::ByteLaws::put_of))]
pub fn put32(s: &mut [u8], at: usize, v: u32)
    requires { at + 4 ≤ length s.old }
    ensures { s.new ≡ put s.old at 4 v }
{
    s[at..at + 4].copy_from_slice(&v.to_le_bytes());
}

// Writes a 64-bit number at a position.
#[tactic(auto, using(crate::proofs::ByteLaws::put_of))]
pub fn put64(s: &mut [u8], at: usize, v: u64)
    requires { at + 8 ≤ length s.old }
    ensures { s.new ≡ put s.old at 8 v }
{
    s[at..at + 8].copy_from_slice(&v.to_le_bytes());
}

// How many bytes of a mark the bytes begin with.
#[tactic(auto, using(crate::proofs::ByteLaws::marks))]
pub fn matching(s: &[u8], mark: &[u8]) -> usize
    ensures { result ≡ matching s.now mark.now }
{
    for i in 0..mark.len() {
        if s.len() <= i {
            return i;
        }
        if s[i] != mark[i] {
            return i;
        }
    }
    mark.len()
}

// Whether the bytes begin with those of a mark.
#[tactic(auto, using(crate::proofs::ByteLaws::mark_whole))]
pub fn starts_with(s: &[u8], mark: &[u8]) -> bool
    ensures { result ≡ starts_with s.now mark.now }
{
    matching(s, mark) == mark.len()
}
