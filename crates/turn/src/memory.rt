// The values of a memory as words, and back; words and bytes from one buffer to another.
ghost use Rattle.std.specs.Prelude.{◌≡◌, ◌*◌, ◌<◌, ◌≤◌, length, take};
ghost use Rattle.model.specs.Memory.{memory_of};
ghost use Rattle.turn.specs.Memory.{Kept};

use shared::bytes;

// The values of the variables, which are the first words.
pub fn load(memory: &[u8], words: &mut [u32], vars: usize)
    requires { (length memory.now ≡ 4 * vars) × (vars ≤ length words.old) }
    ensures loaded { memory_of (take vars words.new) ≡ memory.now }
    ensures kept { Kept vars words.old words.new }
{
    // By index: a value's bytes stand at four times its place.
    for x in 0..vars {
        words[x] = bytes::word32(memory, 4 * x);
    }
}

// The memory's bytes are the values'.
pub fn store(memory: &mut [u8], words: &[u32], vars: usize)
    requires { (length memory.old ≡ 4 * vars) × (vars ≤ length words.now) }
    ensures { memory.new ≡ memory_of (take vars words.now) }
{
    for x in 0..vars {
        bytes::put32(memory, 4 * x, words[x]);
    }
}

// The first n words of another buffer: values kept for a rollback, or put back by one.
pub fn copy_words(from: &[u32], to: &mut [u32], n: usize)
    requires { (n ≤ length from.now) × (n ≤ length to.old) }
    ensures copied { take n to.new ≡ take n from.now }
    ensures kept { Kept n to.old to.new }
{
    to[..n].copy_from_slice(&from[..n]);
}

// All bytes of another buffer of the same length. Kept a loop: with the library's `copy_from_slice` whoever links the exports has
// to bring a `memmove` too.
pub fn copy_bytes(from: &[u8], to: &mut [u8])
    requires { length from.now ≡ length to.old }
    ensures { to.new ≡ from.now }
{
    for i in 0..to.len() {
        to[i] = from[i];
    }
}
