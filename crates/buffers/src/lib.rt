// What is stored in lent slices: a stretch of bytes is moved, a text copied in, words cleared, a word put in its slot.
#![tactic(auto)]

ghost use Rattle.std.specs.Prelude.{◌+◌, ◌-◌, ◌≤◌, ◌≡◌, length, replicate, set};
ghost use Rattle.buffers.specs.Filled.{Filled, at};

// `count` bytes go from `from` to `to`; the stretches may overlap.
pub fn shift(part: &mut [u8], from: usize, to: usize, count: usize)
    requires { (from + count ≤ length part.old) × (to + count ≤ length part.old) }
    ensures { Filled (λ j. at part.old (from + (j - to))) part.old part.new to (to + count) }
{
    part.copy_within(from..from + count, to);
}

// The bytes of `text` go to the front of the slice. By index: std's `copy_from_slice` is compiled to memmove, which the library does without.
pub fn copy(part: &mut [u8], text: &[u8])
    requires { length text.now ≤ length part.old }
    ensures { Filled (at text.now) part.old part.new 0 (length text.now) }
{
    for (i, byte) in text.iter().enumerate() {
        part[i] = *byte;
    }
}

// Every word becomes 0.
pub fn clear(part: &mut [u64])
    ensures { part.new ≡ replicate (length part.old) 0 }
{
    part.fill(0);
}

// A word goes into its slot; past the slice nothing is stored. By index: `get_mut` promises nothing of the other words.
pub fn store(part: &mut [u64], slot: usize, word: u64)
    ensures { part.new ≡ set part.old slot word }
{
    if slot < part.len() {
        part[slot] = word;
    }
}
