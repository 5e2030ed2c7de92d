// The bit fields of a word.
ghost use Rattle.std.specs.Prelude.{◌≡◌, ◌<◌, ◌^◌};
ghost use Rattle.grammar.specs.Image.{field};

// The field of `width` bits that has `low` bits of the word below it. `as` stands here since std has no `From<u64>` for `usize`.
pub fn field(word: u64, low: u32, width: u32) -> usize
    requires { (low < 64) × (width < 64) }
    ensures { (result ≡ field word low width) × (result < 2 ^ width) }
{
    (word / (1 << low) % (1 << width)) as usize
}
