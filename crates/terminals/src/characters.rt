// Kind 1: one character as RFC 3629 defines it (02, R-5).
ghost use Rattle.std.specs.Prelude.{◌-◌, ◌≤◌, ◌<◌, ◌≡◌, ◌∷◌, length, replicate};
ghost use Rattle.grammar.specs.declared.node.Terminal.TheVariants.{Any};
ghost use Rattle.grammar.specs.Characters.{◌to◌, is_in, tail, later_bytes};
ghost use Rattle.grammar.specs.Terminal.{has_at, continued, terminal_at};
ghost use Rattle.records.specs.Words.{word_of};

// A match of nesting 1: so many bytes, all that were looked at;
const TWO_BYTES: u64 = crate::ONE_BYTE + records::ONE_EXAMINED + 1;

const THREE_BYTES: u64 = TWO_BYTES + records::ONE_EXAMINED + 1;

const FOUR_BYTES: u64 = THREE_BYTES + records::ONE_EXAMINED + 1;

// or the first byte alone, after so many were looked at.
const ONE_OF_TWO: u64 = crate::ONE_BYTE + records::ONE_EXAMINED;

const ONE_OF_THREE: u64 = ONE_OF_TWO + records::ONE_EXAMINED;

const ONE_OF_FOUR: u64 = ONE_OF_THREE + records::ONE_EXAMINED;

// Whether the text has a byte at a place, and it is one of these.
fn has_at(text: &[u8], lowest: u8, highest: u8, place: usize) -> bool
    ensures { result ≡ has_at (is_in (lowest to highest)) text.now place }
{
    crate::has_at(text, place, |byte| (lowest..=highest).contains(&byte))
}

// From the first byte on, which has so many later bytes: the next one is from `lowest` to `highest`, the others from 0x80 to 0xBF.
fn from_first(text: &[u8], lowest: u8, highest: u8, later: usize, at: usize) -> u64
    requires { (at < length text.now) × (1 ≤ later) × (later ≤ 3) }
    ensures { result ≡ word_of (continued ((lowest to highest) ∷ replicate (later - 1) tail) text.now at 1) }
{
    if !has_at(text, lowest, highest, at + 1) {
        return ONE_OF_TWO;
    }
    if later == 1 {
        return TWO_BYTES;
    }
    if !has_at(text, 0x80, 0xBF, at + 2) {
        return ONE_OF_THREE;
    }
    if later == 2 {
        return THREE_BYTES;
    }
    if !has_at(text, 0x80, 0xBF, at + 3) {
        return ONE_OF_FOUR;
    }
    FOUR_BYTES
}

// The same, by the first byte: the lines of RFC 3629's table. A byte below 0xC2 or above 0xF4 has no later bytes.
#[inline(never)]
fn by_first(text: &[u8], first: u8, at: usize) -> u64
    requires { at < length text.now }
    ensures { result ≡ word_of (continued (later_bytes first) text.now at 1) }
{
    match first {
        0x00..=0xC1 => crate::ONE_BYTE,
        0xC2..=0xDF => from_first(text, 0x80, 0xBF, 1, at),
        0xE0 => from_first(text, 0xA0, 0xBF, 2, at),
        0xE1..=0xEC => from_first(text, 0x80, 0xBF, 2, at),
        0xED => from_first(text, 0x80, 0x9F, 2, at),
        0xEE..=0xEF => from_first(text, 0x80, 0xBF, 2, at),
        0xF0 => from_first(text, 0x90, 0xBF, 3, at),
        0xF1..=0xF3 => from_first(text, 0x80, 0xBF, 3, at),
        0xF4 => from_first(text, 0x80, 0x8F, 3, at),
        _ => crate::ONE_BYTE,
    }
}

// Whether an ASCII byte stands at a position, which is a character of one byte.
pub fn is_ascii(text: &[u8], at: usize) -> bool
    ensures { result ≡ has_at (is_in (0x00 to 0x7F)) text.now at }
{
    crate::has_at(text, at, |byte| byte.is_ascii())
}

// "Kind 1 now matches one character as RFC 3629 defines it" (02, R-5). An ASCII character is answered with no call: without the two hints
// a listing takes 7 % more instructions and a reading 2 %.
#[inline(always)]
pub fn any_character(text: &[u8], at: usize) -> u64
    ensures { result ≡ word_of (terminal_at Any text.now at) }
{
    let Some(first) = crate::byte_at(text, at) else {
        return crate::NO_BYTE;
    };
    if first.is_ascii() {
        return crate::ONE_BYTE;
    }
    by_first(text, first, at)
}
