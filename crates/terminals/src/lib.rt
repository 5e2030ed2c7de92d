// The terminals: what kinds 1 and 2 do at a position, as the word of the evaluation.
#![tactic(auto)]

pub mod characters;

ghost use Rattle.std.specs.Prelude.{◌≡◌, false, cond, slice_get, MatchOption};
ghost use Rattle.grammar.specs.declared.node.Terminal.TheVariants.{Range, Folded};
ghost use Rattle.grammar.specs.Between.{between};
ghost use Rattle.grammar.specs.Terminal.{other_case, taken, not_taken, terminal_at};
ghost use Rattle.records.specs.Words.{word_of};

use grammar::Terminal;

// A match of one byte, and a failure that examined one place.
pub const ONE_BYTE: u64 = records::HELD_MATCHED + records::ONE_NESTING + records::ONE_EXAMINED + 1;

const NO_BYTE: u64 = records::HELD + records::ONE_NESTING + records::ONE_EXAMINED;

// The byte at a position of the text, none at its end: "A text has n bytes, positions 0 to n; position n is the end." The terminals read
// the text here alone.
fn byte_at(text: &[u8], at: usize) -> Option<u8>
    ensures { result ≡ slice_get text.now at }
{
    text.get(at).copied()
}

// Whether the text has a byte at a position, and it passes a test.
fn has_at<F: Fn(u8) -> bool>(text: &[u8], at: usize, test: F) -> bool
    requires { F.IsAlwaysCallable test }
    ensures { MatchOption (slice_get text.now at) (result ≡ false) (λ byte. F.post test byte result) }
{
    byte_at(text, at).is_some_and(test)
}

// A match of one byte where it passed its test, and else a failure.
#[tactic(auto, unfolding(records::specs::Words::word_of))]
fn one_byte(passed: bool) -> u64
    ensures { result ≡ word_of (cond passed (taken 1 1) not_taken) }
{
    if passed { ONE_BYTE } else { NO_BYTE }
}

// Whether a byte is one of those from one to another.
fn is_between(from: usize, to: usize, byte: u8) -> bool
    ensures { result ≡ between from to byte }
{
    (from..=to).contains(&usize::from(byte))
}

// "2 byte from A to B inclusive", without the fold bit.
pub fn byte_between(text: &[u8], from: usize, to: usize, at: usize) -> u64
    ensures { result ≡ word_of (terminal_at (Range from to) text.now at) }
{
    one_byte(has_at(text, at, |byte| is_between(from, to, byte)))
}

// The other ASCII case of a letter; any other byte stands for itself.
#[tactic(auto, unfolding(grammar::specs::Terminal::other_case), using(std::proofs::lemmas::Bool::Decides::nat_tests))]
fn other_case(byte: u8) -> u8
    ensures { result ≡ other_case byte }
{
    if byte.is_ascii_lowercase() {
        byte.to_ascii_uppercase()
    } else {
        byte.to_ascii_lowercase()
    }
}

// Kind 2 with the fold bit: "a byte matches if it or its other ASCII case is between A and B" (02, R-1).
pub fn byte_folded(text: &[u8], from: usize, to: usize, at: usize) -> u64
    ensures { result ≡ word_of (terminal_at (Folded from to) text.now at) }
{
    one_byte(has_at(text, at, |byte| {
        is_between(from, to, byte) | is_between(from, to, other_case(byte))
    }))
}

// What a terminal does at a position.
pub fn terminal(text: &[u8], terminal: Terminal, at: usize) -> u64
    ensures { result ≡ word_of (terminal_at terminal text.now at) }
{
    match terminal {
        Terminal::Any => characters::any_character(text, at),
        Terminal::Range(from, to) => byte_between(text, from, to, at),
        Terminal::Folded(from, to) => byte_folded(text, from, to, at),
    }
}
