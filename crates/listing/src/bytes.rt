// The nodes that look at the text itself, by the evaluator's tests.
ghost use Rattle.std.specs.Prelude.{◌≡◌};
ghost use Rattle.grammar.specs.Terminal.{terminal_at};
ghost use Rattle.records.specs.Words.{value_of};
ghost use Rattle.listing.specs.Gives.{told_length};

use grammar::Terminal;

// What the word of an evaluation says: the length of a match, or none for a failure.
fn told(word: u64) -> Option<usize>
    ensures { result ≡ told_length (value_of word) }
{
    records::matched_of(word).then_some(records::length_of(word))
}

// A terminal. An ASCII character is told without a call.
pub fn leaf(text: &[u8], terminal: Terminal, at: usize) -> Option<usize>
    ensures { result ≡ told_length (terminal_at terminal text.now at) }
{
    if let Terminal::Any = terminal {
        if terminals::characters::is_ascii(text, at) {
            return Some(1);
        }
    }
    told(terminals::terminal(text, terminal, at))
}
