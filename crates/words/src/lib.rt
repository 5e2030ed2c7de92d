// One word of the memo table in an edit, and the words of a row.
#![tactic(auto)]

ghost use Rattle.std.specs.Prelude.{◌≤◌, ◌<◌, ◌≡◌, cond, length};
ghost use Rattle.buffers.specs.Filled.{at};
ghost use Rattle.editing.specs.Held.{held_bit, only_held, kept_word};
ghost use Rattle.records.specs.Words.{is_held};
ghost use Rattle.words.specs.Counted.{Counted};

use records::Record;

// 1 for a held word, 0 for another.
pub fn held_bit(word: u64) -> usize
    ensures { (result ≡ held_bit word) × (result < 2) }
{
    usize::from(records::is_held(word))
}

// "a word without its held bit counts as empty"
pub fn only_held(word: u64) -> u64
    ensures { result ≡ only_held word }
{
    if records::is_held(word) {
        word
    } else {
        Record::EMPTY
    }
}

// The word where it is held and examined at most `limit` bytes, else 0.
#[tactic(auto, unfolding(editing::specs::Held::kept_word))]
pub fn kept_word(word: u64, limit: usize) -> u64
    ensures { result ≡ kept_word limit word }
{
    if records::is_held(word) && records::examined_of(word) <= limit {
        return word;
    }
    Record::EMPTY
}

// The first word where it is held, else the second.
pub fn first_held(first: u64, second: u64) -> u64
    ensures word { result ≡ cond (is_held first) first second }
    ensures bits { (held_bit first ≤ held_bit result) × (held_bit second ≤ held_bit result) }
{
    if records::is_held(first) {
        first
    } else {
        second
    }
}

// Of one row: keeps the held words that examined at most `limit` bytes, zeroes the others. Answers how many it keeps.
pub fn keep_row(row: &mut [u64], limit: usize) -> usize
    ensures { Counted
        (λ j. kept_word limit (at row.old j))
        row.old
        row.new
        0
        (length row.old)
        (λ j. kept_word limit (at row.old j))
        (length row.old)
        result }
{
    let mut c = 0;
    for word in row.iter_mut() {
        *word = kept_word(*word, limit);
        c += held_bit(*word);
    }
    c
}
