// What there is in a stretch of words, in one pass that stores nothing.
ghost use Rattle.front.specs.Front.{Scanned};

// How many words are held, where it is seen that every word stays: that each is 0 or held, and that no held word examined more than the
// limit. Where it is not seen, the words have to be looked at one by one.
//
// The bits that any word has bound the examined fields. One less than a word has the held bit for 0, which wraps, and for a held word with
// another bit, and for no other word. So where all have it, each word is 0 or held.
pub fn held_if_all_stay(part: &[u64], limit: usize) -> Option<usize>
    ensures { Scanned part.now limit result }
{
    let mut any: u64 = 0;
    let mut all: u64 = u64::MAX;
    let mut held: usize = 0;
    for &word in part {
        any |= word;
        all &= word.wrapping_sub(1);
        held += words::held_bit(word);
    }
    if records::HELD <= all && records::examined_of(any) <= limit {
        return Some(held);
    }
    None
}
