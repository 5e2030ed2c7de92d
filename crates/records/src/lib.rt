// Records: what an evaluation found, as one 64-bit word.
// "A record is a 64-bit word: held 1, matched 1, zero 16, nesting 13, examined 17, length 16." A word is a plain number, since C lends the
// table as words.
#![tactic(auto)]

ghost use Rattle.std.specs.Prelude.{◌<◌, ◌≡◌};
ghost use Rattle.records.specs.Words.{is_held, matched_of, spare_of, nesting_of, examined_of, length_of, record_word, SaidBy, decoded};

use grammar::field;

// What the word of a pair has.
#[derive(Clone, Copy)]
pub struct Record {
    pub matched: bool,
    // The sixteen bits that are zero in a true record.
    pub spare: usize,
    pub nesting: usize,
    pub examined: usize,
    pub length: usize,
}

// The bits of the word, from the top. A field has so many values, and 1 in it is so much of the word.
// "held 1"
pub const HELD: u64 = 1 << 63;

// "matched 1"
pub const MATCHED: u64 = 1 << 62;

// A held word that matched.
pub const HELD_MATCHED: u64 = HELD + MATCHED;

// "zero 16"
pub const SPARE_VALUES: usize = 1 << 16;

// 1 in the zero bits.
pub const SPARE_UNIT: usize = 1 << 46;

// "nesting 13"
pub const NESTING_VALUES: usize = 1 << 13;

// 1 in the nesting.
pub const NESTING_UNIT: usize = 1 << 33;

// "examined 17"
pub const EXAMINED_VALUES: usize = 1 << 17;

// 1 in the examined length.
pub const EXAMINED_UNIT: usize = 1 << 16;

// "length 16"
pub const LENGTH_VALUES: usize = 1 << 16;

// The units as words, to add to one: 1 in the nesting,
pub const ONE_NESTING: u64 = NESTING_UNIT as u64;

// and 1 in the examined length. `as` stands in both since std has no `From<usize>` for `u64`.
pub const ONE_EXAMINED: u64 = EXAMINED_UNIT as u64;

// The most bytes that a text may have: each length fits in its field.
pub const MAX_CAP: usize = LENGTH_VALUES - 1;

// Whether a word is held. "a word without its held bit counts as empty"
pub fn is_held(word: u64) -> bool
    ensures { result ≡ is_held word }
{
    HELD <= word
}

// The fields of a word, held or not.
// "matched 1"
pub fn matched_of(word: u64) -> bool
    ensures { result ≡ matched_of word }
{
    field(word, 62, 1) == 1
}

// "zero 16"
pub fn spare_of(word: u64) -> usize
    ensures { (result ≡ spare_of word) × (result < 65536) }
{
    field(word, 46, 16)
}

// "nesting 13"
pub fn nesting_of(word: u64) -> usize
    ensures { (result ≡ nesting_of word) × (result < 8192) }
{
    field(word, 33, 13)
}

// "examined 17"
pub fn examined_of(word: u64) -> usize
    ensures { (result ≡ examined_of word) × (result < 131072) }
{
    field(word, 16, 17)
}

// "length 16"
pub fn length_of(word: u64) -> usize
    ensures { (result ≡ length_of word) × (result < 65536) }
{
    field(word, 0, 16)
}

impl Record {
    // "An empty slot is 0".
    pub const EMPTY: u64 = 0;
    // "nesting 1 to 4,096"
    pub const MAX_NESTING: usize = 4096;

    // What a word says, held or not.
    fn said_by(word: u64) -> Record
        ensures { SaidBy word result }
    {
        Record {
            matched: matched_of(word),
            spare: spare_of(word),
            nesting: nesting_of(word),
            examined: examined_of(word),
            length: length_of(word),
        }
    }

    // "is each record met possible?" The record of a held word that position `at` of a text of n bytes can have.
    pub fn from_word(word: u64, at: usize, n: usize) -> Option<Record>
        ensures { result ≡ decoded word at n }
    {
        let said = Record::said_by(word);
        if said.nesting < 1 {
            return None;
        }
        if Record::MAX_NESTING < said.nesting {
            return None;
        }
        if said.examined < said.length {
            return None;
        }
        if n < at {
            return None;
        }
        if n - at < said.length {
            return None;
        }
        if said.spare != 0 {
            return None;
        }
        if n - at < said.examined {
            if n - at < said.examined - 1 {
                return None;
            }
        }
        if !said.matched {
            if said.length != 0 {
                return None;
            }
        }
        Some(said)
    }

    // The record's word. A field that is too wide loses its upper bits. `as` stands here since std has no `From<usize>` for `u64`.
    pub fn word(self) -> u64
        ensures { result ≡ record_word self }
    {
        let low = self.length % LENGTH_VALUES + self.examined % EXAMINED_VALUES * EXAMINED_UNIT;
        let high = self.nesting % NESTING_VALUES * NESTING_UNIT
            + self.spare % SPARE_VALUES * SPARE_UNIT;
        if self.matched {
            HELD_MATCHED + (high + low) as u64
        } else {
            HELD + (high + low) as u64
        }
    }
}
