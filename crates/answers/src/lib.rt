// The ways of combining evaluations, on their words: one function for each case of the paper. Each asks for the bound of the nestings
// that it adds to. A type of words with that bound would hold of what goes in and not of what comes out, whose nesting may be 4,097.
#![tactic(auto, unfolding(records::specs::Words::value_of, records::specs::Words::word_of))]

ghost use Rattle.std.specs.Prelude.{◌≤◌, ◌<◌, max, ◌≡◌};
ghost use Rattle.grammar.specs.Evaluates.{first_failed, in_sequence, taken_over, second_choice, negated};
ghost use Rattle.records.specs.Words.{word_of, value_of, nesting_of};
ghost use Rattle.records.specs.Joinable.{Joinable};

// The word of the empty node's evaluation: matched, nesting 1.
pub const EMPTY_HERE: u64 = records::HELD_MATCHED + records::ONE_NESTING;

// The word of an evaluation. Its fields fit, so that none loses bits. By a call of `Record::word` a plain reading took 1.9 to
// 2.8 % more instructions. `as` stands here since std has no `From<usize>` for `u64`.
pub fn answer(matched: bool, nesting: usize, examined: usize, length: usize) -> u64
    requires { (nesting < 8192) × (examined < 131072) × (length < 65536) }
    ensures { result ≡ word_of (record { matched = matched; length = length; examined = examined; nesting = nesting }) }
{
    let fields = nesting * records::NESTING_UNIT + examined * records::EXAMINED_UNIT + length;
    let held = if matched {
        records::HELD_MATCHED
    } else {
        records::HELD
    };
    held + fields as u64
}

// "A then B: if A fails, A's examined;"
pub fn first_failed(x: u64) -> u64
    requires { nesting_of x ≤ 4096 }
    ensures { result ≡ word_of (first_failed (value_of x)) }
{
    answer(
        false,
        1 + records::nesting_of(x),
        records::examined_of(x),
        0,
    )
}

// "else the larger of A's examined and A's length + B's examined; lengths add."
pub fn in_sequence(x: u64, y: u64) -> u64
    requires { Joinable x y }
    ensures { result ≡ word_of (in_sequence (value_of x) (value_of y)) }
{
    let before = records::length_of(x);
    let nesting = 1 + records::nesting_of(x).max(records::nesting_of(y));
    let examined = records::examined_of(x).max(before + records::examined_of(y));
    if records::matched_of(y) {
        answer(true, nesting, examined, before + records::length_of(y))
    } else {
        answer(false, nesting, examined, 0)
    }
}

// "A else B: A's if it matches;" also a call, from its rule's body. The field of the nesting goes up by one in its place.
pub fn taken_over(x: u64) -> u64
    requires { (x ≡ word_of (value_of x)) × (nesting_of x ≤ 4096) }
    ensures { result ≡ word_of (taken_over (value_of x)) }
{
    x + records::ONE_NESTING
}

// "else B's outcome and length, examined the larger of both."
pub fn second_choice(x: u64, y: u64) -> u64
    requires { (nesting_of x ≤ 4096) × (nesting_of y ≤ 4096) }
    ensures { result ≡ word_of (second_choice (value_of x) (value_of y)) }
{
    let nesting = 1 + records::nesting_of(x).max(records::nesting_of(y));
    let examined = records::examined_of(x).max(records::examined_of(y));
    answer(
        records::matched_of(y),
        nesting,
        examined,
        records::length_of(y),
    )
}

// "Not: length 0, A's examined."
pub fn negated_answer(x: u64) -> u64
    requires { nesting_of x ≤ 4096 }
    ensures { result ≡ word_of (negated (value_of x)) }
{
    answer(
        !records::matched_of(x),
        1 + records::nesting_of(x),
        records::examined_of(x),
        0,
    )
}
