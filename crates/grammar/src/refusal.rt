// The refusals, by the names of include/bannelgo.h, each with the paper's question and its number. A call is refused by the first
// question that is answered no.
ghost use Rattle.std.specs.Prelude.{◌≡◌};
ghost use Rattle.grammar.specs.Refusals.{number};

use std::fmt;

// The number of the question that was answered no.
#[derive(Clone, Copy, Debug, PartialEq, Eq)]
pub enum Refusal {
    // "Are there 4 bytes, and edition 1?"
    Edition = 1,
    // "Rules 1 to 64, nodes 1 to 1,024, start below rules?"
    Counts = 2,
    // "Are there exactly 4 + 2 × rules + 4 × nodes bytes?"
    Size = 3,
    // "Is every word lawful: zero bits and unused fields 0, kind 0 to 7, A ≤ B ≤ 255 in kind 2, references in range, children above
    // parents?" "Question 4 allows the bit [the fold bit] in kind 2 only." (02, R-1)
    Words = 4,
    // "Does each node occur exactly once among roots and children?"
    Occurrences = 5,
    // "Does every star's body lack outcome 0?"
    StarBodies = 6,
    // "Is every node in the well-formed set?"
    WellFormed = 7,
    // "Is cap at most 65,535, the text at most cap, the table wholly lent?"
    Loan = 8,
    // "Edit: s ≤ e ≤ n?"
    EditRange = 9,
    // "Edit: n' ≤ cap?"
    EditRoom = 10,
    // "Look-up: rule below rules, position ≤ n?"
    Pair = 11,
    // "Reading: is each record met possible .., and no star round of length 0?"
    Records = 12,
    // "Plain reading: did every star round consume?" Under an accepted image every round does, so no call is refused by it.
    StarRounds = 13,
    // "Is the start pair's nesting at most 4,096?"
    Nesting = 14,
    // "Rows: do the rows fit?"
    Rows = 15,
}

impl From<Refusal> for u64 {
    ghost from_gives = { λ r k. k ≡ number r };

    fn from(refusal: Refusal) -> u64 {
        // An enum's number is given by `as` alone.
        refusal as u64
    }
}

// A refusal prints as its number.
impl fmt::Display for Refusal {
    fn fmt<W: fmt::Write>(&self, f: &mut fmt::Formatter<W>) -> fmt::Result {
        write!(f, "{}", u64::from(*self))
    }
}
