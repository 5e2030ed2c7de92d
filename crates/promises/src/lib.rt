// What the sheet's calls answer, and the promise of each. This crate has the types of the answers, definitions (specs/) and the theorems
// that the calls cite (proofs/), and no code that runs. A call is refused by the first question that is answered no.
#![tactic(auto)]

use grammar::Refusal;
use reading::plain::Outcome;

// "The answer is the text's length n."
pub type OpenAnswer = Result<usize, Refusal>;

// "The answer gives the new length and the number of pairs standing."
#[derive(Clone, Copy, Debug, PartialEq, Eq)]
pub struct EditedSheet {
    pub length: usize,
    pub standing: usize,
}

// The answer of an edit.
pub type EditAnswer = Result<EditedSheet, Refusal>;

// "it also gives length, examined length and nesting, and in a session evaluations". There is no `Reading` in it: document 01 asks for the
// outcome inside the reading's struct with its lengths and evaluation count.
#[derive(Clone, Copy, Debug, PartialEq, Eq)]
pub struct SheetReading {
    pub outcome: Outcome,
    pub length: usize,
    pub examined: usize,
    pub nesting: usize,
    pub evaluations: u64,
}

// The answer of a reading.
pub type ReadAnswer = Result<SheetReading, Refusal>;

// "The answer is the reading's and the number of rows."
#[derive(Clone, Copy, Debug, PartialEq, Eq)]
pub struct SheetListing {
    pub reading: SheetReading,
    pub rows: usize,
}

// The answer of a listing.
pub type ListAnswer = Result<SheetListing, Refusal>;

// "The program gives the slot's word whole."
pub type LookUpAnswer = Result<u64, Refusal>;
