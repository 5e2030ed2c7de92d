// The plain reading: a reading without records. Its answer depends on the image and the text alone.
ghost use Rattle.std.specs.Prelude.{◌≡◌, ◌==◌};
ghost use Rattle.records.specs.Words.{value_of};
ghost use Rattle.reading.specs.Plain.{PlainRead, outcome_of, reading_of};

use crate::pair::StartPair;
use grammar::Refusal;
use std::fmt;

// "A reading is whole (matched, length n), part (matched, shorter) or none". The numbers are those of include/bannelgo.h.
#[derive(Clone, Copy, Debug, PartialEq, Eq)]
pub enum Outcome {
    Whole = 2,
    Part = 1,
    Nothing = 0,
}

impl fmt::Display for Outcome {
    fn fmt<W: fmt::Write>(&self, f: &mut fmt::Formatter<W>) -> fmt::Result {
        f.write_str(match self {
            Outcome::Whole => "whole",
            Outcome::Part => "part",
            Outcome::Nothing => "none",
        })
    }
}

// "it also gives length, examined length and nesting"
#[derive(Clone, Copy, Debug, PartialEq, Eq)]
pub struct Reading {
    pub outcome: Outcome,
    pub length: usize,
    pub examined: usize,
    pub nesting: usize,
}

// The outcome for a text of n bytes.
pub fn outcome_of(matched: bool, length: usize, n: usize) -> Outcome
    ensures { result ≡ outcome_of matched (length == n) }
{
    if !matched {
        Outcome::Nothing
    } else if length == n {
        Outcome::Whole
    } else {
        Outcome::Part
    }
}

// What a held word says of a text of n bytes.
#[tactic(auto, unfolding(records::specs::Words::value_of))]
pub fn reading_of(word: u64, n: usize) -> Reading
    ensures { result ≡ reading_of n (value_of word) }
{
    let length = records::length_of(word);
    let examined = records::examined_of(word);
    let outcome = outcome_of(records::matched_of(word), length, n);
    Reading {
        outcome,
        length,
        examined,
        nesting: records::nesting_of(word),
    }
}

// The reading of a text by a grammar. Refuses an image with its number 1 to 7, a text above 65,535 bytes with 8, and a start pair
// whose nesting is above 4,096 with 14.
pub fn plain_reading(image: &[u8], text: &[u8]) -> Result<Reading, Refusal>
    ensures { PlainRead image.now text.now result }
{
    checker::check(image)?;
    if records::MAX_CAP < text.len() {
        return Err(Refusal::Loan);
    }
    // Over no records the start pair's word is its body's.
    let mut pair = StartPair {
        image,
        text,
        table: &mut [],
        count: 0,
    };
    let word = pair.body()?;
    Ok(reading_of(word, text.len()))
}
