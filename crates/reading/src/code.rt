// Numbers for the hosts. An answer of a plain reading as one number, for the Rust host: a refusal is its number; an answered reading has
// bit 63 set, bit 62 for matched, and nesting, examined and length in the record's fields. And the number of an outcome.
ghost use Rattle.std.specs.Prelude.{◌≡◌, Ok};
ghost use Rattle.reading.specs.Code.{code_of, outcome_number};

use crate::plain::{Outcome, Reading};
use grammar::Refusal;
use records::Record;

impl From<Outcome> for u64 {
    ghost from_gives = { λ o k. k ≡ outcome_number o };

    fn from(outcome: Outcome) -> u64 {
        // An enum's number is given by `as` alone.
        outcome as u64
    }
}

impl From<Reading> for u64 {
    ghost from_gives = { λ x code. code ≡ code_of (Ok x) };

    fn from(reading: Reading) -> u64 {
        let record = Record {
            matched: reading.outcome != Outcome::Nothing,
            spare: 0,
            nesting: reading.nesting,
            examined: reading.examined,
            length: reading.length,
        };
        record.word()
    }
}

// The code of an answer.
pub fn code_of(answer: Result<Reading, Refusal>) -> u64
    ensures { result ≡ code_of answer }
{
    match answer {
        Ok(reading) => u64::from(reading),
        Err(refusal) => u64::from(refusal),
    }
}
