// The seven numbers that a call answers with; which they are for each case of each answer is said in specs/Fields.antt. `as` stands here
// since std has no `From<usize>` for `u64`.
ghost use Rattle.std.specs.Prelude.{◌≡◌};
ghost use Rattle.grammar.specs.Refusals.{number};
ghost use Rattle.bannelgo.specs.Fields.{refusal, open_fields, edit_fields, reading_fields, read_fields, look_up_fields, list_fields};

use grammar::Refusal;
use promises::{EditAnswer, ListAnswer, LookUpAnswer, OpenAnswer, ReadAnswer, SheetReading};

// The answer of a call as a host reads it.
#[repr(C)]
#[derive(Clone, Copy)]
pub struct Fields {
    pub number: u64,
    pub outcome: u64,
    pub length: u64,
    pub examined: u64,
    pub nesting: u64,
    pub evaluations: u64,
    pub value: u64,
}

impl Fields {
    // The fields that a case does not use.
    const NONE: Fields = Fields {
        number: 0,
        outcome: 0,
        length: 0,
        examined: 0,
        nesting: 0,
        evaluations: 0,
        value: 0,
    };
}

impl From<Refusal> for Fields {
    ghost from_gives = { λ r f. f ≡ refusal (number r) };

    fn from(refusal: Refusal) -> Fields {
        Fields {
            number: u64::from(refusal),
            ..Fields::NONE
        }
    }
}

// What a reading found, with a value.
fn of_reading(found: SheetReading, value: u64) -> Fields
    ensures { result ≡ reading_fields found value }
{
    Fields {
        number: 0,
        outcome: u64::from(found.outcome),
        length: found.length as u64,
        examined: found.examined as u64,
        nesting: found.nesting as u64,
        evaluations: found.evaluations,
        value,
    }
}

// Each answer has a conversion of its own: one for every `Result` would go by `From<usize>` for an opened text's length and by
// `From<u64>` for a word, which say nothing of the call.
impl From<OpenAnswer> for Fields {
    ghost from_gives = { λ a f. f ≡ open_fields a };

    fn from(answer: OpenAnswer) -> Fields {
        match answer {
            Ok(length) => Fields {
                length: length as u64,
                ..Fields::NONE
            },
            Err(refusal) => Fields::from(refusal),
        }
    }
}

impl From<EditAnswer> for Fields {
    ghost from_gives = { λ a f. f ≡ edit_fields a };

    fn from(answer: EditAnswer) -> Fields {
        match answer {
            Ok(sheet) => Fields {
                length: sheet.length as u64,
                value: sheet.standing as u64,
                ..Fields::NONE
            },
            Err(refusal) => Fields::from(refusal),
        }
    }
}

impl From<LookUpAnswer> for Fields {
    ghost from_gives = { λ a f. f ≡ look_up_fields a };

    fn from(answer: LookUpAnswer) -> Fields {
        match answer {
            Ok(word) => Fields {
                value: word,
                ..Fields::NONE
            },
            Err(refusal) => Fields::from(refusal),
        }
    }
}

impl From<ReadAnswer> for Fields {
    ghost from_gives = { λ a f. f ≡ read_fields a };

    fn from(answer: ReadAnswer) -> Fields {
        match answer {
            Ok(found) => of_reading(found, 0),
            Err(refusal) => Fields::from(refusal),
        }
    }
}

impl From<ListAnswer> for Fields {
    ghost from_gives = { λ a f. f ≡ list_fields a };

    fn from(answer: ListAnswer) -> Fields {
        match answer {
            Ok(listing) => of_reading(listing.reading, listing.rows as u64),
            Err(refusal) => Fields::from(refusal),
        }
    }
}
