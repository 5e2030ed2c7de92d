// A reading over the lent words, for a call that passed questions 1 to 8: "Listing makes a reading" too.
ghost use Rattle.std.specs.Prelude.{◌≡◌, length};
ghost use Rattle.grammar.specs.Questions.{Accepted};
ghost use Rattle.packrat.specs.Session.{start_run};
ghost use Rattle.promises.specs.Questions.{Question8};
ghost use Rattle.promises.specs.Run.{answer_of, words_of};

use promises::{ReadAnswer, SheetReading};
use reading::pair::StartPair;
use reading::plain;

// Of a text in a buffer of cap bytes. Refused, the table becomes 0: "zeroes the table with 12 and 14".
pub fn make_reading(image: &[u8], text: &[u8], table: &mut [u64], cap: usize) -> ReadAnswer
    requires accepted { Accepted image.now }
    requires loan { Question8 image.now cap (length text.now) (length table.old) }
    ensures answer { result ≡ answer_of (length text.now) (start_run image.now text.now table.old 0) }
    ensures words { table.new ≡ words_of image.now cap (start_run image.now text.now table.old 0) }
{
    let mut pair = StartPair {
        image,
        text,
        table,
        count: 0,
    };
    match pair.word() {
        Ok(word) => {
            let found = plain::reading_of(word, text.len());
            Ok(SheetReading {
                outcome: found.outcome,
                length: found.length,
                examined: found.examined,
                nesting: found.nesting,
                evaluations: pair.count,
            })
        }
        Err(refusal) => {
            let header = image::header_of(image);
            table::clear_table(table, header.rules, cap);
            Err(refusal)
        }
    }
}
