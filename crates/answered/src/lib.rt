// What a caller takes over from an answer: the text's length for the next call, and the number of rows.
#![tactic(auto)]

ghost use Rattle.std.specs.Prelude.{◌≡◌};
ghost use Rattle.answered.specs.After.{after_open, after_edit, rows_in};

use promises::{EditAnswer, ListAnswer, OpenAnswer};

// The length after an opening,
pub fn opened(answer: OpenAnswer, n: usize) -> usize
    ensures { result ≡ after_open answer n }
{
    answer.unwrap_or(n)
}

// after an edit,
pub fn edited(answer: EditAnswer, n: usize) -> usize
    ensures { result ≡ after_edit answer n }
{
    answer.map_or(n, |sheet| sheet.length)
}

// and the rows that a listing wrote.
pub fn rows_in(answer: ListAnswer) -> usize
    ensures { result ≡ rows_in answer }
{
    answer.map_or(0, |listing| listing.rows)
}
