// "Open: copies the text, zeroes the rest of the buffer and the table; the set is empty."
ghost use Rattle.promises.specs.Promises.{OpenPromise};

use crate::questions;
use promises::OpenAnswer;

// Refused with 1 to 8, it leaves buffer and table as they were.
pub fn open(image: &[u8], text: &[u8], buffer: &mut [u8], table: &mut [u64]) -> OpenAnswer
    ensures { OpenPromise image.now text.now buffer.old table.old result buffer.new table.new }
{
    let cap = buffer.len();
    let rules = questions::asked(image, cap, text.len(), table.len())?;
    text::fill(buffer, text);
    table::clear_table(table, rules, cap);
    Ok(text.len())
}
