// "Listing makes a reading, then writes the calls that made the match, parents first, left to right".
ghost use Rattle.promises.specs.Listing.{ListPromise};

use crate::{making, questions};
use grammar::Refusal;
use promises::{ListAnswer, SheetListing};

// Refused, it leaves the row slots as they were, and the table as a reading does; with 15 the reading's records stay.
pub fn list_sheet(
    image: &[u8],
    buffer: &[u8],
    n: usize,
    table: &mut [u64],
    rows: &mut [u64],
) -> ListAnswer
    ensures { ListPromise image.now buffer.now n table.old rows.old result table.new rows.new }
{
    let cap = buffer.len();
    let rules = questions::asked(image, cap, n, table.len())?;
    let text = &buffer[..n];
    let reading = making::make_reading(image, text, table, cap)?;
    match listing::start::list_over(image, text, table, rows) {
        Ok(rows) => Ok(SheetListing { reading, rows }),
        Err(refusal) => {
            if refusal != Refusal::Rows {
                table::clear_table(table, rules, cap);
            }
            Err(refusal)
        }
    }
}
