// The rows of the text over the records that a reading left, by an image.
ghost use Rattle.std.specs.Prelude.{◌≤◌, length};
ghost use Rattle.grammar.specs.Questions.{Lawful};
ghost use Rattle.listing.specs.Listed.{ListedOver};

use crate::list;
use grammar::Refusal;

// How many rows were written, or question 12, 14 or 15. "Rows past the last written stay."
pub fn list_over(
    image: &[u8],
    text: &[u8],
    table: &[u64],
    rows: &mut [u64],
) -> Result<usize, Refusal>
    requires { Lawful image.now × (length text.now ≤ 65535) }
    ensures { ListedOver image.now text.now table.now rows.old result rows.new }
{
    let grammar = loaded::load(image);
    list::list_in(&grammar, text, table, rows)
}
