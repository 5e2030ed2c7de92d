// The rows of a start pair over records: counted first, and written only where they fit.
ghost use Rattle.std.specs.Prelude.{◌≤◌, length};
ghost use Rattle.listing.specs.Listed.{ListedIn};

use crate::state::Walk;
use grammar::Refusal;
use loaded::LoadedGrammar;

// "Counting ends at the first row too many". Text, table and slots come one by one, as C lends them.
pub fn list_in(
    grammar: &LoadedGrammar,
    text: &[u8],
    table: &[u64],
    rows: &mut [u64],
) -> Result<usize, Refusal>
    requires { length text.now ≤ 65535 }
    ensures { ListedIn grammar.now text.now table.now rows.old result rows.new }
{
    let room = rows.len();
    let mut counting = Walk {
        grammar,
        text,
        table,
        rows: &mut [],
        count: 0,
        room,
    };
    counting.list()?;
    let mut writing = Walk {
        grammar,
        text,
        table,
        rows,
        count: 0,
        room,
    };
    writing.list()
}
