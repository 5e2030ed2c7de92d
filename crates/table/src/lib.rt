// The memo table in its lent words, the first rules × (cap + 1) of them. `TableLent` is a `requires` and not the invariant of a type: a
// host lends the words as a slice for one call, and sheet passes the slice on to readings and listings too, so that a type would be made and
// taken apart in each call.
#![tactic(auto)]

ghost use Rattle.std.specs.Prelude.{◌≡◌};
ghost use Rattle.editing.specs.Text.{EditFits};
ghost use Rattle.editing.specs.Table.{TableLent, cleared_table, words_after, table_after, held_in};

use text::Edit;

// "zeroes the rest of the buffer and the table"
pub fn clear_table(table: &mut [u64], rules: usize, cap: usize)
    requires { TableLent rules cap table.old }
    ensures { table.new ≡ cleared_table rules cap table.old }
{
    let size = rules * (cap + 1);
    buffers::clear(&mut table[..size]);
}

// The table after the edit of a text. Answers the number of pairs standing.
pub fn edit_table(table: &mut [u64], rules: usize, cap: usize, edit: &Edit) -> usize
    requires table_lent { TableLent rules cap table.old }
    requires edit_fits { EditFits cap edit.now.n edit.now.s edit.now.e edit.now.k }
    ensures standing { result ≡ held_in (words_after rules cap edit.now.n edit.now.s edit.now.e edit.now.k table.old) }
    ensures after { table.new ≡ table_after rules cap edit.now.n edit.now.s edit.now.e edit.now.k table.old }
{
    let size = rules * (cap + 1);
    let from = edit.s * rules;
    let kept = front::keep_front(&mut table[..from], rules, edit.s);
    let gone = edit.gone() * rules;
    let new = edit.k * rules;
    let tail = (edit.behind() + 1) * rules;
    kept + back::edit_back(&mut table[from..size], rules, gone, new, tail)
}
