// "Edit (s, e, r), r of k bytes: bytes s to e − 1 give way to r".
ghost use Rattle.promises.specs.Promises.{EditPromise};

use crate::questions;
use grammar::Refusal;
use promises::{EditAnswer, EditedSheet};
use text::Edit;

// Refused with 1 to 10, it leaves buffer and table as they were.
pub fn edit(
    image: &[u8],
    buffer: &mut [u8],
    n: usize,
    table: &mut [u64],
    s: usize,
    e: usize,
    replacement: &[u8],
) -> EditAnswer
    ensures { EditPromise image.now buffer.old n table.old s e replacement.now result buffer.new table.new }
{
    let cap = buffer.len();
    let rules = questions::asked(image, cap, n, table.len())?;
    if e < s || n < e {
        return Err(Refusal::EditRange);
    }
    // n' itself is not computed: it could wrap for a k that no memory has.
    if cap - (n - (e - s)) < replacement.len() {
        return Err(Refusal::EditRoom);
    }
    let edit = Edit {
        n,
        s,
        e,
        k: replacement.len(),
    };
    let standing = table::edit_table(table, rules, cap, &edit);
    let length = text::edit_text(buffer, &edit, replacement);
    Ok(EditedSheet { length, standing })
}
