// The back of the table, lent from the slot of position s on: the words behind the edit are carried to their new rows, each row between
// and behind is zeroed, and the words that stay at s are put over the rest.
#![tactic(auto)]

ghost use Rattle.std.specs.Prelude.{◌+◌, ◌≤◌, ◌≡◌, true, false, length};
ghost use Rattle.back.specs.Back.{RowOf, Put, Carried, BackFits, Back};

use records::Record;

// `count` words go from `from` to `to`, the last first where they go up; those that are not held become 0. Answers how many are held. The
// loop is over places: words are read and stored in one slice, which no iterator lends twice.
fn carry_in<const UP: bool>(part: &mut [u64], from: usize, to: usize, count: usize) -> usize
    requires in_bounds { (from + count ≤ length part.old) × (to + count ≤ length part.old) }
    requires order { (UP ≡ true → from ≤ to) × (UP ≡ false → to ≤ from) }
    ensures { Carried part.old part.new from to count result }
{
    let mut c = 0;
    for i in 0..count {
        let slot = if UP { count - 1 - i } else { i };
        let word = part[from + slot];
        c += words::held_bit(word);
        part[to + slot] = words::only_held(word);
    }
    c
}

// `count` words go from `from` to `to`; the stretches may overlap. Words that stay in place are read and stored at one index, which the
// compiler sees in a call with `to` twice. `copy_within` and a pass over what it moved took 1.4 times as long.
fn carry(part: &mut [u64], from: usize, to: usize, count: usize) -> usize
    requires { (from + count ≤ length part.old) × (to + count ≤ length part.old) }
    ensures { Carried part.old part.new from to count result }
{
    if from < to {
        carry_in::<true>(part, from, to, count)
    } else if from == to {
        carry_in::<false>(part, to, to, count)
    } else {
        carry_in::<false>(part, from, to, count)
    }
}

// The words of position s that stay there, "q + examined ≤ s": those that examined nothing. There is no heap: 64 is the most rules.
fn staying_row(part: &[u64], rules: usize) -> [u64; 64]
    requires { (rules ≤ 64) × (rules ≤ length part.now) }
    ensures { RowOf part.now rules result }
{
    let mut row = [Record::EMPTY; 64];
    row[..rules].copy_from_slice(&part[..rules]);
    words::keep_row(&mut row, 0);
    row
}

// "the first case winning": the words that stay are put over those that came. Answers how many pairs more are held. They are stored by
// index: of words written through `iter_mut` in a `zip` a proof knows nothing.
fn put_row(part: &mut [u64], row: &[u64]) -> usize
    requires { (length row.now ≤ 64) × (length row.now ≤ length part.old) }
    ensures { Put row.now part.old part.new (length row.now) result }
{
    let mut c = 0;
    for (rule, &stays) in row.iter().enumerate() {
        let old = part[rule];
        let word = words::first_held(stays, old);
        c = c + words::held_bit(word) - words::held_bit(old);
        part[rule] = word;
    }
    c
}

// All words from position s on: `gone` words give way to `new` ones, and the `tail` words behind them are carried. Answers how many are
// held.
pub fn edit_back(part: &mut [u64], rules: usize, gone: usize, new: usize, tail: usize) -> usize
    requires { BackFits rules gone new tail (length part.old) }
    ensures { Back rules gone new tail part.old part.new result }
{
    let row = staying_row(part, rules);
    let carried = carry(part, gone, new, tail);
    buffers::clear(&mut part[..new]);
    let end = new + tail;
    buffers::clear(&mut part[end..]);
    carried + put_row(part, &row[..rules])
}
