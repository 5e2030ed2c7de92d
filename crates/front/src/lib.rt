// The front of the table: the rows of positions before s. There a pair stands where its record examined nothing from s on.
#![tactic(auto)]

ghost use Rattle.std.specs.Prelude.{◌*◌, ◌≤◌, ◌≡◌, length};
ghost use Rattle.std.specs.List.{All};
ghost use Rattle.front.specs.Front.{KeptRows};

mod scan;

// The rows of a block and of a group in it.
const SIZES: [usize; 2] = [64, 4];

// Row by row; s counts from the first of the rows. They are cut out by index: of words written through `chunks_mut` a proof knows nothing.
fn keep_rows(part: &mut [u64], rules: usize, rows: usize, s: usize) -> usize
    requires { (1 ≤ rules) × (rows ≤ s) × (length part.old ≡ rows * rules) }
    ensures { KeptRows rules s 0 part.old part.new (rows * rules) result }
{
    let mut c = 0;
    for row in 0..rows {
        let from = row * rules;
        c += words::keep_row(&mut part[from..from + rules], s - row);
    }
    c
}

// Piece by piece, each of as many rows as the first size says. Where a scan shows that every word of a piece stays, nothing is stored;
// any other piece is cut by the sizes after the first, and with none left row by row. Pieces are cut out by index, as rows are.
fn keep_pieces(part: &mut [u64], rules: usize, rows: usize, s: usize, sizes: &[usize]) -> usize
    requires { (1 ≤ rules) × (rows ≤ s) × (length part.old ≡ rows * rules) × All (λ size. 1 ≤ size) sizes.now }
    ensures { KeptRows rules s 0 part.old part.new (rows * rules) result }
{
    let [size, smaller @ ..] = sizes else {
        return keep_rows(part, rules, rows, s);
    };
    let mut c = 0;
    for piece in 0..rows.div_ceil(*size) {
        let row = piece * *size;
        let next = (rows - row).min(*size);
        let from = row * rules;
        let words = &mut part[from..from + next * rules];
        c += match scan::held_if_all_stay(words, s - (row + next - 1)) {
            Some(held) => held,
            None => keep_pieces(words, rules, next, s - row, smaller),
        };
    }
    c
}

// All rows of positions before s, block by block.
pub fn keep_front(part: &mut [u64], rules: usize, s: usize) -> usize
    requires { (1 ≤ rules) × (length part.old ≡ s * rules) }
    ensures { KeptRows rules s 0 part.old part.new (s * rules) result }
{
    keep_pieces(part, rules, s, s, &SIZES)
}
