// The outcome sets of a node by its kind, from the sets of its A and B: a visit looks one entry up. With a branch by
// kind the check of the worst-order image missed its bar (docs/BENCHMARKS.md).
ghost use Rattle.std.specs.Prelude.{◌<◌, ◌≡◌};
ghost use Rattle.visits.specs.Sets.{set_of_kind};

// In each table the row is the set of B and the column the set of A.
const EMPTY: [[u8; 8]; 8] = [[1; 8]; 8];

const BYTE: [[u8; 8]; 8] = [[6; 8]; 8];

// "A then B"
const THEN: [[u8; 8]; 8] = [
    [0, 0, 0, 0, 4, 4, 4, 4],
    [0, 1, 2, 3, 4, 5, 6, 7],
    [0, 2, 2, 2, 4, 6, 6, 6],
    [0, 3, 2, 3, 4, 7, 6, 7],
    [0, 4, 4, 4, 4, 4, 4, 4],
    [0, 5, 6, 7, 4, 5, 6, 7],
    [0, 6, 6, 6, 4, 6, 6, 6],
    [0, 7, 6, 7, 4, 7, 6, 7],
];

// "A else B"
const ELSE: [[u8; 8]; 8] = [
    [0, 1, 2, 3, 0, 1, 2, 3],
    [0, 1, 2, 3, 1, 1, 3, 3],
    [0, 1, 2, 3, 2, 3, 2, 3],
    [0, 1, 2, 3, 3, 3, 3, 3],
    [0, 1, 2, 3, 4, 5, 6, 7],
    [0, 1, 2, 3, 5, 5, 7, 7],
    [0, 1, 2, 3, 6, 7, 6, 7],
    [0, 1, 2, 3, 7, 7, 7, 7],
];

// "Star"
const STAR: [[u8; 8]; 8] = [[0, 0, 2, 2, 1, 1, 3, 3]; 8];

// "Not"
const NOT: [[u8; 8]; 8] = [[0, 4, 4, 4, 1, 5, 5, 5]; 8];

// A call has the outcomes of its root, which is its B.
const CALL: [[u8; 8]; 8] = [
    [0; 8], [1; 8], [2; 8], [3; 8], [4; 8], [5; 8], [6; 8], [7; 8],
];

// All of them, by kind.
static SETS: [[[u8; 8]; 8]; 8] = [EMPTY, BYTE, BYTE, THEN, ELSE, STAR, NOT, CALL];

// The set of a node of a kind whose A and B have these sets.
pub fn set_of_kind(kind: usize, a: u8, b: u8) -> u8
    requires { (kind < 8) × (a < 8) × (b < 8) }
    ensures { result ≡ set_of_kind kind a b }
{
    SETS[kind][usize::from(b)][usize::from(a)]
}
