// Row words and windows.
ghost use Rattle.std.specs.Prelude.{◌+◌, ◌%◌, ◌≤◌, ◌^◌, ◌≡◌, length};
ghost use Rattle.rows.specs.Rows.{row_word};
ghost use Rattle.rows.specs.Window.{touches};

// "A row is 64 bits: rule 8, zero 8, depth 16 (rows of the calls around it), start 16, length 16."
#[derive(Clone, Copy)]
pub struct Row {
    pub rule: usize,
    pub depth: usize,
    pub start: usize,
    pub length: usize,
}

// The fields of the word: how many values each has, and how much of the word 1 in it is.
const RULE_VALUES: usize = 1 << 8;

const RULE_UNIT: usize = 1 << 56;

const DEPTH_VALUES: usize = 1 << 16;

const DEPTH_UNIT: usize = 1 << 32;

const START_VALUES: usize = 1 << 16;

const START_UNIT: usize = 1 << 16;

const LENGTH_VALUES: usize = 1 << 16;

// The row's word. A field that is too wide loses its upper bits. `as` stands here since std has no `From<usize>` for `u64`.
impl From<Row> for u64 {
    ghost from_gives = { λ r w. w ≡ row_word (record { rule = r.rule % 2 ^ 8; depth = r.depth % 2 ^ 16; start = r.start % 2 ^ 16; length = r.length % 2 ^ 16 }) };

    fn from(row: Row) -> u64 {
        let calls = row.rule % RULE_VALUES * RULE_UNIT + row.depth % DEPTH_VALUES * DEPTH_UNIT;
        let place = row.start % START_VALUES * START_UNIT + row.length % LENGTH_VALUES;
        (calls + place) as u64
    }
}

// The rows from lo to hi are asked for.
#[derive(Clone, Copy)]
pub struct Window {
    pub lo: usize,
    pub hi: usize,
}

impl Window {
    // The window past a text, which touches nothing.
    pub fn past(text: &[u8]) -> Window
        ensures { result ≡ record { lo = length text.now + 1; hi = 0 } }
    {
        Window {
            lo: text.len() + 1,
            hi: 0,
        }
    }

    // Whether the window touches what starts at `at` and has that length.
    pub fn touches(self, at: usize, length: usize) -> bool
        requires { at + length ≤ 65535 }
        ensures { result ≡ touches self.lo self.hi at length }
    {
        at <= self.hi && self.lo <= at + length
    }
}
