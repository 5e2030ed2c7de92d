// What a walk goes over, and what it has given so far.
ghost use Rattle.std.specs.Prelude.{◌≤◌, length};

use loaded::LoadedGrammar;

// A loaded grammar, the text, the records, the row slots, the rows so far, and how many may be given.
#[derive(Drop)]
pub struct Walk<'a> {
    pub grammar: &'a LoadedGrammar,
    pub text: &'a [u8],
    pub table: &'a [u64],
    pub rows: &'a mut [u64],
    pub count: usize,
    pub room: usize,
    ghost short: { length text.now ≤ 65535 },
    ghost few: { count ≤ room },
}
