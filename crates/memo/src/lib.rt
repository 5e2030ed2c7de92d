// The memo table: where a pair's record lies. A slot past the table reads as 0, and a store past it does nothing, so the evaluator
// asks no room of the table.
#![tactic(auto)]

ghost use Rattle.std.specs.Prelude.{◌≡◌, get_or, set};
ghost use Rattle.memo.specs.Pairs.{IsPair};
ghost use Rattle.records.specs.Slots.{slot_of};

use records::Record;

// A rule and a position, in a grammar of so many rules.
#[derive(Clone, Copy)]
pub struct Pair {
    pub rules: usize,
    pub rule: usize,
    pub position: usize,
    ghost is_pair: { IsPair rules rule position },
}

impl Pair {
    // "The slot of (rule, position) is position × rules + rule."
    fn slot(self) -> usize
        ensures { result ≡ slot_of self.rules self.rule self.position }
    {
        self.position * self.rules + self.rule
    }

    // The word of the pair.
    pub fn look(self, table: &[u64]) -> u64
        ensures { result ≡ get_or table.now (slot_of self.rules self.rule self.position) 0 }
    {
        table.get(self.slot()).copied().unwrap_or(Record::EMPTY)
    }

    // Stores the word of the pair.
    pub fn put(self, table: &mut [u64], word: u64)
        ensures { table.new ≡ set table.old (slot_of self.rules self.rule self.position) word }
    {
        buffers::store(table, self.slot(), word);
    }
}
