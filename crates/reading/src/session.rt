// The start pair over lent records, for a reading in a session: "A reading looks a pair up before it evaluates the body, the start pair
// first".
ghost use Rattle.std.specs.Prelude.{◌≡◌, if◌then◌else◌, Ok, Err};
ghost use Rattle.grammar.specs.declared.refusal.Refusal.TheVariants.{Records};
ghost use Rattle.records.specs.Words.{possible, record_of, record_word};
ghost use Rattle.packrat.specs.Session.{StartOver};
ghost use Rattle.reading.specs.Start.{Kept};

use crate::pair::StartPair;
use grammar::Refusal;
use memo::Pair;
use records::Record;

// What a held word gives at the start of a text of n bytes: itself where it is possible, else the refusal 12.
fn met(word: u64, n: usize) -> Result<u64, Refusal>
    ensures { result ≡ (if possible word 0 n then Ok (record_word (record_of word)) else Err Records) }
{
    let Some(held) = Record::from_word(word, 0, n) else {
        return Err(Refusal::Records);
    };
    Ok(held.word())
}

impl<'a, 't> StartPair<'a, 't> {
    // Its word, or a refusal; `count` goes up by the pairs that are evaluated. The steps are those of evaluator `eval_rule`: by a call of it
    // a plain reading in the same library takes 4.5 % more instructions, a first reading 4 % (docs/DECISIONS.md, "where a reading starts").
    pub fn word(&mut self) -> Result<u64, Refusal>
        ensures kept { Kept self.old self.new }
        ensures word { StartOver self.old.image.now self.old.text.now self.old.table.now self.old.count result self.new.table.now self.new.count }
    {
        let header = image::header_of(self.image);
        let pair = Pair {
            rules: header.rules,
            rule: header.start,
            position: 0,
        };
        let table = &mut *self.table;
        let word = pair.look(table);
        if records::is_held(word) {
            return met(word, self.text.len());
        }
        let value = self.body()?;
        pair.put(self.table, value);
        self.count = self.count.wrapping_add(1);
        Ok(value)
    }
}
