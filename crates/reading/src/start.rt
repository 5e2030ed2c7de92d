// The body of the start rule over lent records. Both readings begin with the root's word, and neither with a rule: the evaluator's
// `eval_rule` then has one caller, and is compiled into `eval_word`.
ghost use Rattle.packrat.specs.Session.{BodyOver};
ghost use Rattle.reading.specs.Start.{Kept};

use crate::pair::StartPair;
use evaluator::Run;
use grammar::Refusal;
use records::Record;

impl<'a, 't> StartPair<'a, 't> {
    // The word of its rule's body, or a refusal. `count` goes up by the pairs that are evaluated, in a run that is refused too.
    pub fn body(&mut self) -> Result<u64, Refusal>
        ensures kept { Kept self.old self.new }
        ensures body { BodyOver self.old.image.now self.old.text.now self.old.table.now self.old.count result self.new.table.now self.new.count }
    {
        let grammar = loaded::load(self.image);
        let table = &mut *self.table;
        let mut run = Run {
            grammar: &grammar,
            text: self.text,
            table,
            count: self.count,
        };
        let answer = run.eval_word(grammar.words[grammar.start.root], 0, Record::MAX_NESTING);
        self.count = run.count;
        answer
    }
}
