// The evaluator, for sessions and for the plain reading, which lends it an empty table: "Nodes call rules and rules evaluate nodes, in
// turn." A method for each kind that has something inside stands between the two. `left` is the remaining allowance of nesting: it falls
// by one from a node to what is evaluated inside it, and not from a rule to its body. An answer is a record word, or a refusal. Each
// method asks that a node's number is below 4,096: a type with that bound would stand in `Node`, and so in every definition over nodes,
// and each index would take the number out of it again. A rule comes with its body's root, in a `Body`, whose numbers have the bound.
#![tactic(auto)]

mod run;

ghost use Rattle.std.specs.Prelude.{◌+◌, ◌-◌, ◌<◌};
ghost use Rattle.grammar.specs.declared.node.Node.TheVariants.{Sequence, Choice, Star, NotPredicate, Call};
ghost use Rattle.evaluator.specs.Runs.{node_run, word_run, kind_run, rule_run, Ready, Kept, Gives};

use grammar::{Node, Refusal};
use loaded::Body;
use memo::Pair;
use records::Record;
pub use run::Run;

impl<'a, 't> Run<'a, 't> {
    // A node at a position. A byte range without the fold bit and an ASCII character are answered here, by the first byte of the word:
    // measured, it saves the call that most visits would end in (02, R-5): without it dots took 1.10 to 1.21 of the time.
    #[cycle(eval)]
    fn eval_node(&mut self, node: usize, at: usize, left: usize) -> Result<u64, Refusal>
        requires { Ready self.old at left × (node < 4096) }
        ensures kept { Kept self.old self.new }
        ensures gives { Gives self.old at left (node_run self.old left node) result self.new }
    {
        if left == 0 {
            return Err(Refusal::Nesting);
        }
        let word = self.grammar.words[node];
        let first = image::first_byte(word);
        if first <= image::PLAIN_RANGE {
            if first == image::PLAIN_RANGE {
                let fields = image::node_of(word);
                return Ok(terminals::byte_between(self.text, fields.a, fields.b, at));
            }
            if first == image::ANY {
                if terminals::characters::is_ascii(self.text, at) {
                    return Ok(terminals::ONE_BYTE);
                }
            }
        }
        self.eval_word(word, at, left)
    }

    // A node's word at a position, by what it stands for.
    #[cycle(eval)]
    pub fn eval_word(&mut self, word: u32, at: usize, left: usize) -> Result<u64, Refusal>
        requires { Ready self.old at left × (0 < left) }
        ensures kept { Kept self.old self.new }
        ensures gives { Gives self.old at left (word_run self.old (left - 1) word) result self.new }
    {
        let fields = image::node_of(word);
        match Node::from(fields) {
            Node::Empty => Ok(answers::EMPTY_HERE),
            Node::Text(terminal) => Ok(terminals::terminal(self.text, terminal, at)),
            Node::Sequence(a, b) => self.eval_sequence(a, b, at, left - 1),
            Node::Choice(a, b) => self.eval_choice(a, b, at, left - 1),
            Node::Star(a) => self.eval_star(a, at, left - 1),
            Node::NotPredicate(a) => self.eval_not(a, at, left - 1),
            Node::Call(rule) => {
                let body = Body {
                    rule,
                    root: fields.b,
                };
                self.eval_call(body, at, left - 1)
            }
            Node::Unlawful => Err(Refusal::Words),
        }
    }

    // A then B.
    #[cycle(eval)]
    fn eval_sequence(&mut self, a: usize, b: usize, at: usize, left: usize) -> Result<u64, Refusal>
        requires { Ready self.old at (left + 1) × (a < 4096) × (b < 4096) }
        ensures kept { Kept self.old self.new }
        ensures gives { Gives self.old at (left + 1) (kind_run self.old left b (Sequence a b)) result self.new }
    {
        let x = self.eval_node(a, at, left)?;
        if !records::matched_of(x) {
            return Ok(answers::first_failed(x));
        }
        let y = self.eval_node(b, at + records::length_of(x), left)?;
        Ok(answers::in_sequence(x, y))
    }

    // A else B.
    #[cycle(eval)]
    fn eval_choice(&mut self, a: usize, b: usize, at: usize, left: usize) -> Result<u64, Refusal>
        requires { Ready self.old at (left + 1) × (a < 4096) × (b < 4096) }
        ensures kept { Kept self.old self.new }
        ensures gives { Gives self.old at (left + 1) (kind_run self.old left b (Choice a b)) result self.new }
    {
        let x = self.eval_node(a, at, left)?;
        if records::matched_of(x) {
            return Ok(answers::taken_over(x));
        }
        let y = self.eval_node(b, at, left)?;
        Ok(answers::second_choice(x, y))
    }

    // Not A.
    #[cycle(eval)]
    fn eval_not(&mut self, a: usize, at: usize, left: usize) -> Result<u64, Refusal>
        requires { Ready self.old at (left + 1) × (a < 4096) }
        ensures kept { Kept self.old self.new }
        ensures gives { Gives self.old at (left + 1) (kind_run self.old left 0 (NotPredicate a)) result self.new }
    {
        let x = self.eval_node(a, at, left)?;
        Ok(answers::negated_answer(x))
    }

    // A zero or more times: rounds until one fails, so that how many there are is not known before (`loop`). A matched round of length 0
    // gets refusal 12.
    #[cycle(eval)]
    fn eval_star(&mut self, a: usize, at: usize, left: usize) -> Result<u64, Refusal>
        requires { Ready self.old at (left + 1) × (a < 4096) }
        ensures kept { Kept self.old self.new }
        ensures gives { Gives self.old at (left + 1) (kind_run self.old left 0 (Star a)) result self.new }
    {
        let mut consumed = 0usize;
        let mut examined = 0usize;
        let mut deepest = 0usize;
        loop {
            let x = self.eval_node(a, at + consumed, left)?;
            examined = examined.max(consumed + records::examined_of(x));
            deepest = deepest.max(records::nesting_of(x));
            if !records::matched_of(x) {
                return Ok(answers::answer(true, 1 + deepest, examined, consumed));
            }
            let length = records::length_of(x);
            if length == 0 {
                return Err(Refusal::Records);
            }
            consumed = consumed + length;
        }
    }

    // A call of a rule.
    #[cycle(eval)]
    fn eval_call(&mut self, body: Body, at: usize, left: usize) -> Result<u64, Refusal>
        requires { Ready self.old at (left + 1) }
        ensures kept { Kept self.old self.new }
        ensures gives { Gives self.old at (left + 1) (kind_run self.old left body.root (Call body.rule)) result self.new }
    {
        let x = self.eval_rule(body, at, left)?;
        Ok(answers::taken_over(x))
    }

    // A rule at a position: its pair is looked up before its body is evaluated.
    #[cycle(eval)]
    fn eval_rule(&mut self, body: Body, at: usize, left: usize) -> Result<u64, Refusal>
        requires { Ready self.old at left }
        ensures kept { Kept self.old self.new }
        ensures gives { Gives self.old at left (rule_run self.old left body.root body.rule) result self.new }
    {
        let pair = Pair {
            rules: self.grammar.rules,
            rule: body.rule,
            position: at,
        };
        let table = &mut *self.table;
        let word = pair.look(table);
        if records::is_held(word) {
            let Some(held) = Record::from_word(word, at, self.text.len()) else {
                return Err(Refusal::Records);
            };
            if left < held.nesting {
                return Err(Refusal::Nesting);
            }
            return Ok(held.word());
        }
        let value = self.eval_node(body.root, at, left)?;
        pair.put(self.table, value);
        self.count = self.count.wrapping_add(1);
        Ok(value)
    }
}
