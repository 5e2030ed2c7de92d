// The walk that lists rows. "the calls that made the match, parents first, left to right": a call is entered where its record says
// that it matched and the window touches it. `left` is the remaining allowance of nesting, as in a reading. A step answers with the length
// of a match, or none for a failure. A listing of nesting 4,096 fits in a thread of 2 MiB. A step takes window, depth and allowance one by
// one: each changes at another step, so a struct of the three would be made anew at each. As such they cost a listing 1.18 of the time and
// 1.34 of the stack. A step asks that a node's number is below 4,096 as the evaluator's methods do.
ghost use Rattle.std.specs.Prelude.{◌+◌, ◌<◌, ◌≡◌, length};
ghost use Rattle.grammar.specs.declared.node.Node.TheVariants.{Sequence, Choice, Star, NotPredicate};
ghost use Rattle.listing.specs.Gives.{Steady, Kept, Walks, nodes_of, parts_of, rules_of, start_of, inside_of, nowhere};
ghost use Rattle.listing.specs.Listed.{Passed};

use crate::bytes;
use crate::slots::{Row, Window};
use crate::state::Walk;
use grammar::{Node, Refusal};
use loaded::Body;
use memo::Pair;
use records::Record;

impl<'a> Walk<'a> {
    // A node at a position.
    #[cycle(walk)]
    fn walk_node(
        &mut self,
        node: usize,
        at: usize,
        window: Window,
        depth: usize,
        left: usize,
    ) -> Result<Option<usize>, Refusal>
        requires { Steady self.old.text.now at depth left × (node < 4096) }
        ensures kept { Kept self.old self.new }
        ensures gives { Walks self.old result self.new (nodes_of self.old left node) at window depth }
    {
        if left == 0 {
            return Err(Refusal::Nesting);
        }
        let fields = image::node_of(self.grammar.words[node]);
        match Node::from(fields) {
            Node::Empty => Ok(Some(0)),
            Node::Text(terminal) => Ok(bytes::leaf(self.text, terminal, at)),
            Node::Sequence(a, b) => self.walk_sequence(a, b, at, window, depth, left - 1),
            Node::Choice(a, b) => self.walk_choice(a, b, at, window, depth, left - 1),
            Node::Star(a) => self.walk_star(a, at, window, depth, left - 1),
            Node::NotPredicate(a) => self.walk_not(a, at, depth, left - 1),
            Node::Call(rule) => {
                let body = Body {
                    rule,
                    root: fields.b,
                };
                self.walk_rule(body, at, window, depth, left - 1)
            }
            // No accepted image has such a node. A walk is refused with 12, 14 or 15 alone.
            Node::Unlawful => Err(Refusal::Records),
        }
    }

    // A then B. What fails or is refused ends it.
    #[cycle(walk)]
    fn walk_sequence(
        &mut self,
        a: usize,
        b: usize,
        at: usize,
        window: Window,
        depth: usize,
        left: usize,
    ) -> Result<Option<usize>, Refusal>
        requires { Steady self.old.text.now at depth (left + 1) × (a < 4096) × (b < 4096) }
        ensures kept { Kept self.old self.new }
        ensures gives { Walks self.old result self.new (inside_of self.old left b (Sequence a b)) at window depth }
    {
        let Some(x) = self.walk_node(a, at, window, depth, left)? else {
            return Ok(None);
        };
        let Some(y) = self.walk_node(b, at + x, window, depth, left)? else {
            return Ok(None);
        };
        Ok(Some(x + y))
    }

    // A else B.
    #[cycle(walk)]
    fn walk_choice(
        &mut self,
        a: usize,
        b: usize,
        at: usize,
        window: Window,
        depth: usize,
        left: usize,
    ) -> Result<Option<usize>, Refusal>
        requires { Steady self.old.text.now at depth (left + 1) × (a < 4096) × (b < 4096) }
        ensures kept { Kept self.old self.new }
        ensures gives { Walks self.old result self.new (inside_of self.old left b (Choice a b)) at window depth }
    {
        if let Some(x) = self.walk_part(a, at, window, depth, left)? {
            return Ok(Some(x));
        }
        self.walk_node(b, at, window, depth, left)
    }

    // Not A: only looked at.
    #[cycle(walk)]
    fn walk_not(
        &mut self,
        a: usize,
        at: usize,
        depth: usize,
        left: usize,
    ) -> Result<Option<usize>, Refusal>
        requires { Steady self.old.text.now at depth (left + 1) × (a < 4096) }
        ensures kept { Kept self.old self.new }
        ensures gives { Walks self.old result self.new (inside_of self.old left 0 (NotPredicate a)) at nowhere depth }
    {
        match self.walk_node(a, at, Window::past(self.text), depth, left)? {
            Some(_) => Ok(None),
            None => Ok(Some(0)),
        }
    }

    // A zero or more times: rounds until one fails.
    #[cycle(walk)]
    fn walk_star(
        &mut self,
        a: usize,
        at: usize,
        window: Window,
        depth: usize,
        left: usize,
    ) -> Result<Option<usize>, Refusal>
        requires { Steady self.old.text.now at depth (left + 1) × (a < 4096) }
        ensures kept { Kept self.old self.new }
        ensures gives { Walks self.old result self.new (inside_of self.old left 0 (Star a)) at window depth }
    {
        let mut before = 0usize;
        loop {
            let Some(x) = self.walk_part(a, at + before, window, depth, left)? else {
                return Ok(Some(before));
            };
            if x == 0 {
                return Err(Refusal::Records);
            }
            before += x;
        }
    }

    // A node that may fail: looked at first, then walked where it matched and the window touches it.
    #[cycle(walk)]
    fn walk_part(
        &mut self,
        a: usize,
        at: usize,
        window: Window,
        depth: usize,
        left: usize,
    ) -> Result<Option<usize>, Refusal>
        requires { Steady self.old.text.now at depth left × (a < 4096) }
        ensures kept { Kept self.old self.new }
        ensures gives { Walks self.old result self.new (parts_of self.old left a) at window depth }
    {
        let Some(x) = self.walk_node(a, at, Window::past(self.text), depth, left)? else {
            return Ok(None);
        };
        if !window.touches(at, x) {
            return Ok(Some(x));
        }
        self.walk_node(a, at, window, depth, left)
    }

    // A rule at a position: its record, its row, and the rows of its body.
    #[cycle(walk)]
    fn walk_rule(
        &mut self,
        body: Body,
        at: usize,
        window: Window,
        depth: usize,
        left: usize,
    ) -> Result<Option<usize>, Refusal>
        requires { Steady self.old.text.now at depth (left + 1) }
        ensures kept { Kept self.old self.new }
        ensures gives { Walks self.old result self.new (rules_of self.old left body.root body.rule) at window depth }
    {
        let pair = Pair {
            rules: self.grammar.rules,
            rule: body.rule,
            position: at,
        };
        let word = pair.look(self.table);
        if !records::is_held(word) {
            return Err(Refusal::Records);
        }
        let Some(held) = Record::from_word(word, at, self.text.len()) else {
            return Err(Refusal::Records);
        };
        if !held.matched {
            return Ok(None);
        }
        let length = held.length;
        if !window.touches(at, length) {
            return Ok(Some(length));
        }
        if self.room <= self.count {
            return Err(Refusal::Rows);
        }
        let row = Row {
            rule: body.rule,
            depth,
            start: at,
            length,
        };
        // Past the slots nothing is stored, so counting lends none.
        buffers::store(self.rows, self.count, u64::from(row));
        self.count += 1;
        self.walk_node(body.root, at, window, depth + 1, left)?;
        Ok(Some(length))
    }

    // The walk of the start rule over the whole text: how many rows it gives.
    #[tactic(auto, unfolding(rows::specs::Walk::start_v))]
    pub fn list(&mut self) -> Result<usize, Refusal>
        requires { self.old.count ≡ 0 }
        ensures kept { Kept self.old self.new }
        ensures passed { Passed self.old.rows.now result self.new.rows.now (start_of self.old) }
    {
        let window = Window {
            lo: 0,
            hi: self.text.len(),
        };
        self.walk_rule(self.grammar.start, 0, window, 0, Record::MAX_NESTING)?;
        Ok(self.count)
    }
}
