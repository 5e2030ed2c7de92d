// What a node's word stands for, by the kind among its fields.
ghost use Rattle.std.specs.Prelude.{◌≡◌};
ghost use Rattle.grammar.specs.Image.{node_of, range_by};

// The kinds that look at the text itself: "1 any byte", of which 02, R-5, makes one character; "2 byte from A to B inclusive", and kind 2
// with the fold bit set.
#[derive(Clone, Copy, Debug, PartialEq, Eq)]
pub enum Terminal {
    Any,
    Range(usize, usize),
    Folded(usize, usize),
}

impl Terminal {
    // Kind 2 by its zero bits, of which the lowest is the fold bit: folded where it is set.
    pub fn range(zero_bits: usize, from: usize, to: usize) -> Terminal
        ensures { result ≡ range_by zero_bits from to }
    {
        if zero_bits % 2 == 1 {
            Terminal::Folded(from, to)
        } else {
            Terminal::Range(from, to)
        }
    }
}

// "Kinds: 0 empty; 1 any byte; 2 byte from A to B inclusive; 3 A then B; 4 A, else B; 5 A zero or more times; 6 not A; 7 call of rule A."
// A number in a node is a child node, or the called rule. `Unlawful` is a kind above 7: the definitions give a meaning to every word, so
// that reading one can't fail.
#[derive(Clone, Copy, Debug, PartialEq, Eq)]
pub enum Node {
    Empty,
    Text(Terminal),
    Sequence(usize, usize),
    Choice(usize, usize),
    Star(usize),
    NotPredicate(usize),
    Call(usize),
    Unlawful,
}

// What a node's word has: "kind 4, zero 4, A 12, B 12".
#[derive(Clone, Copy)]
pub struct NodeFields {
    pub kind: usize,
    pub zero: usize,
    pub a: usize,
    pub b: usize,
}

// A match on the kind number with 8 to 15 as a range: document 01's form.
impl From<NodeFields> for Node {
    ghost from_gives = { λ f n. n ≡ node_of f };

    fn from(fields: NodeFields) -> Node {
        let a = fields.a;
        let b = fields.b;
        match fields.kind {
            0 => Node::Empty,
            1 => Node::Text(Terminal::Any),
            2 => Node::Text(Terminal::range(fields.zero, a, b)),
            3 => Node::Sequence(a, b),
            4 => Node::Choice(a, b),
            5 => Node::Star(a),
            6 => Node::NotPredicate(a),
            7 => Node::Call(a),
            8..=15 => Node::Unlawful,
            // A kind has four bits.
            _ => Node::Unlawful,
        }
    }
}
