// Question 4: "Is every word lawful: zero bits and unused fields 0, kind 0 to 7, A ≤ B ≤ 255 in kind 2, references in range,
// children above parents?" "Question 4 allows the bit [the fold bit] in kind 2 only." (02, R-1)
//
// Each function takes what its definition in specs/Words.antt takes: a struct of a node's number and fields would lend more to most of
// them.
ghost use Rattle.std.specs.Prelude.{ℕ, ◌<◌, ◌↔◌, IsTrue};
ghost use Rattle.grammar.specs.Image.{rules, nodes};
ghost use Rattle.grammar.specs.Questions.{Question4, LawfulRule, LawfulNode};
ghost use Rattle.lawful.specs.Words.{ZeroBits, Child, Unused, ByteRange, TwoChildren, OneChild, CallOf};

// Whether the word of rule r is lawful: its zero bits are 0, its root is a node.
fn rule_lawful(image: &[u8], r: usize) -> bool
    ensures { IsTrue result ↔ LawfulRule image.now r }
{
    let header = image::header_of(image);
    let word = image::rule_at(image, r);
    word.zero == 0 && word.root < header.nodes
}

fn rules_lawful(image: &[u8]) -> bool
    ensures { IsTrue result ↔ ((r : ℕ) → r < rules image.now → LawfulRule image.now r) }
{
    let header = image::header_of(image);
    (0..header.rules).all(|r| rule_lawful(image, r))
}

// Whether a field of node n can be a child: a node's number above n.
fn child_lawful(image: &[u8], n: usize, field: usize) -> bool
    ensures { IsTrue result ↔ Child image.now n field }
{
    let header = image::header_of(image);
    n < field && field < header.nodes
}

// The zero bits of a node's word, of which kind 2 may have the fold bit. The kind is a number as in `node_lawful`.
fn zero_bits_lawful(kind: usize, zero: usize) -> bool
    ensures { IsTrue result ↔ ZeroBits kind zero }
{
    zero == 0 || kind == 2 && zero <= 1
}

// Kinds 0 and 1: neither field is used.
fn fields_unused(a: usize, b: usize) -> bool
    ensures { IsTrue result ↔ Unused a b }
{
    a == 0 && b == 0
}

// Kind 2: "A ≤ B ≤ 255".
fn range_lawful(a: usize, b: usize) -> bool
    ensures { IsTrue result ↔ ByteRange a b }
{
    a <= b && b <= 255
}

// Kinds 3 and 4: two children.
fn children_lawful(image: &[u8], n: usize, a: usize, b: usize) -> bool
    ensures { IsTrue result ↔ TwoChildren image.now n a b }
{
    child_lawful(image, n, a) && child_lawful(image, n, b)
}

// Kinds 5 and 6: one child.
fn only_child_lawful(image: &[u8], n: usize, a: usize, b: usize) -> bool
    ensures { IsTrue result ↔ OneChild image.now n a b }
{
    child_lawful(image, n, a) && b == 0
}

// Kind 7: A is a rule.
fn call_lawful(image: &[u8], a: usize, b: usize) -> bool
    ensures { IsTrue result ↔ CallOf image.now a b }
{
    let header = image::header_of(image);
    a < header.rules && b == 0
}

// Whether the word of node n is lawful: its zero bits and its fields are as its kind has them.
fn node_lawful(image: &[u8], n: usize) -> bool
    ensures { IsTrue result ↔ LawfulNode image.now n }
{
    let word = image::node_at(image, n);
    if !zero_bits_lawful(word.kind, word.zero) {
        return false;
    }
    // Kinds as numbers: the question is about fields that a node leaves out.
    match word.kind {
        0 | 1 => fields_unused(word.a, word.b),
        2 => range_lawful(word.a, word.b),
        3 | 4 => children_lawful(image, n, word.a, word.b),
        5 | 6 => only_child_lawful(image, n, word.a, word.b),
        7 => call_lawful(image, word.a, word.b),
        8..=15 => false,
        _ => false,
    }
}

fn nodes_lawful(image: &[u8]) -> bool
    ensures { IsTrue result ↔ ((n : ℕ) → n < nodes image.now → LawfulNode image.now n) }
{
    let header = image::header_of(image);
    (0..header.nodes).all(|n| node_lawful(image, n))
}

// Whether the words of all rules and nodes are lawful.
pub fn words_lawful(image: &[u8]) -> bool
    ensures { IsTrue result ↔ Question4 image.now }
{
    rules_lawful(image) && nodes_lawful(image)
}
