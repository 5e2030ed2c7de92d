// Question 5: "Does each node occur exactly once among roots and children?"
ghost use Rattle.std.specs.Prelude.{◌<◌, ◌≡◌, ◌↔◌, [], ◌∷◌, IsTrue};
ghost use Rattle.grammar.specs.Image.{node, nodes, children};
ghost use Rattle.grammar.specs.Questions.{Question2, Question4, Question5};
ghost use Rattle.lawful.specs.Tally.{Tallied, RootsTallied, ChildrenTallied};

use grammar::Node;

// An image that passed questions 2 and 4, and how often each of its nodes was met: 255 stands for 255 or more. There is no heap: 1,024 is
// the most nodes.
#[derive(Drop)]
struct Tally<'a> {
    image: &'a [u8],
    counts: [u8; 1024],
    ghost counted: { Question2 image.now },
    ghost worded: { Question4 image.now },
}

impl<'a> Tally<'a> {
    // Counts one occurrence of node n.
    fn meet(&mut self, n: usize)
        requires { n < 1024 }
        ensures kept { self.new.image ≡ self.old.image }
        ensures met { Tallied self.old.counts self.new.counts (n ∷ []) }
    {
        self.counts[n] = self.counts[n].saturating_add(1);
    }

    // Counts the root of each rule. The loop is over numbers, as the next one: an image has words and no slice of rules or nodes.
    fn meet_roots(&mut self)
        ensures kept { self.new.image ≡ self.old.image }
        ensures met { RootsTallied self.old.image.now self.old.counts self.new.counts }
    {
        let header = image::header_of(self.image);
        for r in 0..header.rules {
            let word = image::rule_at(self.image, r);
            self.meet(word.root);
        }
    }

    // Counts the children of node n.
    fn meet_children_of(&mut self, n: usize)
        requires { n < nodes self.old.image.now }
        ensures kept { self.new.image ≡ self.old.image }
        ensures met { Tallied self.old.counts self.new.counts (children (node self.old.image.now n)) }
    {
        match image::node(self.image, n) {
            Node::Sequence(a, b) | Node::Choice(a, b) => {
                self.meet(b);
                self.meet(a);
            }
            Node::Star(a) | Node::NotPredicate(a) => self.meet(a),
            _ => {}
        }
    }

    // Counts the children of every node.
    fn meet_children(&mut self)
        ensures kept { self.new.image ≡ self.old.image }
        ensures met { ChildrenTallied self.old.image.now self.old.counts self.new.counts }
    {
        let header = image::header_of(self.image);
        for n in 0..header.nodes {
            self.meet_children_of(n);
        }
    }
}

// Whether each node is counted exactly once.
pub fn each_node_once(image: &[u8]) -> bool
    requires { Question2 image.now × Question4 image.now }
    ensures { IsTrue result ↔ Question5 image.now }
{
    let header = image::header_of(image);
    let mut tally = Tally {
        image,
        counts: [0u8; 1024],
    };
    tally.meet_roots();
    tally.meet_children();
    tally.counts[..header.nodes].iter().all(|&count| count == 1)
}
