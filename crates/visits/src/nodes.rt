// The nodes of a lawful image, read once for all rounds.
ghost use Rattle.std.specs.Prelude.{◌<◌, ◌≡◌};
ghost use Rattle.grammar.specs.Image.{node, nodes};
ghost use Rattle.grammar.specs.Questions.{Lawful};
ghost use Rattle.image.specs.Linked.{LinkedWords, Linked};
ghost use Rattle.rounds.specs.Visits.{gathered, formed_from};
ghost use Rattle.visits.specs.Sets.{OnlySets};

use crate::{sets, table};
use grammar::{Node, NodeFields};

// The image with its nodes' words, in which a call's B is the root of its rule. There is no heap: 1,024 is the most nodes. They stay words,
// as in a loaded grammar: decoded they would take six times the room.
#[derive(Drop)]
pub struct Nodes<'a> {
    pub image: &'a [u8],
    pub count: usize,
    words: [u32; 1024],
    ghost lawful: { Lawful image.now },
    ghost counted: { count ≡ nodes image.now },
    ghost linked: { LinkedWords image.now words },
}

impl<'a> Nodes<'a> {
    // The nodes of an image.
    pub fn of(image: &'a [u8]) -> Nodes<'a>
        requires { Lawful image.now }
        ensures { result.image.now ≡ image.now }
    {
        let header = image::header_of(image);
        let mut words = [0u32; 1024];
        image::link_words(image, &mut words);
        Nodes {
            image,
            count: header.nodes,
            words,
        }
    }

    // The fields of node n; B of a call is the root of its rule.
    fn fields(&self, n: usize) -> NodeFields
        requires { n < nodes self.now.image.now }
        ensures { Linked self.now.image.now n result }
    {
        image::node_of(self.words[n])
    }

    // The outcomes of node n, from the sets known so far. The kind is a place in the table.
    pub fn outcomes(&self, known: &[u8; 1024], n: usize) -> u8
        requires { (n < nodes self.now.image.now) × OnlySets known.now }
        ensures { result ≡ gathered self.now.image.now known.now (node self.now.image.now n) }
    {
        let fields = self.fields(n);
        table::set_of_kind(fields.kind, known[fields.a], known[fields.b])
    }

    // Whether node n joins the well-formed set, given its outcome sets and the nodes found well formed so far.
    pub fn joins(&self, known: &[u8; 1024], formed: &[bool; 1024], n: usize) -> bool
        requires { n < nodes self.now.image.now }
        ensures { result ≡ formed_from self.now.image.now known.now formed.now (node self.now.image.now n) }
    {
        let fields = self.fields(n);
        match Node::from(fields) {
            Node::Empty | Node::Text(_) => true,
            Node::Sequence(a, b) => formed[a] & (!sets::has_empty(known[a]) | formed[b]),
            Node::Choice(a, b) => formed[a] & formed[b],
            Node::Star(a) => formed[a] & !sets::has_empty(known[a]),
            Node::NotPredicate(a) => formed[a],
            Node::Call(_) => formed[fields.b],
            Node::Unlawful => false,
        }
    }
}
