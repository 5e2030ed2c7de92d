// Question 6: "Does every star's body lack outcome 0?" And questions 1 to 6 apart from 7, with the outcome sets for a caller who asks more
// of them.
ghost use Rattle.std.specs.Prelude.{◌<◌, ◌↔◌, IsTrue};
ghost use Rattle.grammar.specs.Image.{nodes};
ghost use Rattle.rounds.specs.Rounds.{Outcomes, StarConsumes};
ghost use Rattle.checker.specs.Stars.{StarsAsked};

use crate::order::{self, Rounds};
use grammar::{Node, Refusal};
use visits::{Nodes, sets};

impl Rounds<'_> {
    // Whether node n, if it is a star, has a body that lacks outcome 0.
    fn star_consumes(&self, known: &[u8; 1024], n: usize) -> bool
        requires { Outcomes self.now.all.now.image.now known.now × (n < nodes self.now.all.now.image.now) }
        ensures { IsTrue result ↔ StarConsumes self.now.all.now.image.now n }
    {
        match image::node(self.all.image, n) {
            Node::Star(a) => !sets::has_empty(known[a]),
            _ => true,
        }
    }

    // The outcome sets, where question 6 holds of every node.
    pub fn star_sets(&self) -> Result<[u8; 1024], Refusal>
        ensures { StarsAsked self.now.all.now.image.now result }
    {
        let known = self.outcome_sets();
        if !(0..self.all.count).all(|n| self.star_consumes(&known, n)) {
            return Err(Refusal::StarBodies);
        }
        Ok(known)
    }
}

// The outcome sets; refuses an image by the first of questions 1 to 6 that it fails.
pub fn star_sets(image: &[u8]) -> Result<[u8; 1024], Refusal>
    ensures { StarsAsked image.now result }
{
    lawful::check(image)?;
    let nodes = Nodes::of(image);
    let places = order::round_order(&nodes);
    Rounds::over(&nodes, &places).star_sets()
}
