// The well-formed set, and question 7: "Is every node in the well-formed set?" There is no heap: 1,024 is the most nodes.
ghost use Rattle.std.specs.Prelude.{◌≡◌, ◌↔◌, IsTrue};
ghost use Rattle.grammar.specs.Questions.{Question7};
ghost use Rattle.rounds.specs.Rounds.{formed_nodes, Outcomes, Formed};

use crate::order::Rounds;

impl Rounds<'_> {
    // The nodes that the rounds leave. "The rounds stop at the first that adds nothing." The two loops stand in each other and share no
    // function with `outcome_sets`, since document 01 asks here for a labelled loop over rounds with nodes inside.
    pub fn formed_nodes(&self, known: &[u8; 1024]) -> [bool; 1024]
        requires { Outcomes self.now.all.now.image.now known.now }
        ensures { result ≡ formed_nodes self.now.all.now.image.now known.now self.now.order.now }
    {
        let mut formed = [false; 1024];
        'rounds: loop {
            let mut added = false;
            for node in self.order {
                let n = usize::from(*node);
                if !formed[n] && self.all.joins(known, &formed, n) {
                    formed[n] = true;
                    added = true;
                }
            }
            if !added {
                break 'rounds;
            }
        }
        formed
    }

    // Question 7: whether every node is marked.
    pub fn all_formed(&self, formed: &[bool; 1024]) -> bool
        requires { Formed self.now.all.now.image.now formed.now }
        ensures { IsTrue result ↔ Question7 self.now.all.now.image.now }
    {
        formed[..self.all.count].iter().all(|&marked| marked)
    }
}
