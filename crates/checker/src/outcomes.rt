// The outcome sets of all nodes. There is no heap: 1,024 is the most nodes.
ghost use Rattle.std.specs.Prelude.{◌≡◌};
ghost use Rattle.rounds.specs.Visits.{gather_at};
ghost use Rattle.rounds.specs.Rounds.{round, RoundMade, Sound, outcome_sets};

use crate::order::Rounds;
use visits::sets;

impl Rounds<'_> {
    // One round, and whether it added anything.
    fn outcome_round(&self, known: &mut [u8; 1024]) -> bool
        requires { Sound self.now.all.now.image.now known.old }
        ensures { RoundMade (round (gather_at self.now.all.now.image.now) self.now.order.now known.old) known.old known.new result }
    {
        let mut added = false;
        for node in self.order {
            let n = usize::from(*node);
            let old = known[n];
            // A full set gains nothing.
            if old != 7 {
                let new = sets::join(old, self.all.outcomes(known, n));
                if new != old {
                    known[n] = new;
                    added = true;
                }
            }
        }
        added
    }

    // The sets that the rounds leave. "The rounds stop at the first that adds nothing." The labelled loop is document 01's form.
    pub fn outcome_sets(&self) -> [u8; 1024]
        ensures { result ≡ outcome_sets self.now.all.now.image.now self.now.order.now }
    {
        let mut known = [0u8; 1024];
        'rounds: loop {
            let added = self.outcome_round(&mut known);
            if !added {
                break 'rounds;
            }
        }
        known
    }
}
