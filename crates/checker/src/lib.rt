// The image check: questions 1 to 7 of the paper, asked of any byte string in their order. The crate `lawful` asks 1 to 5, and this
// one 6 and 7.
#![tactic(auto)]

ghost use Rattle.grammar.specs.Questions.{Checked};
ghost use Rattle.grammar.specs.Refusals.{number_in};

use crate::order::Rounds;
use grammar::Refusal;
use visits::Nodes;

mod formed;
mod order;
mod outcomes;
pub mod stars;

// Refuses an image by the first question that it fails.
pub fn check(image: &[u8]) -> Result<(), Refusal>
    ensures { Checked image.now (number_in result) }
{
    lawful::check(image)?;
    let nodes = Nodes::of(image);
    let places = order::round_order(&nodes);
    let rounds = Rounds::over(&nodes, &places);
    let known = rounds.star_sets()?;
    let formed = rounds.formed_nodes(&known);
    if !rounds.all_formed(&formed) {
        return Err(Refusal::WellFormed);
    }
    Ok(())
}
