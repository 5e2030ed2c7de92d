// Questions 1 to 5: is the image lawful? They ask about the bytes and nothing of what the grammar means.
#![tactic(auto)]

ghost use Rattle.std.specs.Prelude.{OnOk};
ghost use Rattle.grammar.specs.Questions.{First, of_lawful, Lawful};
ghost use Rattle.grammar.specs.Refusals.{number_in};

use grammar::Refusal;

mod once;
mod questions;
mod words;

// Refuses an image by the first of questions 1 to 5 that it fails.
pub fn check(image: &[u8]) -> Result<(), Refusal>
    ensures first { First (of_lawful image.now) (number_in result) }
    ensures passed { OnOk result (Lawful image.now) }
{
    if !questions::edition_is_1(image) {
        return Err(Refusal::Edition);
    }
    if !questions::counts_in_range(image) {
        return Err(Refusal::Counts);
    }
    if !questions::size_exact(image) {
        return Err(Refusal::Size);
    }
    if !words::words_lawful(image) {
        return Err(Refusal::Words);
    }
    if !once::each_node_once(image) {
        return Err(Refusal::Occurrences);
    }
    Ok(())
}
