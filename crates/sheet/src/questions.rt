// "Every call checks the image (1 to 7) and the loan (8), then its own."
ghost use Rattle.std.specs.Prelude.{◌≡◌, IfOk, OnOk};
ghost use Rattle.grammar.specs.Image.{rules};
ghost use Rattle.grammar.specs.Questions.{First, Accepted};
ghost use Rattle.grammar.specs.Refusals.{number_in};
ghost use Rattle.promises.specs.Questions.{Question8, of_sheet};

use grammar::Refusal;

// The image's number of rules; refused by the first of questions 1 to 8 that fails, for a buffer of cap bytes, a text of n and so many
// words.
pub fn asked(image: &[u8], cap: usize, n: usize, words: usize) -> Result<usize, Refusal>
    ensures first { First (of_sheet image.now cap n words) (number_in result) }
    ensures passed { OnOk result (Accepted image.now × Question8 image.now cap n words) }
    ensures rules { IfOk result (λ k. k ≡ rules image.now) }
{
    checker::check(image)?;
    let header = image::header_of(image);
    let rules = header.rules;
    if records::MAX_CAP < cap || cap < n || words < rules * (cap + 1) {
        return Err(Refusal::Loan);
    }
    Ok(rules)
}
