// "Look-up: gives the true word of a held pair, else 0. The program gives the slot's word whole."
ghost use Rattle.promises.specs.Promises.{LookUpPromise};

use crate::questions;
use grammar::Refusal;
use memo::Pair;
use promises::LookUpAnswer;

// Refused with 1 to 8 or 11.
pub fn look_up(
    image: &[u8],
    buffer: &[u8],
    n: usize,
    table: &[u64],
    rule: usize,
    position: usize,
) -> LookUpAnswer
    ensures { LookUpPromise image.now buffer.now n table.now rule position result }
{
    let rules = questions::asked(image, buffer.len(), n, table.len())?;
    if rules <= rule || n < position {
        return Err(Refusal::Pair);
    }
    let pair = Pair {
        rules,
        rule,
        position,
    };
    Ok(pair.look(table))
}
