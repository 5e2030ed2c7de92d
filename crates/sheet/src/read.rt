// "Reading: the answer is the start pair's evaluation, as whole, part or none".
ghost use Rattle.promises.specs.Reading.{ReadPromise};

use crate::{making, questions};
use promises::ReadAnswer;

// Refused with 1 to 8, it leaves the table as it was; with 12 or 14 the table becomes 0.
pub fn read_sheet(image: &[u8], buffer: &[u8], n: usize, table: &mut [u64]) -> ReadAnswer
    ensures { ReadPromise image.now buffer.now n table.old result table.new }
{
    let cap = buffer.len();
    questions::asked(image, cap, n, table.len())?;
    making::make_reading(image, &buffer[..n], table, cap)
}
