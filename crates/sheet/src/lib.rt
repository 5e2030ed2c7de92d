// The calls on a sheet, over lent buffers: open, edit, reading, look-up and listing. No call asks anything of its caller: every lent
// length, number and table content is answered or refused, in the order of the questions. What is lent comes one by one, as C lends it:
// open and edit write the buffer, the other calls only read it, and one struct for all would lend it to be written to each.
#![tactic(auto)]

pub mod edit;
pub mod list;
pub mod look_up;
mod making;
pub mod open;
mod questions;
pub mod read;
