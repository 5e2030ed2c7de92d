// Why a line is not replayed.
use fields::HexError;
use std::fmt;

// What is wrong with a line that gets a message.
#[derive(Clone, Copy, Debug, PartialEq, Eq)]
pub enum LineError {
    NotUnderstood,
    TooLong,
    TooMuchLent,
    TooManySlots,
}

impl fmt::Display for LineError {
    fn fmt<W: fmt::Write>(&self, f: &mut fmt::Formatter<W>) -> fmt::Result {
        match self {
            LineError::NotUnderstood => write!(f, "not understood"),
            LineError::TooLong => write!(f, "more than 65536 bytes"),
            LineError::TooMuchLent => write!(f, "more than 65536 bytes or 131072 words to lend"),
            LineError::TooManySlots => write!(f, "more than 65536 row slots to lend"),
        }
    }
}

impl From<HexError> for LineError {
    fn from(error: HexError) -> LineError {
        match error {
            HexError::TooLong => LineError::TooLong,
            HexError::NotHex => LineError::NotUnderstood,
        }
    }
}
