// What a line asks for.
use crate::errors::LineError;

// What the words of a line give: an image, how much is lent, or a call.
#[derive(Clone, Copy, Debug, PartialEq, Eq)]
pub enum Request<'a> {
    Image(&'a [u8]),
    Lend(usize, usize),
    Call(Call<'a>),
}

// A call, which has an answer.
#[derive(Clone, Copy, Debug, PartialEq, Eq)]
pub enum Call<'a> {
    Open(&'a [u8]),
    Edit(usize, usize, &'a [u8]),
    Read,
    Look(usize, usize),
    List(usize),
}

fn number(field: &[u8]) -> Result<usize, LineError> {
    fields::decimal(field).ok_or(LineError::NotUnderstood)
}

// Two numbers and nothing else.
fn two_numbers(rest: &[u8]) -> Result<(usize, usize), LineError> {
    let (first, second) = fields::first_field(rest);
    Ok((number(first)?, number(second)?))
}

// The bytes, put at the start of `given`.
fn bytes<'a>(digits: &[u8], given: &'a mut [u8]) -> Result<&'a [u8], LineError> {
    let count = fields::hex(digits, given)?;
    Ok(&given[..count])
}

fn edit<'a>(rest: &[u8], given: &'a mut [u8]) -> Result<Call<'a>, LineError> {
    let (start, rest) = fields::first_field(rest);
    let (end, digits) = fields::first_field(rest);
    Ok(Call::Edit(number(start)?, number(end)?, bytes(digits, given)?))
}

impl<'a> Request<'a> {
    // The request of a line; its bytes lie in `given`. The line's first word says which it is.
    pub fn of_line(text: &[u8], given: &'a mut [u8]) -> Result<Request<'a>, LineError> {
        let (verb, rest) = fields::first_field(text);
        match verb {
            b"image" => Ok(Request::Image(bytes(rest, given)?)),
            b"lend" => {
                let (cap, words) = two_numbers(rest)?;
                Ok(Request::Lend(cap, words))
            }
            b"open" => Ok(Request::Call(Call::Open(bytes(rest, given)?))),
            b"edit" => Ok(Request::Call(edit(rest, given)?)),
            b"read" if rest.is_empty() => Ok(Request::Call(Call::Read)),
            b"look" => {
                let (rule, position) = two_numbers(rest)?;
                Ok(Request::Call(Call::Look(rule, position)))
            }
            b"list" => Ok(Request::Call(Call::List(number(rest)?))),
            _ => Err(LineError::NotUnderstood),
        }
    }
}
