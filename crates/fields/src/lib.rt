// The fields of a line: where they lie, decimal numbers, and bytes in hexadecimal digits.
#![tactic(auto)]

ghost use Rattle.std.specs.Prelude.{ℕ, ◌+◌, ◌*◌, ◌≤◌, ◌<◌, ◌≡◌, ◌≢◌, length, slice_index, IfOk, IfSome, IfNone, SomeIff, ◌==◌};
ghost use Rattle.std.specs.List.{position};
ghost use Rattle.fields.specs.Fields.{DecimalOf, hex_value, HexOf, FieldOf};

// The first place that has this byte, where there is one.
fn first_place(line: &[u8], byte: u8) -> Option<usize>
    ensures { result ≡ position (λ b. b == byte) line.now }
{
    line.iter().position(|b| *b == byte)
}

// The first place at or past `from` that has this byte, where there is one.
pub fn place_of(line: &[u8], from: usize, byte: u8) -> Option<usize>
    requires { from ≤ length line.now }
    ensures from_on { IfSome result (λ place. from ≤ place) }
    ensures within { IfSome result (λ place. place < length line.now) }
    ensures before { IfSome result (λ place. (k : ℕ) → from ≤ k → k < place → slice_index line.now k ≢ byte) }
    ensures found { IfSome result (λ place. slice_index line.now place ≡ byte) }
    ensures none { IfNone result ((k : ℕ) → from ≤ k → k < length line.now → slice_index line.now k ≢ byte) }
{
    Some(from + first_place(&line[from..], byte)?)
}

// The first field of a line, and what follows it behind one space.
pub fn first_field(line: &[u8]) -> (&[u8], &[u8])
    ensures { FieldOf line.now result.0.now result.1.now }
{
    match place_of(line, 0, b' ') {
        Some(place) => (&line[..place], &line[place + 1..]),
        None => (line, &[]),
    }
}

// The number that a field of digits is, where it is below 2^64. `as` stands here since std has no `From<u32>` for `usize`.
pub fn decimal(field: &[u8]) -> Option<usize>
    ensures { DecimalOf field.now result }
{
    if field.is_empty() {
        return None;
    }
    let mut value: usize = 0;
    for &byte in field {
        let digit = char::from(byte).to_digit(10)?;
        value = value.checked_mul(10)?.checked_add(digit as usize)?;
    }
    Some(value)
}

// Why a field is not taken as bytes.
#[derive(Clone, Copy, Debug, PartialEq, Eq)]
pub enum HexError {
    TooLong,
    NotHex,
}

// The value of a hexadecimal digit in either case.
fn hex_digit(byte: u8) -> Option<u8>
    ensures { SomeIff result (hex_value byte < 16) (hex_value byte) }
{
    let digit = char::from(byte).to_digit(16)?;
    u8::try_from(digit).ok()
}

// The byte that a pair of hexadecimal digits means.
fn byte_of(high: u8, low: u8) -> Option<u8>
    ensures { SomeIff result ((hex_value high < 16) × (hex_value low < 16)) (hex_value high * 16 + hex_value low) }
{
    Some(hex_digit(high)? * 16 + hex_digit(low)?)
}

// Puts the bytes that a field of hexadecimal digits means at the start of `given`, and answers how many there are. They are stored by
// index: of bytes written through `iter_mut` in a `zip` a proof knows nothing.
pub fn hex(field: &[u8], given: &mut [u8]) -> Result<usize, HexError>
    ensures hex { HexOf field.now given.old given.new result }
    ensures room { IfOk result (λ n. n ≤ length given.new) }
{
    let (pairs, rest) = field.as_chunks::<2>();
    if !rest.is_empty() {
        return Err(HexError::NotHex);
    }
    if given.len() < pairs.len() {
        return Err(HexError::TooLong);
    }
    for (i, &[high, low]) in pairs.iter().enumerate() {
        given[i] = byte_of(high, low).ok_or(HexError::NotHex)?;
    }
    Ok(pairs.len())
}
