//! What a row gives, put together piece by piece.
use anyhow::Result;

/// Adds a text.
pub fn put_text(out: &mut Vec<u8>, text: &str) -> Result<()> {
    Ok(out.extend_from_slice(text.as_bytes())?)
}

/// Adds a number in decimal digits.
pub fn put_number(out: &mut Vec<u8>, number: u64) -> Result<()> {
    let mut buffer = itoa::Buffer::new();
    put_text(out, buffer.format(number))
}

/// Adds an integer in decimal digits.
pub fn put_integer(out: &mut Vec<u8>, integer: i64) -> Result<()> {
    let mut buffer = itoa::Buffer::new();
    put_text(out, buffer.format(integer))
}

/// Adds a text and a number after it.
pub fn put_named(out: &mut Vec<u8>, text: &str, number: u64) -> Result<()> {
    put_text(out, text)?;
    put_number(out, number)
}

/// Adds numbers, with a blank before each.
pub fn put_numbers(out: &mut Vec<u8>, numbers: &[u64]) -> Result<()> {
    for number in numbers {
        put_named(out, " ", *number)?;
    }
    Ok(())
}

/// Adds whether something is so.
pub fn put_truth(out: &mut Vec<u8>, is_so: bool) -> Result<()> {
    put_text(out, if is_so { "true" } else { "false" })
}
