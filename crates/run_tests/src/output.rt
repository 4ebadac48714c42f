//! What the program writes, piece by piece.

use std::io;
use std::io::Write;

/// Writes a text.
pub fn put<R: Print>(rt: &R, text: &str) -> io::Result<()> {
    io::writer(rt).write_all(text.as_bytes())
}

/// Writes a text and a number after it, in decimal digits.
pub fn put_number<R: Print>(rt: &R, text: &str, number: u64) -> io::Result<()> {
    put(rt, text)?;
    let mut buffer = itoa::Buffer::new();
    put(rt, buffer.format(number))
}

/// Writes a text and two numbers after it, with a blank before each.
pub fn put_pair<R: Print>(rt: &R, text: &str, numbers: (u64, u64)) -> io::Result<()> {
    put(rt, text)?;
    put_number(rt, " ", numbers.0)?;
    put_number(rt, " ", numbers.1)
}
