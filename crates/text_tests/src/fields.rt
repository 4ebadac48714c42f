//! The fields of a row.

use anyhow::{Context, Result};
use std::alloc::Global;

/// What is left of a row's fields, which stand with `§` between.
#[derive(Drop)]
pub struct Fields<'a> {
    rest: &'a str,
}

impl<'a> Fields<'a> {
    /// All fields of a row.
    pub fn new(row: &'a str) -> Fields<'a> {
        Fields { rest: row }
    }

    /// The next field, which is not the last one.
    pub fn next_field(&mut self) -> Result<&'a str> {
        let (field, rest) = self.rest.split_once('§').context("a field more")?;
        self.rest = rest;
        Ok(field)
    }

    /// The bytes that the next field stands for.
    pub fn next_bytes(&mut self, alloc: Global) -> Result<Vec<u8>> {
        bytes_of(alloc, self.next_field()?)
    }

    /// The fields that are left.
    pub fn rest(&self) -> &'a str {
        self.rest
    }
}

/// The bytes that a field stands for: `¶` stands before the number of a byte in three digits, and `⟨3 ab⟩` for `ababab`.
pub fn bytes_of(alloc: Global, field: &str) -> Result<Vec<u8>> {
    let mut bytes = Vec::new(alloc);
    for part in field.split('⟨') {
        match part.split_once('⟩') {
            Some((repeated, rest)) => {
                put_repeated(&mut bytes, repeated)?;
                put_bytes(&mut bytes, rest)?;
            }
            None => put_bytes(&mut bytes, part)?,
        }
    }
    Ok(bytes)
}

/// Adds a text as often as the number before it says.
fn put_repeated(bytes: &mut Vec<u8>, repeated: &str) -> Result<()> {
    let (count, text) = repeated.split_once(' ').context("a number and a text")?;
    for _ in 0..count.parse::<u32>()? {
        bytes.extend_from_slice(text.as_bytes())?;
    }
    Ok(())
}

/// Adds the bytes of a text, in which `¶` stands before the number of a byte in three digits.
fn put_bytes(bytes: &mut Vec<u8>, text: &str) -> Result<()> {
    let mut parts = text.split('¶');
    if let Some(first) = parts.next() {
        bytes.extend_from_slice(first.as_bytes())?;
    }
    for part in parts {
        bytes.push(part.get(..3).context("a byte")?.parse::<u8>()?)?;
        bytes.extend_from_slice(part.get(3..).context("a byte")?.as_bytes())?;
    }
    Ok(())
}

/// The text that a field stands for.
pub fn text_of(alloc: Global, field: &str) -> Result<String> {
    Ok(String::from_utf8(bytes_of(alloc, field)?)?)
}
