//! Quoted names: the escapes of ISO 6.4.2.1.
ghost use Rattle.std.specs.Prelude.{◌≡◌, ◌<◌, ◌++◌, OnOk, codes, ◌∷◌, []};
ghost use Rattle.std.specs.Char.{digit_char};
ghost use Rattle.std.specs.List.{flat_map};
ghost use Rattle.std.specs.Str.{encode_utf8_all};
ghost use Rattle.pl_model.specs.Writing.{escaped, hexadecimal};
ghost use Rattle.term_writer.specs.Pages.{Grows};

use pl_term::{Memory, Text};
use std::convert::AsStr;

/// Puts the characters of a name as they stand between quotes at the end of `bytes`.
pub fn push_escaped_all(bytes: &mut Vec<u8>, f: &Text) -> Result<(), Memory>
    ensures escapes { OnOk result
        (bytes.new.items ≡ bytes.old.items ++ encode_utf8_all (flat_map escaped f.now)) }
    ensures grows { Grows bytes.old.items bytes.new.items }
{
    for c in f.as_str().chars() {
        push_escaped(bytes, c)?;
    }
    Ok(())
}

fn push_escaped(bytes: &mut Vec<u8>, c: char) -> Result<(), Memory>
    ensures escapes { OnOk result (bytes.new.items ≡ bytes.old.items ++ encode_utf8_all (escaped c)) }
    ensures grows { Grows bytes.old.items bytes.new.items }
{
    match c {
        '\'' => bytes.extend_from_slice(b"\\'")?,
        '\\' => bytes.extend_from_slice(b"\\\\")?,
        '\n' => bytes.extend_from_slice(b"\\n")?,
        '\t' => bytes.extend_from_slice(b"\\t")?,
        '\0'..='\x1f' => push_code(bytes, c as u8)?,
        '\x7f' => push_code(bytes, 127)?,
        _ => push_character(bytes, c)?,
    }
    Ok(())
}

fn push_character(bytes: &mut Vec<u8>, c: char) -> Result<(), Memory>
    ensures itself { OnOk result (bytes.new.items ≡ bytes.old.items ++ encode_utf8_all (c ∷ [])) }
    ensures grows { Grows bytes.old.items bytes.new.items }
{
    let mut room = [0; 4];
    let coded = c.encode_utf8(&mut room);
    bytes.extend_from_slice(coded.as_bytes())?;
    Ok(())
}

fn push_code(bytes: &mut Vec<u8>, code: u8) -> Result<(), Memory>
    requires { code < 128 }
    ensures code { OnOk result
        (bytes.new.items ≡ bytes.old.items ++ (codes "\\x" ++ (hexadecimal code ++ codes "\\"))) }
    ensures grows { Grows bytes.old.items bytes.new.items }
{
    if code < 16 {
        bytes.extend_from_slice(&[b'\\', b'x', digit(code), b'\\'])?;
    } else {
        bytes.extend_from_slice(&[b'\\', b'x', digit(code / 16), digit(code % 16), b'\\'])?;
    }
    Ok(())
}

fn digit(d: u8) -> u8
    requires { d < 16 }
    ensures { result ≡ digit_char d }
{
    if d < 10 { b'0' + d } else { b'a' + (d - 10) }
}
