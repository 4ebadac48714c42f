//! Parts of a text's bytes.
ghost use Rattle.std.specs.Prelude.{◌≡◌, drop, slice_index, take};
ghost use Rattle.pl_model.specs.LexicalQuoted.{begins_with};

/// The bytes after the first `n`.
pub fn behind(bytes: &[u8], n: usize) -> &[u8]
    ensures { result.now ≡ drop n bytes.now }
{
    if n >= bytes.len() {
        return &bytes[bytes.len()..];
    }
    &bytes[n..]
}

/// The first `n` bytes, or all where there are fewer.
pub fn first(bytes: &[u8], n: usize) -> &[u8]
    ensures { result.now ≡ take n bytes.now }
{
    if n >= bytes.len() {
        return bytes;
    }
    &bytes[..n]
}

/// The byte at `i`, or 0 past the end.
pub fn byte_at(bytes: &[u8], i: usize) -> u8
    ensures { result ≡ slice_index bytes.now i }
{
    if i < bytes.len() { bytes[i] } else { 0 }
}

/// Whether the ASCII character `c` stands at `i`.
pub fn is_at(bytes: &[u8], i: usize, c: char) -> bool
    ensures { result ≡ begins_with c (drop i bytes.now) }
{
    i < bytes.len() && char::from(bytes[i]) == c
}
