//! Whole files and whole texts, over any files and any sink.
ghost use Rattle.std.specs.Prelude.{◌≡◌, ◌<◌, ◌≤◌, ◌+◌, ◌++◌, ℕ, List, Some, IfOk, IfErr, OnOk, OnErr, IsErr, IsTrue, length, take, vec_len};
ghost use Rattle.pl_io.specs.Faults.{Rose};
ghost use Rattle.pl_io.specs.Reading.{Continues};

use crate::bytes::Bytes;
use crate::failed::{Failed, ReadAllError};
use crate::files::Files;
use crate::sink::Sink;
use pl_term::{Memory, Text};
use std::alloc::Global;

/// How many bytes are read at a time.
const PIECE: usize = 65536;

/// Reads a file to its end, or its first `limit + 1` bytes where it is longer, so that a file of more than `limit`
/// bytes shows. No read changes what is told.
/// `Failed`: a read failed; the count of faults of that name rose. `Memory`: there is no memory for the bytes.
pub fn read_all<F: Files>(
    alloc: Global,
    files: &mut F,
    name: &Text,
    limit: u64,
) -> Result<Bytes, ReadAllError>
    ensures told { (n : List ℕ) → F.told files.new n ≡ F.told files.old n }
    ensures absence { (n : List ℕ) → F.absent files.new n ≡ F.absent files.old n }
    ensures faults { (n : List ℕ) → F.faults files.old n ≤ F.faults files.new n }
    ensures within { IfOk result (λ b. length b ≤ limit + 1) }
    ensures bytes { IfOk result (λ b. (bytes : List ℕ) → F.told files.old name.now ≡ Some bytes
        → b ≡ take (limit + 1) bytes) }
    ensures absent { IsTrue (F.absent files.old name.now) → IsErr result }
    ensures failed { IfErr result (λ e. e ≡ ReadAllError.Failed
        → Rose (F.faults files.old name.now) (F.faults files.new name.now)) }
{
    let mut piece = empty_piece(alloc)?;
    let buffer = piece.as_mut_slice();
    let mut all = Vec::new(alloc);
    while all.len() as u64 <= limit {
        let most = wanted(limit - all.len() as u64, buffer.len());
        if read_more(files, name, most, buffer, &mut all)? == 0 {
            break;
        }
    }
    Ok(Bytes::from_vec(all))
}

/// A buffer for one read. The only error is out of memory.
fn empty_piece(alloc: Global) -> Result<Vec<u8>, Memory>
    ensures { IfOk result (λ b. 0 < vec_len b) }
{
    Ok(vec![in alloc; 0u8; PIECE]?)
}

/// How many bytes to read next, where `rest` more are wanted after one byte and a buffer has room for `room`.
fn wanted(rest: u64, room: usize) -> usize
    requires { 0 < room }
    ensures some { 0 < result }
    ensures in_rest { result ≤ rest + 1 }
    ensures in_room { result ≤ room }
{
    if rest < room as u64 {
        rest as usize + 1
    } else {
        room
    }
}

/// Reads the bytes that come after `all` in a file, at most `most` of them and through `buffer`, puts them at the
/// end of `all`, and answers their number: none exactly at the end of the file.
fn read_more<F: Files>(
    files: &mut F,
    name: &Text,
    most: usize,
    buffer: &mut [u8],
    all: &mut Vec<u8>,
) -> Result<usize, ReadAllError>
    requires some { 0 < most }
    requires fits { most ≤ length buffer.old }
    ensures told { (n : List ℕ) → F.told files.new n ≡ F.told files.old n }
    ensures absence { (n : List ℕ) → F.absent files.new n ≡ F.absent files.old n }
    ensures faults { (n : List ℕ) → F.faults files.old n ≤ F.faults files.new n }
    ensures within { IfOk result (λ k. k ≤ most) }
    ensures grows { IfOk result (λ k. vec_len all.new ≡ vec_len all.old + k) }
    ensures bytes { IfOk result (λ k. (bytes : List ℕ) → F.told files.old name.now ≡ Some bytes
        → Continues bytes k all.old.items all.new.items) }
    ensures absent { IsTrue (F.absent files.old name.now) → IsErr result }
    ensures failed { IfErr result (λ e. e ≡ ReadAllError.Failed
        → Rose (F.faults files.old name.now) (F.faults files.new name.now)) }
{
    let window = &mut buffer[..most];
    let k = files.read(name, all.len() as u64, window)?;
    all.extend_from_slice(&window[..k])?;
    Ok(k)
}

/// Writes a whole text.
/// `Failed`: a write failed, and the count of faults rose; a front of the text was written, and not all of it.
pub fn write_all<S: Sink>(out: &mut S, text: &[u8]) -> Result<(), Failed>
    ensures faults { S.faults out.old ≤ S.faults out.new }
    ensures whole { OnOk result ((before : List ℕ) → S.written out.old ≡ Some before
        → S.written out.new ≡ Some (before ++ text.now)) }
    ensures part { OnErr result ((before : List ℕ) → S.written out.old ≡ Some before
        → (k : ℕ) × (k < length text.now) × (S.written out.new ≡ Some (before ++ take k text.now))) }
    ensures failed { OnErr result (Rose (S.faults out.old) (S.faults out.new)) }
{
    let mut at = 0;
    while at < text.len() {
        at += out.write(&text[at..])?;
    }
    Ok(())
}
