//! Rows of files and sinks in memory, and of the system's files.

use crate::fields::{Fields, bytes_of};
use crate::output::{put_named, put_numbers, put_text};
use anyhow::{Result, bail};
use pl_io::{
    Bytes, Failed, Files, HostFiles, MemoryFiles, MemorySink, OneText, ReadAllError, read_all,
    write_all,
};
use pl_term::Text;
use std::alloc::Global;
use std::os::unix::fs::FileExt;

/// What is read of a file in memory up to a limit, where the call with a number fails, then the number of calls, and the
/// counts of faults of this file and of another one.
pub fn file_read(alloc: Global, fields: &mut Fields) -> Result<Vec<u8>> {
    let content = fields.next_bytes(alloc)?;
    let limit = fields.next_field()?.parse::<u64>()?;
    let failing = fields.next_field()?.parse::<u64>()?;
    let mut files = two_files(alloc, content, failing)?;
    let name = Text::from_str(alloc, "f.pl")?;
    let mut out = read_shown(alloc, read_all(alloc, &mut files, &name, limit))?;
    put_named(&mut out, " ", files.calls())?;
    put_faults(alloc, &mut out, &files)?;
    Ok(out)
}

/// The file f.pl with a content, and an empty file g.pl, of which the call with a number fails.
fn two_files(alloc: Global, content: Vec<u8>, failing: u64) -> Result<MemoryFiles> {
    let mut files = MemoryFiles::new(alloc, vec![in alloc; failing]?);
    put_file(alloc, &mut files, "f.pl", Bytes::from_vec(content))?;
    put_file(alloc, &mut files, "g.pl", Bytes::from_slice(alloc, b"")?)?;
    Ok(files)
}

/// Puts a file in the place of that with its name.
fn put_file(alloc: Global, files: &mut MemoryFiles, name: &str, bytes: Bytes) -> Result<()> {
    files.insert(Text::from_str(alloc, name)?, bytes)?;
    Ok(())
}

/// Adds the counts of faults of f.pl and g.pl.
fn put_faults(alloc: Global, out: &mut Vec<u8>, files: &MemoryFiles) -> Result<()> {
    let name = Text::from_str(alloc, "f.pl")?;
    let other = Text::from_str(alloc, "g.pl")?;
    put_numbers(out, &[files.faults(&name), files.faults(&other)])
}

/// What is read of a file that is not there, of one that is put there, and of one in the place of that; then the counts of
/// faults of this file and of another one.
pub fn file_replaced(alloc: Global, fields: &mut Fields) -> Result<Vec<u8>> {
    let mut files = MemoryFiles::new(alloc, Vec::new(alloc));
    put_file(alloc, &mut files, "g.pl", Bytes::from_slice(alloc, b"")?)?;
    let mut out = Vec::new(alloc);
    put_file_read(alloc, &mut out, &mut files)?;
    for content in fields.next_field()?.split('¬') {
        put_replaced(alloc, &mut out, &mut files, content)?;
    }
    put_faults(alloc, &mut out, &files)?;
    Ok(out)
}

/// Puts f.pl with a content in the place of the one before, and adds what is read of it, with a blank before.
fn put_replaced(
    alloc: Global,
    out: &mut Vec<u8>,
    files: &mut MemoryFiles,
    content: &str,
) -> Result<()> {
    let bytes = Bytes::from_vec(bytes_of(alloc, content)?);
    put_file(alloc, files, "f.pl", bytes)?;
    out.push(b' ')?;
    put_file_read(alloc, out, files)
}

/// Adds what is read of the first 100 bytes of f.pl.
fn put_file_read(alloc: Global, out: &mut Vec<u8>, files: &mut MemoryFiles) -> Result<()> {
    let name = Text::from_str(alloc, "f.pl")?;
    let read = read_shown(alloc, read_all(alloc, files, &name, 100))?;
    out.extend_from_slice(&read)?;
    Ok(())
}

/// The bytes that were read, or the error.
fn read_shown(alloc: Global, read: Result<Bytes, ReadAllError>) -> Result<Vec<u8>> {
    match read {
        Ok(bytes) => Ok(bytes.into_vec()),
        Err(ReadAllError::Failed) => bytes_of(alloc, "Failed"),
        Err(ReadAllError::Memory) => bail!("no memory"),
    }
}

/// What a file with a name is where each name has the same text; and the three bytes after a place of another name.
pub fn one_text(alloc: Global, fields: &mut Fields) -> Result<Vec<u8>> {
    let mut files = OneText::new(Bytes::from_vec(fields.next_bytes(alloc)?));
    let name = Text::from_str(alloc, fields.next_field()?)?;
    let at = fields.next_field()?.parse::<u64>()?;
    let mut out = read_shown(alloc, read_all(alloc, &mut files, &name, 100))?;
    let mut buffer = [b'-'; 3];
    let other = Text::from_str(alloc, "other")?;
    let answer = files.read(&other, at, &mut buffer);
    put_piece(&mut out, &answer, &buffer)?;
    Ok(out)
}

/// Adds how many bytes were read, or the error, and a buffer after it.
fn put_piece(out: &mut Vec<u8>, answer: &Result<usize, Failed>, buffer: &[u8]) -> Result<()> {
    match answer {
        Ok(count) => put_named(out, " ", *count as u64)?,
        Err(_) => put_text(out, " Failed")?,
    }
    out.push(b' ')?;
    out.extend_from_slice(buffer)?;
    Ok(())
}

/// What a sink holds once pieces were written on it, and whether each was; then the counts of its calls and faults. The sink
/// has room for a number of bytes, takes at most a number of them in a call, and the call with a number fails.
pub fn sink(alloc: Global, fields: &mut Fields) -> Result<Vec<u8>> {
    let pieces = fields.next_field()?;
    let mut sink = sink_of(alloc, fields)?;
    let mut out = Vec::new(alloc);
    put_pieces(alloc, &mut out, &mut sink, pieces)?;
    out.extend_from_slice(sink.bytes())?;
    put_numbers(&mut out, &[sink.calls(), sink.faults()])?;
    Ok(out)
}

/// The sink that the next three fields tell.
fn sink_of(alloc: Global, fields: &mut Fields) -> Result<MemorySink> {
    let room = fields.next_field()?.parse::<usize>()?;
    let most = fields.next_field()?.parse::<usize>()?;
    let failing = fields.next_field()?.parse::<u64>()?;
    let mut sink = MemorySink::with_room(alloc, room, vec![in alloc; failing]?)?;
    sink.take_at_most(most);
    Ok(sink)
}

/// Writes pieces, which stand with `¬` between, and adds whether each was written.
fn put_pieces(alloc: Global, out: &mut Vec<u8>, sink: &mut MemorySink, pieces: &str) -> Result<()> {
    for piece in pieces.split('¬') {
        let answer = write_all(sink, &bytes_of(alloc, piece)?);
        let word = if answer.is_ok() { "done " } else { "failed " };
        put_text(out, word)?;
    }
    Ok(())
}

/// What is read of a file of the system up to a limit, then of six bytes from a place on, and the count of faults.
pub fn system_file<R: std::rt::Files + AllocGlobal>(rt: &R, fields: &mut Fields) -> Result<Vec<u8>>
where
    R::File: FileExt,
{
    let alloc = rt.alloc();
    let name = Text::from_str(alloc, fields.next_field()?)?;
    let limit = fields.next_field()?.parse::<u64>()?;
    let at = fields.next_field()?.parse::<u64>()?;
    let mut files = HostFiles::new(rt);
    let mut out = read_shown(alloc, read_all(alloc, &mut files, &name, limit))?;
    let mut buffer = [b'-'; 6];
    let answer = files.read(&name, at, &mut buffer);
    put_piece(&mut out, &answer, &buffer)?;
    put_named(&mut out, " ", files.faults())?;
    Ok(out)
}
