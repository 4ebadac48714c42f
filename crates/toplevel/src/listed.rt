//! The command `check`: the faults of a file are listed.
ghost use Rattle.std.specs.Prelude.{◌≡◌, List, ℕ, Option, IfOk, IfErr, IsErr, IsTrue};
ghost use Rattle.pl_term.specs.Tree.{Chars};
ghost use Rattle.pl_io.specs.Faults.{Rose};
ghost use Rattle.source_check.specs.Listings.{faults_in};
ghost use Rattle.run_model.specs.Ends.{status_of};
ghost use Rattle.toplevel.specs.Headline.{AreRead, IsListed, IsUnread, PromisedListing, end_by_faults};

use crate::run::{MOST_BYTES, Report, bare_report, write_unread};
use pl_io::{Files, ReadAllError, Sink, read_all, write_all};
use pl_term::Text;
use run_model::ends::End;
use source_check::{Listing, check_source};
use std::alloc::Global;

/// Reads a file, and lists its faults and the numbers of its clauses, its directives and its faults.
pub(crate) fn list_file<F: Files, S: Sink>(
    alloc: Global,
    file: &Text,
    files: &mut F,
    out: &mut S,
) -> Report
    ensures status { result.status ≡ status_of result.end }
    ensures promised { PromisedListing (Rose (F.faults files.old file.now) (F.faults files.new file.now))
        (Rose (S.faults out.old) (S.faults out.new)) file.now (F.told files.old file.now)
        (S.written out.old) (S.written out.new) result result.end }
    ensures absent { IsTrue (F.absent files.old file.now) → IsUnread result.end }
{
    match listing_of(alloc, file, files) {
        Ok(listing) => write_listing(alloc, &listing, out),
        Err(ReadAllError::Failed) => write_unread(alloc, file, out),
        Err(ReadAllError::Memory) => bare_report(alloc, End::Memory),
    }
}

/// Reads the file and makes its listing.
/// `Failed`: a read failed, as it does where there is no such file; the count of faults of the file's name rose.
/// `Memory`: there is no memory.
fn listing_of<F: Files>(alloc: Global, file: &Text, files: &mut F) -> Result<Listing, ReadAllError>
    ensures failed { IfErr result (λ e. e ≡ ReadAllError.Failed
        → Rose (F.faults files.old file.now) (F.faults files.new file.now)) }
    ensures absent { IsTrue (F.absent files.old file.now) → IsErr result }
    ensures listing { IfOk result (λ listing. (bytes : List ℕ) × (AreRead (F.told files.old file.now) bytes
        × IsListed file.now bytes listing)) }
{
    let bytes = read_all(alloc, files, file, MOST_BYTES)?;
    let listing = check_source(alloc, file, bytes.as_slice())?;
    Ok(listing)
}

/// Writes a listing.
fn write_listing<S: Sink>(alloc: Global, listing: &Listing, out: &mut S) -> Report
    ensures status { result.status ≡ status_of result.end }
    ensures promised { (name : Chars) (file : Option (List ℕ)) (bytes : List ℕ)
        → AreRead file bytes → IsListed name bytes listing.now
        → PromisedListing ⊥ (Rose (S.faults out.old) (S.faults out.new)) name file (S.written out.old) (S.written out.new)
        result result.end }
{
    match write_all(out, &listing.text) {
        Ok(()) => bare_report(alloc, end_by_faults(listing.faults)),
        Err(_) => bare_report(alloc, End::WriteFault),
    }
}

/// How the program ends after a listing with so many faults.
fn end_by_faults(faults: u64) -> End
    ensures { result ≡ end_by_faults faults }
{
    if faults == 0 {
        return End::Done;
    }
    End::GoalFailed
}
