//! The listing of a file.
ghost use Rattle.std.specs.Prelude.{◌≡◌, IfOk, IsTrue, OnOk, decimal, encode_utf8_all};
ghost use Rattle.std.specs.Char.{is_ascii};
ghost use Rattle.std.specs.List.{list_all};
ghost use Rattle.pl_term.specs.Tree.{Chars};
ghost use Rattle.pl_report.specs.Adds.{Adds};
ghost use Rattle.source_check.specs.Listings.{Checking, file_checked, faults_in, listing, listing_of};
ghost use Rattle.source_check.specs.Checkers.{Stands};

use crate::checker::{Checker, Place};
use itoa::Buffer;
use pl_term::{Memory, Text};
use std::alloc::Global;

/// What is written of a file that is checked.
#[derive(Debug, Drop)]
pub struct Listing {
    /// A line for each fault, and then the numbers of clauses, directives and faults, in UTF-8.
    pub text: Vec<u8>,
    /// The number of faults.
    pub faults: u64,
}

/// Checks the file with this name and these bytes, of which no goal is run: its items are read one after the other, as
/// consulting reads them, and of its directives only op/3 and set_prolog_flag/2 of the flag `double_quotes` are obeyed
/// (ISO 7.4.2). A file of more than 16 MiB has the one fault that it is too large. Reading takes time linear in the file,
/// however deep its terms are. The only error is out of memory.
pub fn check_source(alloc: Global, name: &Text, bytes: &[u8]) -> Result<Listing, Memory>
    ensures text { IfOk result (λ l. l.text.items ≡ encode_utf8_all (listing name.now bytes.now)) }
    ensures faults { IfOk result (λ l. l.faults ≡ faults_in bytes.now) }
{
    let checker = checked(alloc, name, bytes)?;
    let faults = checker.faults;
    let text = with_counts(checker)?;
    Ok(Listing { text, faults })
}

/// The file, checked whole.
fn checked(alloc: Global, name: &Text, bytes: &[u8]) -> Result<Checker, Memory>
    ensures { IfOk result (λ k. Stands name.now k (file_checked bytes.now)) }
{
    let mut checker = Checker::new(alloc, name, bytes)?;
    for _ in 0..bytes.len() + 1 {
        match checker.place {
            Place::Item(at) => checker.take(alloc, name, bytes, at)?,
            Place::End => break,
        }
    }
    Ok(checker)
}

/// What is written of the file: the lines of its faults, and the line of the numbers.
fn with_counts(checker: Checker) -> Result<Vec<u8>, Memory>
    ensures { (name : Chars) (c : Checking) → Stands name checker c → IfOk result (λ v. v.items ≡ encode_utf8_all (listing_of name c)) }
{
    let mut out = checker.out;
    put_number(&mut out, checker.clauses)?;
    put_words(&mut out, " clauses, ")?;
    put_number(&mut out, checker.directives)?;
    put_words(&mut out, " directives, ")?;
    put_number(&mut out, checker.faults)?;
    put_words(&mut out, " faults.\n")?;
    Ok(out)
}

/// Puts words in ASCII.
fn put_words(out: &mut Vec<u8>, words: &str) -> Result<(), Memory>
    requires { IsTrue (list_all is_ascii words.now) }
    ensures { OnOk result (Adds out.old.items out.new.items words.now) }
{
    out.extend_from_slice(words.as_bytes())?;
    Ok(())
}

/// Puts a number in decimal.
fn put_number(out: &mut Vec<u8>, n: u64) -> Result<(), Memory>
    ensures { OnOk result (Adds out.old.items out.new.items (decimal n)) }
{
    let mut digits = Buffer::new();
    out.extend_from_slice(digits.format(n).as_bytes())?;
    Ok(())
}
