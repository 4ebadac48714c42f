//! Prolog flags are given values and listed (ISO 7.11, 8.17).
ghost use Rattle.std.specs.Prelude.{◌≡◌, [], ◌<◌, ◌^◌, ℕ, suc, Some, IsSome, IfOk, length};
ghost use Rattle.std.specs.List.{All};
ghost use Rattle.pl_term.specs.Tree.{Chars, Tree, atom, int};
ghost use Rattle.pl_model.specs.Database as database;
ghost use Rattle.pl_model.specs.Flags as definitions;
ghost use Rattle.pl_model.specs.History as entries;
ghost use Rattle.pl_model.specs.Requests as requests;
ghost use Rattle.atom_api.specs.Fixed as texts;
ghost use Rattle.atom_api.specs.Names.{Names};
ghost use Rattle.atom_words.specs.Seats.{seen};
ghost use Rattle.atom_words.specs.declared.view.View.{View};
ghost use Rattle.atom_table.specs.Naming.{Lawful, names};
ghost use Rattle.clause_db.specs.Flags.{flags_as, unknown_as};
ghost use Rattle.clause_db.specs.Reading.{SaysFor};
ghost use Rattle.world_api.specs.Texts.{text_of};
ghost use Rattle.counted_terms.specs.Rows.{row_names, row_refusals};
ghost use Rattle.hub_database.specs.Database.{IsDatabase, IsUpTo, clause_counts};
ghost use Rattle.hub_database.specs.Flags.{IsFlag, IsFlags, numbered_setting};
ghost use Rattle.hub_database.specs.Rows.{Decides, Tells, generation_after};

use crate::refusals::{refusal, worn_error};
use atom_api::{Atom, fixed};
use atom_table::{NamesTable, TableAtoms};
use clause_db::{Db, Flag, FlagValue as Setting, Flags, Quotes, UnknownCall};
use counted_terms::{CountedTerm, MOST_UPDATES, Row, atom_term};
use pl_term::Memory;
use std::alloc::Global;
use term_store::{AtomNode, Stored};
use world_api::{FlagValue, Reply};

/// The flag has this value from now on (set_prolog_flag/2, ISO 8.17.1). What is no flag that can be changed, and no value of
/// it, changes nothing.
pub fn put_flag<K: NamesTable>(
    alloc: Global,
    db: &mut Db<CountedTerm>,
    atoms: &TableAtoms<K>,
    flag: Atom,
    value: Atom,
    generation: u64,
) -> Row
    requires upto { IsUpTo generation db.old }
    ensures weighs { (a : ℕ) → clause_counts db.new a ≡ clause_counts db.old a }
    ensures upto { IsUpTo (generation_after result generation) db.new }
    ensures floor { db.new.floor ≡ db.old.floor }
    ensures named { All (λ a. IsSome (names (seen atoms.now.seat) a)) (row_names result) }
    ensures unrefused { row_refusals result ≡ [] }
    ensures says { (k : View) (goals e : ℕ) (h : entries.History) → length h ≡ generation → IsDatabase k db.old goals h
        → Decides goals e (text_of (names (seen atoms.now.seat))) (requests.put_flag (text_of (names (seen atoms.now.seat)) flag) (text_of (names (seen atoms.now.seat)) value)) h (entries.set_flag (text_of (names (seen atoms.now.seat)) flag) (text_of (names (seen atoms.now.seat)) value)) k db.new result }
{
    let _ = atoms;
    if generation >= MOST_UPDATES {
        return refusal(worn_error(alloc));
    }
    set(db, flag, value, generation);
    Row::Makes(Reply::Done)
}

// Gives the flag the value, where the one can be changed to the other.
fn set(db: &mut Db<CountedTerm>, flag: Atom, value: Atom, place: u64)
    requires few { place < 2 ^ 47 }
    requires upto { IsUpTo place db.old }
    ensures flags { (m : Names) → Lawful m → db.new.flags ≡ definitions.with_flag (text_of m flag) (text_of m value) db.old.flags }
    ensures operators { db.new.operators ≡ db.old.operators }
    ensures weighs { (a : ℕ) → clause_counts db.new a ≡ clause_counts db.old a }
    ensures upto { IsUpTo (suc place) db.new }
    ensures floor { db.new.floor ≡ db.old.floor }
    ensures says { (f : Tree → entries.Clause) (d : ℕ → database.Database entries.Clause) → SaysFor f db.old d → SaysFor f db.new d }
{
    match setting(flag, value) {
        Some((f, v)) => db.set_flag(f, v, place),
        None => {}
    }
}

// The flag and its value, where it is one that can be changed and it can have the value.
fn setting(flag: Atom, value: Atom) -> Option<(Flag, Setting)>
    ensures { result ≡ numbered_setting flag value }
{
    let flag = flag.slot();
    let value = value.slot();
    if flag == fixed::DOUBLE_QUOTES.slot() {
        return quotes_setting(value);
    }
    if flag == fixed::UNKNOWN.slot() {
        return unknown_setting(value);
    }
    None
}

// The flag `double_quotes` and its value.
fn quotes_setting(value: u32) -> Option<(Flag, Setting)>
    ensures { result ≡ numbered_setting 78 value }
{
    if value == fixed::CODES.slot() {
        return Some((Flag::DoubleQuotes, Setting::Codes));
    }
    if value == fixed::CHARS.slot() {
        return Some((Flag::DoubleQuotes, Setting::Chars));
    }
    if value == fixed::ATOM.slot() {
        return Some((Flag::DoubleQuotes, Setting::Atom));
    }
    None
}

// The flag `unknown` and its value.
fn unknown_setting(value: u32) -> Option<(Flag, Setting)>
    ensures { result ≡ numbered_setting 181 value }
{
    if value == fixed::ERROR.slot() {
        return Some((Flag::Unknown, Setting::Error));
    }
    if value == fixed::FAIL.slot() {
        return Some((Flag::Unknown, Setting::Fail));
    }
    None
}

/// All flags with their values, in standard order (current_prolog_flag/2, ISO 8.17.2).
pub fn all_flags<K: NamesTable>(alloc: Global, db: &Db<CountedTerm>, atoms: &TableAtoms<K>) -> Row
    ensures named { All (λ a. IsSome (names (seen atoms.now.seat) a)) (row_names result) }
    ensures unrefused { row_refusals result ≡ [] }
    ensures says { (k : View) (goals e : ℕ) (h : entries.History) → IsDatabase k db.now goals h → Tells goals e (text_of (names (seen atoms.now.seat))) requests.all_flags h result }
{
    let _ = atoms;
    match flags_listed(alloc, db.flags()) {
        Ok(values) => Row::Reads(Reply::Flags(values)),
        Err(Memory) => Row::Memory,
    }
}

// All flags with their values, in standard order. The only error is out of memory.
fn flags_listed(alloc: Global, flags: Flags) -> Result<Vec<FlagValue<Stored>>, Memory>
    ensures { IfOk result (λ v. IsFlags (definitions.listed_flags (flags_as flags)) v.items) }
{
    let bounded = atom_flag(alloc, fixed::BOUNDED, fixed::TRUE)?;
    let quotes = atom_flag(
        alloc,
        fixed::DOUBLE_QUOTES,
        quotes_atom(flags.double_quotes),
    )?;
    let rounding = atom_flag(alloc, fixed::INTEGER_ROUNDING_FUNCTION, fixed::TOWARD_ZERO)?;
    let greatest = int_flag(alloc, fixed::MAX_INTEGER, i64::MAX)?;
    let least = int_flag(alloc, fixed::MIN_INTEGER, i64::MIN)?;
    let unknown = atom_flag(alloc, fixed::UNKNOWN, unknown_atom(flags.unknown))?;
    Ok(vec![in alloc; bounded, quotes, rounding, greatest, least, unknown]?)
}

// A flag whose value is an atom. The only error is out of memory.
fn atom_flag(alloc: Global, flag: Atom, value: Atom) -> Result<FlagValue<Stored>, Memory>
    ensures { IfOk result (λ x. (t u : Chars) → texts.fixed flag ≡ Some t → texts.fixed value ≡ Some u → IsFlag (t, atom u) x) }
{
    let value = atom_term(alloc, value)?;
    Ok(FlagValue { flag, value })
}

// A flag whose value is an integer. The only error is out of memory.
fn int_flag(alloc: Global, flag: Atom, value: i64) -> Result<FlagValue<Stored>, Memory>
    ensures { IfOk result (λ x. (t : Chars) → texts.fixed flag ≡ Some t → IsFlag (t, int value) x) }
{
    let value = Stored::from_nodes(alloc, &[AtomNode::Int(value)])?;
    Ok(FlagValue { flag, value })
}

// The value of `double_quotes`.
fn quotes_atom(quotes: Quotes) -> Atom
    ensures { texts.fixed result ≡ Some (definitions.quotes_text quotes) }
{
    match quotes {
        Quotes::Codes => fixed::CODES,
        Quotes::Chars => fixed::CHARS,
        Quotes::Atom => fixed::ATOM,
    }
}

// The value of `unknown`.
fn unknown_atom(unknown: UnknownCall) -> Atom
    ensures { texts.fixed result ≡ Some (definitions.unknown_text (unknown_as unknown)) }
{
    match unknown {
        UnknownCall::Raises => fixed::ERROR,
        UnknownCall::Fails => fixed::FAIL,
    }
}
