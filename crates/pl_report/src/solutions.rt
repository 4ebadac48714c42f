//! The line of a solution: the bindings of the goal's variables, put one after the other, so that each value may be written from
//! where it stands.
ghost use Rattle.std.specs.Prelude.{◌≡◌, ◌++◌, ◌∷◌, [], ℕ, List, OnOk, IfOk, MatchOption, false, encode_utf8_all, codes};
ghost use Rattle.pl_term.specs.Tree.{Chars, Tree, atom};
ghost use Rattle.pl_model.specs.OperatorTable.{OperatorTable};
ghost use Rattle.pl_model.specs.TermWriting.{writeq};
ghost use Rattle.run_model.specs.Report.{closed, is_shown, solution_line, with_line};
ghost use Rattle.pl_report.specs.Adds.{Adds};
ghost use Rattle.pl_report.specs.Bindings.{GoesOn, HasBindings};
ghost use Rattle.pl_report.specs.Pieces.{comma_if};

use crate::lines::{close, end_line, put, put_stop, put_value, put_words};
use op_table::OpTable;
use pl_term::{Flat, Memory, Text};
use std::alloc::Global;
use std::convert::AsStr;

/// Begins the line of a solution at the end of a text. The only error is out of memory.
pub fn begin_solution(out: &mut Vec<u8>) -> Result<(), Memory>
    ensures { (t : Chars) (ops : OperatorTable) (ts : List Tree) → out.old.items ≡ encode_utf8_all t
        → OnOk result (HasBindings t ops ts [] false out.new.items) }
{
    close(out)
}

/// Puts what stands before the value of a variable with this name, `Name = ` after a comma where there are bindings before it,
/// and says whether the line shows the variable: one whose name begins with an underscore it does not. The value is to be
/// put by the caller, as `writeq` writes it at 699 (ISO 7.10.5). The only error is out of memory: then the text may have a part of it.
pub fn put_name(out: &mut Vec<u8>, some: bool, name: &Text) -> Result<bool, Memory>
    ensures { IfOk result (λ shown. (t : Chars) (ops : OperatorTable) (ts : List Tree) (ns : List (Chars × ℕ)) (number : ℕ)
        → HasBindings t ops ts ns some out.old.items
        → GoesOn shown t ops ts ns some (name.now, number) out.new.items) }
{
    if !is_shown(name) {
        return Ok(false);
    }
    put_comma(out, some)?;
    put_equals(out, name)?;
    Ok(true)
}

/// Puts what stands for a value that there is not. The only error is out of memory: then the text may have a part of it.
pub fn put_no_value(alloc: Global, out: &mut Vec<u8>, ops: &OpTable) -> Result<(), Memory>
    ensures { OnOk result (Adds out.old.items out.new.items (writeq ops.now 699 (atom []))) }
{
    let text = Text::from_str(alloc, "")?;
    let none = Flat::atom(alloc, &text)?;
    put_value(alloc, out, &none, ops)?;
    Ok(())
}

/// Ends the line of a solution: after bindings, or with `true` where there are none. The only error is out of memory: then the
/// text may have a part of it.
pub fn end_solution(out: &mut Vec<u8>, some: bool) -> Result<(), Memory>
    ensures { (t : Chars) (ops : OperatorTable) (ts : List Tree) (ns : List (Chars × ℕ)) → HasBindings t ops ts ns some out.old.items
        → OnOk result (out.new.items ≡ encode_utf8_all (with_line t (solution_line ns ops ts))) }
{
    put_end(out, some)?;
    end_line(out)?;
    Ok(())
}

/// Puts what stands at the end of what is said of a solution.
fn put_end(out: &mut Vec<u8>, some: bool) -> Result<(), Memory>
    ensures { (t : Chars) (ops : OperatorTable) (ts : List Tree) (ns : List (Chars × ℕ)) → HasBindings t ops ts ns some out.old.items
        → OnOk result (Adds (encode_utf8_all (closed t)) out.new.items (solution_line ns ops ts)) }
{
    if some {
        return put_stop(out);
    }
    put_words(out, "true.")
}

/// Whether a variable with this name is shown.
fn is_shown(name: &Text) -> bool
    ensures { result ≡ is_shown (name.now, 0) }
{
    match first_character(name) {
        Some(c) => c != '_',
        None => false,
    }
}

fn first_character(name: &Text) -> Option<char>
    ensures { MatchOption result (name.now ≡ []) (λ c. (cs : List ℕ) × (name.now ≡ c ∷ cs)) }
{
    name.as_str().chars().next()
}

/// Puts a comma and a space where there is a binding before.
fn put_comma(out: &mut Vec<u8>, some: bool) -> Result<(), Memory>
    ensures { OnOk result (Adds out.old.items out.new.items (comma_if some)) }
{
    if some {
        return put_words(out, ", ");
    }
    Ok(())
}

/// Puts `Name = `.
fn put_equals(out: &mut Vec<u8>, name: &Text) -> Result<(), Memory>
    ensures { OnOk result (Adds out.old.items out.new.items (name.now ++ codes " = ")) }
{
    put(out, name)?;
    put_words(out, " = ")?;
    Ok(())
}
