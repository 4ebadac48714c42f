//! What `writeq` writes is read back.
ghost use Rattle.std.specs.Prelude.{◌≡◌, ◌^◌, ℕ, List, Some, None, true, codes, pos, negsuc, replicate};
ghost use Rattle.pl_term.specs.Tree.{Chars, Tree, int, atom, comp, none, more};
ghost use Rattle.pl_model.specs.Grammar.{fault};
ghost use Rattle.pl_model.specs.OperatorTable.{OperatorTable, opening_table, refusal, changed, IsSound};
ghost use Rattle.pl_model.specs.TermGrammar.{Lookup, item_by, small_operators};
ghost use Rattle.pl_model.specs.TermWriting.{quoting, text_of};
ghost use Rattle.pl_model.specs.declared.grammar.Quotes.{Quotes};
ghost use Rattle.pl_model.specs.declared.grammar.Quotes.TheVariants.{Codes};
ghost use Rattle.pl_model.specs.declared.syntax.SyntaxKind.TheVariants.{AtomTooLong, IntegerTooLarge, UnexpectedToken};
ghost use Rattle.pl_model.specs.declared.operators.Kind.{Kind};
ghost use Rattle.term_writer.specs.ReadingBack.{is_readable, IsRegular, KeepsNames, Change, table_after, with_end, ReadsAs, ReadsBack, bracket_operator, reads_itself};

/// What `writeq` writes of a term at priority 1200, with a space and a full stop after it, is read as a clause that is
/// a variant of the term, under the same operators, for each table of operators that op/3 can make.
#[tactic(auto, using(crate::proofs::ReadBack::reads_as, crate::proofs::ReadBack::reads_back, crate::proofs::ReadBack::reads_back_after))]
pub fn written_terms_are_read_back()
    ensures made { (cs : List Change) (quotes : Quotes) (t : Tree) → is_readable t ≡ true → ReadsBack (table_after cs) quotes t }
    ensures kept { (ops : OperatorTable) (quotes : Quotes) (t : Tree) → IsSound ops → KeepsNames ops → is_readable t ≡ true → ReadsBack ops quotes t }
    ensures regular { (ops : Lookup) (quotes : Quotes) (t : Tree) → IsRegular ops → is_readable t ≡ true → ReadsAs ops quotes t }
{}

/// The table at the start keeps the comma and the reserved names, and so does each table that a change which is not
/// refused makes of one that does.
pub fn tables_keep_names()
    ensures opening { KeepsNames opening_table }
    ensures changed { (t : OperatorTable) (p : ℕ) (k : Kind) (f : Chars) → KeepsNames t → refusal t p (Some k) f ≡ None → KeepsNames (changed t p k f) }
{}

/// Why texts have at most 248 bytes and integers 64 bits in the law, and why `[]` is no operator: such terms are refused.
pub fn premises_are_needed()
    ensures long { item_by (with_end (text_of quoting small_operators 1200 (atom (replicate 249 97)))) 0 small_operators Codes ≡ fault AtomTooLong 0 }
    ensures longest { is_readable (atom (replicate 248 97)) ≡ true }
    ensures large { item_by (with_end (text_of quoting small_operators 1200 (int (pos (2 ^ 63))))) 0 small_operators Codes ≡ fault IntegerTooLarge 0 }
    ensures brackets { item_by (with_end (text_of quoting bracket_operator 1200 (comp (codes "[]") (atom (codes "a")) none))) 0 bracket_operator Codes ≡ fault UnexpectedToken 2 }
{}

/// Terms that would not be read back without the parentheses and spaces between their pieces.
pub fn awkward_terms_are_read_back()
    ensures minus { reads_itself (comp (codes "-") (int (pos 1)) none) }
    ensures negative { reads_itself (comp (codes "-") (int (negsuc 0)) none) }
    ensures operator { reads_itself (comp (codes "-") (atom (codes "-")) none) }
    ensures functor { reads_itself (comp (codes "-") (comp (codes ",") (atom (codes "a")) (more (atom (codes "b")) none)) none) }
    ensures left { reads_itself (comp (codes "=") (atom (codes ":-")) (more (atom (codes "=")) none)) }
    ensures equal { reads_itself (comp (codes ",") (comp (codes ",") (atom (codes "a")) (more (atom (codes "b")) none)) (more (atom (codes "c")) none)) }
    ensures argument { reads_itself (comp (codes "f") (comp (codes ":-") (atom (codes "a")) none) (more (atom (codes ",")) none)) }
    ensures curly { reads_itself (comp (codes "{}") (comp (codes ":-") (atom (codes "{}")) none) none) }
    ensures tail { reads_itself (comp (codes ".") (atom (codes "|")) (more (comp (codes "++") (atom (codes "[]")) none) none)) }
    ensures quotes { reads_itself (comp (codes "-") (atom (codes "'a")) (more (comp (codes "'") (int (negsuc 1)) none) none)) }
{}
