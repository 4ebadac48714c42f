//! Terms and clauses in full (ISO 6.2, 6.3), with texts and what they read as.
ghost use Rattle.std.specs.Prelude.{◌≡◌, ◌<◌, ℕ, List, ◌∷◌, [], codes, length, pos, negsuc};
ghost use Rattle.pl_term.specs.Tree.{var, int, atom, comp, none, more};
ghost use Rattle.pl_model.specs.Grammar.{clause, fault, end_of_text};
ghost use Rattle.pl_model.specs.TermGrammar.{Lookup, item_by, item_within, small_operators};
ghost use Rattle.pl_model.specs.declared.grammar.Quotes.{Quotes as QuotesFlag};
ghost use Rattle.pl_model.specs.declared.grammar.Quotes.TheVariants.{Codes, Atom};
ghost use Rattle.pl_model.specs.declared.syntax.SyntaxKind.TheVariants.{IntegerTooLarge, OpenQuote, PriorityClash, UnexpectedEnd, UnexpectedToken};

/// What a text in double quotes is read as (ISO 6.3.7, flag double_quotes, 7.11.2.5).
#[derive(Debug, Clone, Copy, PartialEq, Eq, Drop)]
pub enum Quotes {
    /// The list of its character codes.
    Codes,
    /// The list of its characters.
    Chars,
    /// An atom.
    Atom,
}

/// Numerals with and without a sign, and the operator that only looks like one (ISO 6.3.1.2, 6.3.4).
pub fn reads_numerals()
    ensures negative { item_by (codes "-1.") 0 small_operators Codes ≡ clause (int (negsuc 0)) [] 0 3 }
    ensures operator { item_by (codes "- 1.") 0 small_operators Codes ≡ clause (comp (codes "-") (int (pos 1)) none) [] 0 4 }
    ensures functor { item_by (codes "-(1).") 0 small_operators Codes ≡ clause (comp (codes "-") (int (pos 1)) none) [] 0 5 }
    ensures difference { item_by (codes "a -1.") 0 small_operators Codes
        ≡ clause (comp (codes "-") (atom (codes "a")) (more (int (pos 1)) none)) [] 0 5 }
    ensures quoted { item_by (codes "'-'1.") 0 small_operators Codes ≡ clause (comp (codes "-") (int (pos 1)) none) [] 0 5 }
{}

/// Prefix operators that are atoms, by the token that follows (ISO 6.3.4.2).
pub fn reads_operators_as_atoms()
    ensures alone { item_by (codes "- .") 0 small_operators Codes ≡ clause (atom (codes "-")) [] 0 3 }
    ensures argument { item_by (codes "f(-).") 0 small_operators Codes ≡ clause (comp (codes "f") (atom (codes "-")) none) [] 0 5 }
    ensures twice { item_by (codes "- - a.") 0 small_operators Codes
        ≡ clause (comp (codes "-") (comp (codes "-") (atom (codes "a")) none) none) [] 0 6 }
    ensures left { item_by (codes "- = a.") 0 small_operators Codes
        ≡ clause (comp (codes "=") (atom (codes "-")) (more (atom (codes "a")) none)) [] 0 6 }
{}

/// Lists and curly terms (ISO 6.3.5, 6.3.6), and texts that are lists (ISO 6.3.7).
pub fn reads_lists()
    ensures empty { item_by (codes "[].") 0 small_operators Codes ≡ clause (atom (codes "[]")) [] 0 3 }
    ensures tail { item_by (codes "[a|B].") 0 small_operators Codes
        ≡ clause (comp (codes ".") (atom (codes "a")) (more (var 0) none)) ((codes "B", 0) ∷ []) 0 6 }
    ensures elements { item_by (codes "[a,b].") 0 small_operators Codes
        ≡ clause (comp (codes ".") (atom (codes "a")) (more (comp (codes ".") (atom (codes "b")) (more (atom (codes "[]")) none)) none)) [] 0 6 }
    ensures curly { item_by (codes "{a}.") 0 small_operators Codes ≡ clause (comp (codes "{}") (atom (codes "a")) none) [] 0 4 }
    ensures text { item_by (codes "\"a\".") 0 small_operators Codes
        ≡ clause (comp (codes ".") (int (pos 97)) (more (atom (codes "[]")) none)) [] 0 4 }
    ensures name { item_by (codes "\"a\".") 0 small_operators Atom ≡ clause (atom (codes "a")) [] 0 4 }
{}

/// Priorities that do not fit (ISO 6.3.4.2), and the first fault of two.
pub fn reads_clashes()
    ensures argument { item_by (codes "f(:- a).") 0 small_operators Codes ≡ fault PriorityClash 2 }
    ensures neither { item_by (codes "a=b=c.") 0 small_operators Codes ≡ fault UnexpectedToken 3 }
    ensures first { item_by (codes "f(:- 'x") 0 small_operators Codes ≡ fault OpenQuote 5 }
    ensures bar { item_by (codes "a|b.") 0 small_operators Codes ≡ fault UnexpectedToken 1 }
    ensures last { item_by (codes "[a") 0 small_operators Codes ≡ fault UnexpectedEnd 2 }
{}

/// Prefix operators with their operands, and where they are atoms (ISO 6.3.4.2).
pub fn reads_prefix_operators()
    ensures bracketed { item_by (codes "\\+ (a,b).") 0 small_operators Codes
        ≡ clause (comp (codes "\\+") (comp (codes ",") (atom (codes "a")) (more (atom (codes "b")) none)) none) [] 0 9 }
    ensures closer { item_by (codes "\\+a,b.") 0 small_operators Codes
        ≡ clause (comp (codes ",") (comp (codes "\\+") (atom (codes "a")) none) (more (atom (codes "b")) none)) [] 0 6 }
    ensures number { item_by (codes "a - - 1.") 0 small_operators Codes
        ≡ clause (comp (codes "-") (atom (codes "a")) (more (comp (codes "-") (int (pos 1)) none) none)) [] 0 8 }
    ensures numeral { item_by (codes "a - -1.") 0 small_operators Codes
        ≡ clause (comp (codes "-") (atom (codes "a")) (more (int (negsuc 0)) none)) [] 0 7 }
    ensures list { item_by (codes "- [a].") 0 small_operators Codes
        ≡ clause (comp (codes "-") (comp (codes ".") (atom (codes "a")) (more (atom (codes "[]")) none)) none) [] 0 6 }
    ensures argument { item_by (codes "f(:-).") 0 small_operators Codes ≡ clause (comp (codes "f") (atom (codes ":-")) none) [] 0 6 }
    ensures right { item_by (codes ":- a = :- .") 0 small_operators Codes
        ≡ clause (comp (codes ":-") (comp (codes "=") (atom (codes "a")) (more (atom (codes ":-")) none)) none) [] 0 11 }
    ensures first { item_by (codes ":- = a.") 0 small_operators Codes
        ≡ clause (comp (codes "=") (atom (codes ":-")) (more (atom (codes "a")) none)) [] 0 7 }
    ensures brackets { item_by (codes "- (-) .") 0 small_operators Codes ≡ clause (comp (codes "-") (atom (codes "-")) none) [] 0 7 }
{}

/// Prefix operators whose priorities do not fit, or whose operands are not there (ISO 6.3.4.2).
pub fn refuses_prefix_operators()
    ensures twice { item_by (codes ":- :- a.") 0 small_operators Codes ≡ fault PriorityClash 3 }
    ensures right { item_by (codes "a = :- b.") 0 small_operators Codes ≡ fault PriorityClash 4 }
    ensures nothing { item_by (codes "a = \\+.") 0 small_operators Codes ≡ fault UnexpectedEnd 7 }
    ensures end { item_by (codes "- ") 0 small_operators Codes ≡ fault UnexpectedEnd 2 }
{}

/// Operators after one another, by their specifiers (ISO 6.3.4.2, table 4).
pub fn reads_chains()
    ensures from_left { item_by (codes "a-b-c.") 0 small_operators Codes
        ≡ clause (comp (codes "-") (comp (codes "-") (atom (codes "a")) (more (atom (codes "b")) none)) (more (atom (codes "c")) none)) [] 0 6 }
    ensures from_right { item_by (codes "a,b,c.") 0 small_operators Codes
        ≡ clause (comp (codes ",") (atom (codes "a")) (more (comp (codes ",") (atom (codes "b")) (more (atom (codes "c")) none)) none)) [] 0 6 }
    ensures quoted { item_by (codes "a ',' b.") 0 small_operators Codes
        ≡ clause (comp (codes ",") (atom (codes "a")) (more (atom (codes "b")) none)) [] 0 8 }
    ensures lower { item_by (codes "- a - b.") 0 small_operators Codes
        ≡ clause (comp (codes "-") (comp (codes "-") (atom (codes "a")) none) (more (atom (codes "b")) none)) [] 0 8 }
    ensures behind { item_by (codes "a++ = b.") 0 small_operators Codes
        ≡ clause (comp (codes "=") (comp (codes "++") (atom (codes "a")) none) (more (atom (codes "b")) none)) [] 0 8 }
    ensures postfix_atom { item_by (codes "a= ++ .") 0 small_operators Codes
        ≡ clause (comp (codes "=") (atom (codes "a")) (more (atom (codes "++")) none)) [] 0 7 }
{}

/// Operands and arguments that are too high, or not there (ISO 6.3.3, 6.3.4.2).
pub fn refuses_operands()
    ensures separator { item_by (codes "f(a ',' b).") 0 small_operators Codes ≡ fault UnexpectedToken 4 }
    ensures tail { item_by (codes "[a|b,c].") 0 small_operators Codes ≡ fault UnexpectedToken 4 }
    ensures postfix { item_by (codes "- a++.") 0 small_operators Codes ≡ fault UnexpectedToken 3 }
    ensures behind { item_by (codes "a ++ b.") 0 small_operators Codes ≡ fault UnexpectedToken 5 }
    ensures functor { item_by (codes "\"a\"(x).") 0 small_operators Codes ≡ fault UnexpectedToken 3 }
    ensures large { item_by (codes "- 9223372036854775808.") 0 small_operators Codes ≡ fault IntegerTooLarge 2 }
{}

/// Brackets that stay open, as deep as the text is long: the fault is where it lies.
pub fn reads_open_brackets()
    ensures quote { item_by (codes "[[[[[['x") 0 small_operators Codes ≡ fault OpenQuote 6 }
    ensures token { item_by (codes "[[[[a b") 0 small_operators Codes ≡ fault UnexpectedToken 6 }
{}

/// The bound on depth is no part of what a text reads as: every bound above the number of its bytes gives the same.
#[tactic(auto, using(crate::proofs::TermDepth::depth_is_enough))]
pub fn any_depth_is_enough()
    ensures { (text : List ℕ) (ops : Lookup) (quotes : QuotesFlag) (depth at : ℕ) → length text < depth
        → item_within depth text at ops quotes ≡ item_by text at ops quotes }
{}
