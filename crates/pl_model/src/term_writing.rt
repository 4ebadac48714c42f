//! Terms in full and their texts (ISO 7.10.5).
ghost use Rattle.std.specs.Prelude.{◌≡◌, ℕ, List, ◌∷◌, [], codes, pos, negsuc};
ghost use Rattle.pl_term.specs.Tree.{var, int, atom, comp, none, more};
ghost use Rattle.pl_model.specs.TermGrammar.{small_operators};
ghost use Rattle.pl_model.specs.TermWriting.{text_of, quoting, bare, canonical, no_operators};

/// Prefix operators and what follows them: spaces keep them from being functors, signs, or one name with the next one.
pub fn writes_prefix_operators()
    ensures number { text_of quoting small_operators 1200 (comp (codes "-") (int (pos 1)) none) ≡ codes "- 1" }
    ensures negative { text_of quoting small_operators 1200 (comp (codes "-") (int (negsuc 0)) none) ≡ codes "- -1" }
    ensures name { text_of quoting small_operators 1200 (comp (codes "-") (atom (codes "a")) none) ≡ codes "-a" }
    ensures twice { text_of quoting small_operators 1200 (comp (codes "-") (comp (codes "-") (atom (codes "a")) none) none) ≡ codes "- -a" }
    ensures operand { text_of quoting small_operators 1200 (comp (codes "-") (atom (codes "=")) none) ≡ codes "- (=)" }
    ensures operation { text_of quoting small_operators 1200
        (comp (codes "-") (comp (codes "=") (atom (codes "a")) (more (var 0) none)) none) ≡ codes "- (a=_0)" }
{}

/// Operands in parentheses, by priorities and sides.
pub fn writes_operands()
    ensures left { text_of quoting small_operators 1200
        (comp (codes "-") (comp (codes "-") (atom (codes "a")) (more (atom (codes "b")) none)) (more (int (negsuc 0)) none)) ≡ codes "a-b- -1" }
    ensures right { text_of quoting small_operators 1200
        (comp (codes "-") (atom (codes "a")) (more (comp (codes "-") (atom (codes "b")) (more (atom (codes "c")) none)) none)) ≡ codes "a-(b-c)" }
    ensures same { text_of quoting small_operators 1200
        (comp (codes ",") (comp (codes ",") (atom (codes "a")) (more (atom (codes "b")) none)) (more (atom (codes "c")) none)) ≡ codes "(a,b),c" }
    ensures argument { text_of quoting small_operators 1200
        (comp (codes "f") (comp (codes ",") (atom (codes "a")) (more (atom (codes "b")) none)) none) ≡ codes "f((a,b))" }
    ensures alone { text_of quoting small_operators 1200 (comp (codes "f") (atom (codes "-")) none) ≡ codes "f(-)" }
{}

/// The manners of writing: with quotes, without them, and without operators.
pub fn writes_in_manners()
    ensures quotes { text_of quoting small_operators 1200 (comp (codes "{}") (atom (codes "A b")) none) ≡ codes "{'A b'}" }
    ensures bare { text_of bare small_operators 1200 (comp (codes "{}") (atom (codes "A b")) none) ≡ codes "{A b}" }
    ensures canonical { text_of canonical no_operators 1200
        (comp (codes "-") (comp (codes "{}") (atom (codes "a")) none) (more (int (pos 1)) none)) ≡ codes "-('{}'(a),1)" }
    ensures empty { text_of bare small_operators 1200 (comp (codes "-") (atom []) (more (int (pos 1)) none)) ≡ codes "-1" }
{}
