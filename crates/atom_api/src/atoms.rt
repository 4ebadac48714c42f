//! The trait of atoms.
ghost use Rattle.std.specs.Prelude.{◌≡◌, ◌^◌, ◌<◌, ◌≤◌, ℕ, List, ◌++◌, Option, Some, IsSome, true};
ghost use Rattle.std.specs.Str.{all_scalars};
ghost use Rattle.pl_term.specs.Tree.{Chars};
ghost use Rattle.pl_term.specs.Texts.{size};
ghost use Rattle.atom_words.specs.declared.view.Refusal.{Refusal};
ghost use Rattle.atom_api.specs.Fixed.{fixed};
ghost use Rattle.atom_api.specs.Names.{Names, cut};
ghost use Rattle.atom_api.specs.Interns.{Interns, refused, asked_with};

use crate::atom::Atom;
use crate::interned::Interned;
use crate::text_buf::TextBuf;
use pl_term::Text;

/// What a user of atoms holds: each atom held has a text, which it keeps as long as it is held. The fixed atoms are
/// always held.
pub trait Atoms {
    /// The atoms held, with their texts: a finite map from atoms to texts.
    ghost held: { Self → Names };

    /// What was refused so far. It only grows.
    ghost refusals: { Self → List Refusal };

    /// The texts that `intern` was called with, those that are too long aside, where the implementation tells it.
    ghost asked: { Self → Option (List Chars) };

    /// The atom of a text, which is held from then on. Equal texts have equal atoms while the first is held. A text of
    /// more than 248 bytes is `TooLong`, and no other is. After any answer but `Is` the atoms held are as before. What
    /// `Full`, `Again` and `Worn` carry is appended to the list of refusals.
    fn intern(&mut self, text: &Text) -> Interned
        ensures answer { Interns (held self.old) text.now result (held self.new) }
        ensures refusal { refusals self.new ≡ refusals self.old ++ refused result }
        ensures request { asked self.new ≡ asked_with result text.now (asked self.old) };

    /// Puts the text of a held atom into the buffer. It takes no memory.
    fn text(&mut self, a: Atom, buf: &mut TextBuf)
        requires { IsSome (held self.old a) }
        ensures text { held self.old a ≡ Some buf.new }
        ensures same { held self.new ≡ held self.old }
        ensures refusal { refusals self.new ≡ refusals self.old }
        ensures request { asked self.new ≡ asked self.old };

    /// Whether the atom is held with this text. Where it would cost to tell, it may answer false. It takes no memory.
    fn reads(&self, a: Atom, text: &Text) -> bool
        ensures { result ≡ true → held self.now a ≡ Some text.now };

    /// Holds on only those atoms held that are in the list or fixed. It takes no memory.
    fn keep_only(&mut self, live: &[Atom])
        ensures kept { held self.new ≡ cut live.now (held self.old) }
        ensures refusal { refusals self.new ≡ refusals self.old }
        ensures request { asked self.new ≡ asked self.old };

    // The fixed atoms are held.
    ghost fixed_held: { (s : Self) (a : ℕ) (t : Chars) → fixed a ≡ Some t → held s a ≡ Some t };

    // Atoms held with equal texts are equal.
    ghost unlike: { (s : Self) (a b : ℕ) (t : Chars) → held s a ≡ Some t → held s b ≡ Some t → a ≡ b };

    // Atoms held are numbers of 32 bits, so there are finitely many, and their texts are texts of at most 248 bytes.
    ghost finite: { (s : Self) (a : ℕ) (t : Chars) → held s a ≡ Some t → (a < 2 ^ 32) × (size t ≤ 248) × (all_scalars t ≡ true) };
}
