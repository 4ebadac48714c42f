//! Plain atoms.
ghost use Rattle.std.specs.Prelude.{◌≡◌, ◌↔◌, ℕ, List, [], Option, Some, None, IfOk, IsTrue};
ghost use Rattle.std.specs.HashMap.{get_by_text};
ghost use Rattle.atom_words.specs.declared.view.Refusal.{Refusal};
ghost use Rattle.atom_api.specs.Fixed.{fixed};
ghost use Rattle.atom_api.specs.Names.{FixedStand};
ghost use Rattle.atom_api.specs.Slots.{names_of};
ghost use Rattle.atom_api.specs.SlotLaws.{unlike_by_index, finite_by_slots};

use crate::atom::Atom;
use crate::atoms::Atoms;
use crate::fixed::COUNT;
use crate::fixed_table::fixed_atoms;
use crate::interned::Interned;
use crate::slots::Slots;
use crate::text_buf::{ROOM, TextBuf};
use pl_term::{Memory, Text};
use std::alloc::Global;

/// Atoms for one thread: a vector of texts. It refuses a text only where it is too long or memory is wanting.
#[derive(Drop)]
pub struct PlainAtoms {
    slots: Slots,
    ghost fixed_stand: { FixedStand (names_of slots.texts.items) },
}

impl PlainAtoms {
    /// Atoms of which the fixed ones alone are held. The only error is out of memory.
    pub fn new(alloc: Global) -> Result<PlainAtoms, Memory>
        ensures { IfOk result (λ atoms. (a : ℕ) → ⟦<PlainAtoms as Atoms>⟧.held atoms a ≡ fixed a) }
    {
        let mut slots = Slots::new(alloc);
        let rows = fixed_atoms(alloc)?;
        for row in &rows {
            slots.put(&row.1)?;
        }
        Ok(PlainAtoms { slots })
    }
}

impl Atoms for PlainAtoms {
    ghost held = { λ atoms. names_of atoms.slots.texts.items };

    ghost refusals = { λ _. [] };

    ghost asked = { λ _. None };

    fn intern(&mut self, text: &Text) -> Interned {
        let bytes = text.size();
        if bytes > ROOM {
            return Interned::TooLong { bytes };
        }
        if let Some(slot) = self.slots.find(text) {
            return Interned::Is(Atom::at(slot));
        }
        match self.slots.put(text) {
            Ok(slot) => Interned::Is(Atom::at(slot)),
            Err(_) => Interned::Memory,
        }
    }

    fn text(&mut self, a: Atom, buf: &mut TextBuf) {
        self.slots.read(a.slot() as usize, buf);
    }

    fn reads(&self, a: Atom, text: &Text) -> bool
        ensures { IsTrue result ↔ (names_of self.now.slots.texts.items a ≡ Some text.now) }
    {
        self.slots.has(a.slot() as usize, text)
    }

    fn keep_only(&mut self, live: &[Atom]) {
        self.slots.keep(COUNT, live);
    }

    ghost fixed_held = { λ s. s.fixed_stand };

    ghost unlike = { λ s. unlike_by_index (get_by_text s.slots.numbers) (names_of s.slots.texts.items) s.slots.indexed };

    ghost finite = { λ s. finite_by_slots s.slots.texts.items s.slots.few s.slots.fitting };
}
