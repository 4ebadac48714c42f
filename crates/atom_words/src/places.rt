//! Where the words of a table stand.
ghost use Rattle.std.specs.Prelude.{◌≡◌, ℕ, ◌+◌, ◌*◌, ◌<◌, ◌≤◌};
ghost use Rattle.atom_words.specs.Board.{word_count, near_at, atom_at, link_at, head_at, text_at};

use crate::words::Words;

impl Words {
    // The place of the first word of the first slot, before which a few words are left out.
    fn near_place(&self) -> usize
        ensures place { result ≡ near_at self.now.size }
        ensures inside { result + 8 * self.now.size.slots + 26 * self.now.size.slots ≤ self.now.table.shared.table_id.words }
    {
        let before = self.size.engines as usize + self.size.heads as usize;
        2 + before + (4 + 7 * before) % 8
    }

    /// The place of a slot's atom word.
    pub fn atom_place(&self, slot: u32) -> usize
        requires { slot < self.now.size.slots }
        ensures place { result ≡ atom_at self.now.size slot }
        ensures inside { result < self.now.table.shared.table_id.words }
    {
        self.near_place() + 8 * slot as usize
    }

    /// The place of a slot's link word.
    pub fn link_place(&self, slot: u32) -> usize
        requires { slot < self.now.size.slots }
        ensures place { result ≡ link_at self.now.size slot }
        ensures inside { result < self.now.table.shared.table_id.words }
    {
        self.near_place() + 8 * slot as usize + 1
    }

    /// The place of a head.
    pub fn head_place(&self, head: u32) -> usize
        requires { head < self.now.size.heads }
        ensures place { result ≡ head_at self.now.size head }
        ensures inside { result < self.now.table.shared.table_id.words }
    {
        2 + self.size.engines as usize + head as usize
    }

    /// The place of one of the 32 words of a slot's text: the first six stand behind the slot's atom word and link word.
    pub fn text_place(&self, slot: u32, i: usize) -> usize
        requires { (slot < self.now.size.slots) × (i < 32) }
        ensures place { result ≡ text_at self.now.size slot i }
        ensures inside { result < self.now.table.shared.table_id.words }
    {
        if i < 6 {
            self.near_place() + 8 * slot as usize + i + 2
        } else {
            self.near_place() + 8 * self.size.slots as usize + 26 * slot as usize + (i - 6)
        }
    }
}
