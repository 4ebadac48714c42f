//! Bytes as one value.
ghost use Rattle.std.specs.Prelude.{◌≡◌, ◌==◌, IfOk, length};

use pl_term::Memory;
use std::alloc::Global;
use std::marker::Model;

/// Bytes in memory, seen by contracts as their list.
#[derive(Debug, Drop)]
pub struct Bytes {
    all: Vec<u8>,
}

impl Model for Bytes {
    ghost use Rattle.std.specs.Prelude.{List, ℕ};

    ghost Value = { List ℕ };

    ghost view = { λ b. b.all.items };
}

impl Bytes {
    /// The bytes of this vector.
    pub fn from_vec(all: Vec<u8>) -> Bytes
        ensures { result ≡ all.items }
    {
        Bytes { all }
    }

    /// A copy of these bytes. The only error is out of memory.
    pub fn from_slice(alloc: Global, bytes: &[u8]) -> Result<Bytes, Memory>
        ensures { IfOk result (λ b. b ≡ bytes.now) }
    {
        let all = bytes.to_vec(alloc)?;
        Ok(Bytes { all })
    }

    /// The bytes.
    pub fn as_slice(&self) -> &[u8]
        ensures { result.now ≡ self.now }
    {
        self.all.as_slice()
    }

    /// The vector of the bytes.
    pub fn into_vec(self) -> Vec<u8>
        ensures { result.items ≡ self }
    {
        let Bytes { all } = self;
        all
    }

    /// The number of bytes.
    pub fn len(&self) -> usize
        ensures { result ≡ length self.now }
    {
        self.all.len()
    }

    /// Whether there is no byte.
    pub fn is_empty(&self) -> bool
        ensures { result ≡ (length self.now == 0) }
    {
        self.all.is_empty()
    }
}
