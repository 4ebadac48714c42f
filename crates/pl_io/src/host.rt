//! The adapters over real files and standard output. Which bytes the system reads and writes is trusted here; all
//! else that the traits say is proved.
ghost use Rattle.std.specs.Prelude.{◌≡◌, None};

use crate::failed::Failed;
use crate::files::Files;
use crate::sink::Sink;
use pl_term::Text;
use std::convert::AsStr;
use std::io::Write;
use std::marker::Model;
use std::os::unix::fs::FileExt;
use std::{fs, io};

/// The files of the system, by their paths. They tell no content. Contracts see them as their count of faults, which
/// is one for all names.
#[derive(Drop)]
pub struct HostFiles<'a, R> {
    rt: &'a R,
    faults: u64,
}

impl<'a, R> Model for HostFiles<'a, R> {
    ghost use Rattle.std.specs.Prelude.{ℕ};

    ghost Value = { ℕ };

    ghost view = { λ f. f.faults };
}

impl<'a, R> HostFiles<'a, R> {
    /// The files that the runtime reaches.
    pub fn new(rt: &'a R) -> HostFiles<'a, R>
        ensures { result ≡ 0 }
    {
        HostFiles { rt, faults: 0 }
    }

    /// How many reads failed, up to 2^64 - 1.
    pub fn faults(&self) -> u64
        ensures { result ≡ self.now }
    {
        self.faults
    }
}

impl<R: std::rt::Files> Files for HostFiles<'_, R>
where
    R::File: FileExt,
{
    ghost told = { λ _ _. None };

    ghost faults = { λ f _. f };

    /// Opens the file, reads at the place, and closes it. Each error of the system is a fault.
    fn read(&mut self, name: &Text, at: u64, buf: &mut [u8]) -> Result<usize, Failed> {
        let answer = match fs::open(self.rt, name.as_str()) {
            Ok(file) => file.read_at(buf, at),
            Err(e) => Err(e),
        };
        match answer {
            Ok(k) => Ok(k),
            Err(_) => {
                self.faults = self.faults.saturating_add(1);
                Err(Failed)
            }
        }
    }
}

/// Standard output. It tells no content. Contracts see it as its count of faults.
#[derive(Drop)]
pub struct HostOutput<'a, R> {
    rt: &'a R,
    faults: u64,
}

impl<'a, R> Model for HostOutput<'a, R> {
    ghost use Rattle.std.specs.Prelude.{ℕ};

    ghost Value = { ℕ };

    ghost view = { λ o. o.faults };
}

impl<'a, R> HostOutput<'a, R> {
    /// The standard output of the runtime.
    pub fn new(rt: &'a R) -> HostOutput<'a, R>
        ensures { result ≡ 0 }
    {
        HostOutput { rt, faults: 0 }
    }

    /// How many writes failed, up to 2^64 - 1.
    pub fn faults(&self) -> u64
        ensures { result ≡ self.now }
    {
        self.faults
    }
}

impl<R: Print> Sink for HostOutput<'_, R> {
    ghost written = { λ _. None };

    ghost faults = { λ o. o };

    /// Hands the piece to the system once. An error of the system is a fault, and so is an answer that nothing of a
    /// piece was taken.
    fn write(&mut self, piece: &[u8]) -> Result<usize, Failed> {
        match io::writer(self.rt).write(piece) {
            Ok(k) if k > 0 || piece.is_empty() => Ok(k),
            _ => {
                self.faults = self.faults.saturating_add(1);
                Err(Failed)
            }
        }
    }
}
