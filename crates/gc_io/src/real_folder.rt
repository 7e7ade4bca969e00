ghost use Rattle.std.specs.Prelude.{◌≡◌, ◌≤◌, None, length, IfOk};

use crate::folder::{Folder, FolderFault};
use std::io::{ErrorKind, Read, Seek, SeekFrom};
use std::marker::Model;
use std::rt::Files;
use std::{fs, io};

/// The files of the system, by paths from the folder that the program was started in. It tells
/// nothing of what they hold. Contracts see the number of calls that failed.
#[derive(Drop)]
pub struct RealFolder<R: Files + Drop> {
    runtime: R,
    faults: u64,
}

impl<R: Files + Drop> Model for RealFolder<R> {
    ghost use Rattle.std.specs.Prelude.{ℕ};

    ghost Value = { ℕ };

    ghost view = { λ f. f.faults };
}

impl<R: Files + Drop> RealFolder<R> {
    /// The folder that the program was started in.
    pub fn new(runtime: R) -> RealFolder<R>
        ensures { result ≡ 0 }
    {
        RealFolder { runtime, faults: 0 }
    }

    /// How many of its calls failed.
    pub fn faults(&self) -> u64
        ensures { result ≡ self.now }
    {
        self.faults
    }

    // Each read opens the file anew, so that no file stays open and no name has to be kept.
    fn read(&self, name: &str, at: u64, into: &mut [u8]) -> io::Result<usize>
        ensures { IfOk result (λ n. n ≤ length into.new) }
    {
        let mut file = fs::open(&self.runtime, name)?;
        file.seek(SeekFrom::Start(at))?;
        file.read(into)
    }
}

impl<R: Files + Drop> Folder for RealFolder<R> {
    ghost files = { λ f. None };

    ghost faults = { λ f. f };

    fn read_at(&mut self, name: &str, at: u64, into: &mut [u8]) -> Result<usize, FolderFault> {
        match self.read(name, at, into) {
            Ok(count) => Ok(count),
            Err(error) => {
                self.faults = self.faults.saturating_add(1);
                match error.kind() {
                    ErrorKind::NotFound => Err(FolderFault::Missing),
                    _ => Err(FolderFault::Failed),
                }
            }
        }
    }
}
