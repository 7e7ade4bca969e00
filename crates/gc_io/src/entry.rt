ghost use Rattle.std.specs.Prelude.{◌≡◌, drop, option_copied};
ghost use Rattle.gc_base.specs.Files.{file_of};

use gc_base::{Bytes, Duplicate, Memory, Sequence, Str};
use std::marker::Model;

/// A file of a folder in memory: its name and its bytes. Contracts see the pair of both.
#[derive(Debug, Drop)]
pub struct FileEntry {
    pub name: Str,
    pub bytes: Bytes,
}

impl Model for FileEntry {
    ghost use Rattle.std.specs.Prelude.{List, ℕ};

    ghost Value = { List ℕ × List ℕ };

    ghost view = { λ e. (e.name, e.bytes) };
}

impl Duplicate for FileEntry {
    fn copy(&self) -> Result<FileEntry, Memory> {
        let name = self.name.copy()?;
        let bytes = self.bytes.copy()?;
        Ok(FileEntry { name, bytes })
    }
}

/// A list of files.
pub type FileList = Sequence<FileEntry>;

/// A list of numbers of calls, counted from 0.
pub type CallList = Sequence<u64>;

/// The bytes of the first entry of a name, or `None` where no entry has it.
pub(crate) fn find_file<'a>(files: &'a FileList, name: &str) -> Option<&'a Bytes>
    ensures { option_copied result ≡ file_of files.now name.now }
{
    for entry in files.as_slice() {
        if entry.name.text() == name {
            return Some(&entry.bytes);
        }
    }
    None
}
