ghost use Rattle.std.specs.Prelude.{◌≡◌, ◌≤◌, Some, length, take, drop, min, ◌-◌, IfOk, IfErr, OnOk, OnErr};
ghost use Rattle.gc_base.specs.Faults.{Rose};
ghost use Rattle.gc_base.specs.Files.{IsRead, IsReadOf, file_of};
ghost use Rattle.gc_io.specs.Causes.{HasCause};
ghost use Rattle.gc_io.specs.Memory.{after_read, read_answer, read_count, is_failing};

use crate::entry::{CallList, FileList, find_file};
use crate::folder::{Folder, FolderFault};
use std::marker::Model;

/// A folder in memory, of whose calls those that are listed fail.
#[derive(Debug, Drop)]
pub struct MemoryFolder {
    files: FileList,
    failing: CallList,
    calls: u64,
    faults: u64,
}

impl Model for MemoryFolder {
    ghost use Rattle.gc_io.specs.Memory.{FolderState};

    ghost Value = { FolderState };

    ghost view = { λ f. record { files = f.files; failing = f.failing; calls = f.calls; faults = f.faults } };
}

impl MemoryFolder {
    /// A folder of these files whose calls fail exactly where their number, from 0, is listed. It
    /// takes no memory.
    pub fn new(files: FileList, failing: CallList) -> MemoryFolder
        ensures { result ≡ record { files = files; failing = failing; calls = 0; faults = 0 } }
    {
        MemoryFolder {
            files,
            failing,
            calls: 0,
            faults: 0,
        }
    }

    /// How many calls there were so far.
    pub fn calls(&self) -> u64
        ensures { result ≡ self.now.calls }
    {
        self.calls
    }
}

impl Folder for MemoryFolder {
    ghost files = { λ f. Some f.files };

    ghost faults = { λ f. f.faults };

    fn read_at(&mut self, name: &str, at: u64, into: &mut [u8]) -> Result<usize, FolderFault>
        ensures count { IfOk result (λ n. n ≤ length into.new) }
        ensures bytes { IfOk result (λ n. IsReadOf (Some self.old.files) name.now at n into.new) }
        ensures unread { OnErr result (into.new ≡ into.old) }
        ensures cause { IfErr result (HasCause (Some self.old.files) name.now self.old.faults self.new.faults) }
        ensures calm { OnOk result (self.new.faults ≡ self.old.faults) }
        ensures later { self.old.faults ≤ self.new.faults }
        ensures exactly { result ≡ read_answer self.old name.now at (length into.old) }
        ensures state { self.new ≡ after_read self.old }
    {
        let call = self.calls;
        self.calls = call.saturating_add(1);
        if self.failing.as_slice().contains(&call) {
            self.faults = self.faults.saturating_add(1);
            return Err(FolderFault::Failed);
        }
        read_listed(&self.files, name, at, into)
    }
}

/// A folder in memory that never fails.
#[derive(Debug, Drop)]
pub struct SureFolder {
    files: FileList,
}

impl Model for SureFolder {
    ghost use Rattle.gc_base.specs.Files.{Files};

    ghost Value = { Files };

    ghost view = { λ f. f.files };
}

impl SureFolder {
    /// A folder of these files. It takes no memory.
    pub fn new(files: FileList) -> SureFolder
        ensures { result ≡ files }
    {
        SureFolder { files }
    }
}

impl Folder for SureFolder {
    ghost files = { λ f. Some f };

    ghost faults = { λ f. 0 };

    fn read_at(&mut self, name: &str, at: u64, into: &mut [u8]) -> Result<usize, FolderFault>
        ensures count { IfOk result (λ n. n ≤ length into.new) }
        ensures bytes { IfOk result (λ n. IsReadOf (Some self.old) name.now at n into.new) }
        ensures unread { OnErr result (into.new ≡ into.old) }
        ensures cause { IfErr result (HasCause (Some self.old) name.now 0 0) }
        ensures kept { self.new ≡ self.old }
        ensures exactly { result ≡ read_count (file_of self.old name.now) at (length into.old) }
    {
        read_listed(&self.files, name, at, into)
    }
}

/// Reads from listed files.
fn read_listed(files: &FileList, name: &str, at: u64, into: &mut [u8]) -> Result<usize, FolderFault>
    ensures count { IfOk result (λ n. n ≤ length into.new) }
    ensures bytes { IfOk result (λ n. IsReadOf (Some files.now) name.now at n into.new) }
    ensures unread { OnErr result (into.new ≡ into.old) }
    ensures exactly { result ≡ read_count (file_of files.now name.now) at (length into.old) }
{
    match find_file(files, name) {
        Some(bytes) => Ok(copy_from(bytes.as_slice(), at, into)),
        None => Err(FolderFault::Missing),
    }
}

/// Copies the bytes from a place on to the front of a buffer, as many as there are and have room.
fn copy_from(bytes: &[u8], at: u64, into: &mut [u8]) -> usize
    ensures bytes { IsRead bytes.now at result into.new }
    ensures count { result ≡ min (length into.old) (length bytes.now - at) }
{
    if at >= bytes.len() as u64 {
        return 0;
    }
    let rest = &bytes[at as usize..];
    let count = into.len().min(rest.len());
    into[..count].copy_from_slice(&rest[..count]);
    count
}
