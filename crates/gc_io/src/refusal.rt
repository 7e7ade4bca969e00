use crate::folder::FolderFault;
use std::alloc::AllocError;

/// Why a file was not read.
#[derive(Clone, Copy, Debug, PartialEq, Eq)]
pub enum ReadRefusal {
    /// No file has the name.
    Missing,
    /// A read failed.
    Failed,
    /// The file has more bytes than the limit.
    TooLarge,
    /// Want of memory.
    Memory,
}

impl From<FolderFault> for ReadRefusal {
    ghost use Rattle.std.specs.Prelude.{◌≡◌};
    ghost use Rattle.gc_io.specs.Wholes.{refusal_of};

    ghost from_gives = { λ fault refusal. refusal ≡ refusal_of fault };

    fn from(fault: FolderFault) -> ReadRefusal {
        match fault {
            FolderFault::Missing => ReadRefusal::Missing,
            FolderFault::Failed => ReadRefusal::Failed,
        }
    }
}

impl From<AllocError> for ReadRefusal {
    ghost use Rattle.std.specs.Prelude.{◌≡◌};
    ghost use Rattle.gc_io.specs.declared.refusal.ReadRefusal.TheVariants.{Memory};

    ghost from_gives = { λ _ refusal. refusal ≡ Memory };

    fn from(_error: AllocError) -> ReadRefusal {
        ReadRefusal::Memory
    }
}
