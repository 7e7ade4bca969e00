use json::Invalid;
use std::alloc::{AllocError, AllocFailed};

// Why tokens gave no value.
#[derive(Clone, Copy, Drop)]
pub(crate) enum Unread {
    // They are no JSON.
    NotJson,
    // Memory is short.
    Memory,
}

impl From<Invalid> for Unread {
    ghost use Rattle.std.specs.Prelude.{◌≡◌};
    ghost use Rattle.gc_json.specs.declared.unread.Unread.TheVariants as unread;

    ghost from_gives = { λ _ made. made ≡ unread.NotJson };

    fn from(_invalid: Invalid) -> Unread {
        Unread::NotJson
    }
}

impl From<AllocError> for Unread {
    ghost use Rattle.std.specs.Prelude.{◌≡◌};
    ghost use Rattle.gc_json.specs.declared.unread.Unread.TheVariants as unread;

    ghost from_gives = { λ _ made. made ≡ unread.Memory };

    fn from(_error: AllocError) -> Unread {
        Unread::Memory
    }
}

impl<T: Drop> From<AllocFailed<T>> for Unread {
    ghost use Rattle.std.specs.Prelude.{◌≡◌};
    ghost use Rattle.gc_json.specs.declared.unread.Unread.TheVariants as unread;

    ghost from_gives = { λ _ made. made ≡ unread.Memory };

    fn from(_failed: AllocFailed<T>) -> Unread {
        Unread::Memory
    }
}
