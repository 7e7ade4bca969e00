ghost use Rattle.std.specs.Prelude.{◌≡◌};
ghost use Rattle.gc_values.specs.Kleene.{told, denied, both, either};

/// The truth of a condition, which may be unknown.
#[derive(Clone, Copy, Debug, PartialEq, Eq)]
pub enum Truth3 {
    Yes,
    No,
    Unknown,
}

impl Truth3 {
    /// The truth of what is known.
    pub(crate) fn told(holds: bool) -> Truth3
        ensures { result ≡ told holds }
    {
        if holds { Truth3::Yes } else { Truth3::No }
    }

    /// NOT, by Kleene's table.
    pub(crate) fn denied(self) -> Truth3
        ensures { result ≡ denied self }
    {
        match self {
            Truth3::Yes => Truth3::No,
            Truth3::No => Truth3::Yes,
            Truth3::Unknown => Truth3::Unknown,
        }
    }

    /// AND, by Kleene's table.
    pub(crate) fn both(self, other: Truth3) -> Truth3
        ensures { result ≡ both self other }
    {
        match (self, other) {
            (Truth3::Yes, other) => other,
            (Truth3::No, _) | (Truth3::Unknown, Truth3::No) => Truth3::No,
            (Truth3::Unknown, _) => Truth3::Unknown,
        }
    }

    /// OR, by Kleene's table.
    pub(crate) fn either(self, other: Truth3) -> Truth3
        ensures { result ≡ either self other }
    {
        match (self, other) {
            (Truth3::No, other) => other,
            (Truth3::Yes, _) | (Truth3::Unknown, Truth3::Yes) => Truth3::Yes,
            (Truth3::Unknown, _) => Truth3::Unknown,
        }
    }
}
