ghost use Rattle.std.specs.Prelude.{◌≡◌};
ghost use Rattle.gc_values.specs.Comparisons.{test_of};

use std::cmp::Ordering;

/// What the order of two literals has to be.
#[derive(Clone, Copy)]
pub(crate) enum Rank {
    Less,
    LessEqual,
    Greater,
    GreaterEqual,
}

impl Rank {
    /// Whether an order is one of these.
    pub(crate) fn holds(self, order: Ordering) -> bool
        ensures { result ≡ test_of self order }
    {
        match self {
            Rank::Less => order.is_lt(),
            Rank::LessEqual => order.is_le(),
            Rank::Greater => order.is_gt(),
            Rank::GreaterEqual => order.is_ge(),
        }
    }
}
