ghost use Rattle.std.specs.Prelude.{◌≡◌, ◌≤◌, ℕ};
ghost use Rattle.std.specs.Option.{SomeIff};

use crate::duplicate::Duplicate;
use crate::memory::Memory;
use std::marker::Model;

/// The largest identity, the largest whole number that every JSON reader keeps exactly.
pub const LARGEST_ID: u64 = 9007199254740991;

/// The identity of a node, an edge or a path. Contracts see it as a number.
#[derive(Clone, Copy, Debug, PartialEq, Eq, PartialOrd, Ord, Hash)]
pub struct Id(u64);

impl Model for Id {
    ghost use Rattle.std.specs.Prelude.{ℕ, ◌≤◌};

    ghost Value = { ℕ };

    ghost view = { λ i. i.0 };

    ghost invariant = { λ i. i.0 ≤ 9007199254740991 };

    ghost inverse = { λ n. record { 0 = n } };
}

impl Id {
    /// The identity of a number, or `None` where the number is above the largest.
    pub fn new(n: u64) -> Option<Id>
        ensures { SomeIff result (n ≤ LARGEST_ID) n }
    {
        if n <= LARGEST_ID { Some(Id(n)) } else { None }
    }

    /// Its number.
    pub fn get(&self) -> u64
        ensures number { result ≡ self.now }
        ensures bound { self.now ≤ LARGEST_ID }
    {
        self.0
    }
}

impl Duplicate for Id {
    fn copy(&self) -> Result<Id, Memory> {
        Ok(*self)
    }
}
