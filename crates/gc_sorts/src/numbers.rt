ghost use Rattle.std.specs.Prelude.{◌≡◌, [], OnOk};
ghost use Rattle.gc_sorts.specs.Collected.{number_of, with_first};

use gc_base::Memory;
use indexmap::IndexMap;
use std::alloc::Global;
use std::marker::Model;

/// Numbers by token: a token keeps the number that it was given first.
#[derive(Debug, Drop)]
pub(crate) struct TokenNumbers {
    numbers: IndexMap<u32, u32>,
}

impl Model for TokenNumbers {
    ghost use Rattle.std.specs.Prelude.{List, ℕ};

    ghost Value = { List (ℕ × ℕ) };

    ghost view = { λ t. t.numbers.entries };
}

impl TokenNumbers {
    /// No numbers yet.
    pub fn new(alloc: Global) -> TokenNumbers
        ensures { result ≡ [] }
    {
        TokenNumbers {
            numbers: IndexMap::new(alloc),
        }
    }

    /// The number of a token, if it has one. It takes no memory.
    pub fn get(&self, token: u32) -> Option<u32>
        ensures { result ≡ number_of self.now token }
    {
        self.numbers.get(&token).copied()
    }

    /// Gives a token its number, unless it has one.
    pub fn add(&mut self, token: u32, number: u32) -> Result<(), Memory>
        ensures { OnOk result (self.new ≡ with_first self.old token number) }
    {
        if !self.numbers.contains_key(&token) {
            self.numbers.insert(token, number)?;
        }
        Ok(())
    }
}
