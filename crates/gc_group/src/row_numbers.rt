ghost use Rattle.std.specs.Prelude.{◌≡◌, ◌++◌, ◌∷◌, [], OnOk};

use gc_base::Memory;
use smallvec::SmallVec;
use std::alloc::Global;
use std::marker::Model;

/// Numbers of rows, from 0. One or two of them lie in place. Contracts see the list of them.
#[derive(Debug, Drop)]
pub struct RowNumbers {
    // Where rows make edges, most groups are of one row.
    numbers: SmallVec<u64, 2>,
}

impl Model for RowNumbers {
    ghost use Rattle.std.specs.Prelude.{ℕ, List};

    ghost Value = { List ℕ };

    ghost view = { λ r. r.numbers.items };
}

impl RowNumbers {
    /// No numbers. One or two take no memory.
    pub fn new(alloc: Global) -> RowNumbers
        ensures { result ≡ [] }
    {
        RowNumbers {
            numbers: SmallVec::new(alloc),
        }
    }

    /// One number. It takes no memory.
    pub(crate) fn of_one(alloc: Global, row: u64) -> RowNumbers
        ensures { result ≡ row ∷ [] }
    {
        RowNumbers {
            numbers: SmallVec::from_buf_and_len(alloc, [row, 0], 1),
        }
    }

    /// These numbers.
    pub(crate) fn of_vec(numbers: Vec<u64>) -> RowNumbers
        ensures { result ≡ numbers.items }
    {
        RowNumbers {
            numbers: SmallVec::from_vec(numbers),
        }
    }

    /// Adds a number at the end.
    pub fn push(&mut self, row: u64) -> Result<(), Memory>
        ensures { OnOk result (self.new ≡ self.old ++ row ∷ []) }
    {
        self.numbers.push(row)?;
        Ok(())
    }

    /// All numbers, in order.
    pub fn as_slice(&self) -> &[u64]
        ensures { result.now ≡ self.now }
    {
        self.numbers.as_slice()
    }
}
