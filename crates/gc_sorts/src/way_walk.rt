ghost use Rattle.std.specs.Prelude.{◌≡◌, ◌++◌, ◌∷◌, [], length, map, take, OnOk};

use crate::step::Step;
use gc_base::{Memory, Numbered};
use std::alloc::Global;
use std::marker::Model;

/// The ways to the blocks of a file that a walk over it has come to, by the numbers of the blocks.
pub(crate) type WayList = Numbered<Vec<Step>>;

/// A walk over a file: the ways to the blocks so far, and the way to where it stands.
#[derive(Debug, Drop)]
pub(crate) struct WayWalk {
    ways: WayList,
    here: Vec<Step>,
}

impl Model for WayWalk {
    ghost use Rattle.std.specs.Prelude.{map};
    ghost use Rattle.gc_sorts.specs.Ways as way;

    ghost Value = { way.Walk };

    ghost view = { λ w. record { ways = map (λ way. way.items) w.ways; here = w.here.items } };
}

impl WayWalk {
    /// A walk that stands at the statements of a file.
    pub fn new(alloc: Global) -> WayWalk
        ensures { result ≡ record { ways = []; here = [] } }
    {
        WayWalk {
            ways: WayList::new(alloc),
            here: Vec::new(alloc),
        }
    }

    /// How many steps away it stands.
    pub fn depth(&self) -> usize
        ensures { result ≡ length self.now.here }
    {
        self.here.len()
    }

    /// Goes a step on.
    pub fn go(&mut self, step: Step) -> Result<(), Memory>
        ensures { OnOk result (self.new ≡ record { ways = self.old.ways; here = self.old.here ++ step ∷ [] }) }
    {
        self.here.push(step)?;
        Ok(())
    }

    /// Goes back to where it stood so many steps away.
    pub fn back_to(&mut self, depth: usize)
        ensures { self.new ≡ record { ways = self.old.ways; here = take depth self.old.here } }
    {
        self.here.truncate(depth);
    }

    /// Has come to a block.
    pub fn arrive(&mut self) -> Result<(), Memory>
        ensures { OnOk result (self.new ≡ record { ways = self.old.ways ++ self.old.here ∷ []; here = self.old.here }) }
    {
        let way = self.here.to_vec(*self.here.allocator())?;
        self.ways.push(way)
    }

    /// The ways.
    pub fn ways(self) -> WayList
        ensures { map (λ way. way.items) result ≡ self.ways }
    {
        self.ways
    }
}
