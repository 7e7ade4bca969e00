ghost use Rattle.std.specs.Prelude.{◌≡◌, ◌++◌, ◌∷◌, [], length, OnOk, OnErr};
ghost use Rattle.std.specs.Option.{option_copied};

use gc_base::{Duplicate, Memory, Name, Numbered, ViewNo, Walk};
use std::alloc::Global;
use std::marker::Model;

/// A segment of a PATH view: a walk, at a cost.
#[derive(Drop)]
pub struct Segment {
    pub view: Name,
    pub walk: Walk,
    pub cost: u64,
}

impl Model for Segment {
    ghost use Rattle.gc_automata.specs.Moves.{Segment as SegmentAlone};

    ghost Value = { SegmentAlone };

    ghost view = { λ s. record { view = s.view; walk = s.walk; cost = s.cost } };
}

/// Segments, which are named by their numbers.
pub type SegmentList = Numbered<Segment>;

/// The segments of a PATH view on a graph.
#[derive(Drop)]
pub struct SegmentsOn {
    pub view: ViewNo,
    pub graph: u32,
    pub segments: SegmentList,
}

impl Model for SegmentsOn {
    ghost use Rattle.gc_prod.specs.Segments.{Segments};

    ghost Value = { Segments };

    ghost view = { λ s. record { view = s.view; graph = s.graph; segments = s.segments } };
}

/// The segments of some PATH views on some graphs. Contracts see the list of these, in the order of
/// their adding.
#[derive(Drop)]
pub struct SegmentTable {
    entries: Vec<SegmentsOn>,
}

impl Model for SegmentTable {
    ghost use Rattle.std.specs.Prelude.{List};
    ghost use Rattle.gc_prod.specs.Segments.{Segments};

    ghost Value = { List Segments };

    ghost view = { λ t. t.entries.items };
}

impl SegmentTable {
    ghost use Rattle.gc_prod.specs.Segments.{segments_on};

    /// The table without entries. It takes no memory yet.
    pub fn empty(alloc: Global) -> SegmentTable
        ensures { result ≡ [] }
    {
        SegmentTable {
            entries: Vec::new(alloc),
        }
    }

    /// Adds the segments of a view on a graph behind what is there.
    pub fn add(&mut self, entry: SegmentsOn) -> Result<(), Memory>
        ensures ok { OnOk result (self.new ≡ self.old ++ entry ∷ []) }
        ensures err { OnErr result (self.new ≡ self.old) }
    {
        self.entries.push(entry)?;
        Ok(())
    }

    /// The segments of a view on a graph of this number, or `None` exactly where the table has none
    /// for the two. Of several entries for them the first is given.
    pub fn find(&self, view: ViewNo, graph: u32) -> Option<&SegmentList>
        ensures { option_copied result ≡ segments_on self.now view graph }
    {
        self.entries
            .iter()
            .find(|entry| entry.view == view && entry.graph == graph)
            .map(|entry| &entry.segments)
    }
}

impl Duplicate for Segment {
    fn copy(&self) -> Result<Segment, Memory> {
        let view = self.view.copy()?;
        let walk = self.walk.copy()?;
        Ok(Segment {
            view,
            walk,
            cost: self.cost,
        })
    }
}
