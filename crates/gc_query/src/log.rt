ghost use Rattle.std.specs.Prelude.{◌≡◌, [], length, take, OnErr, OnOk};
ghost use Rattle.gc_query.specs.Logs.{behind, with_told};

use gc_base::{Bytes, Memory};
use gc_cert::SearchDoc;
use std::alloc::Global;
use std::marker::Model;

/// What a log keeps of the CONSTRUCTs that are evaluated.
#[derive(Clone, Copy, Debug)]
pub enum Wants {
    /// Nothing.
    Nothing,
    /// The lines that explain their plans.
    Plans,
    /// The documents of the searches for the walks that their tables bind.
    Searches,
}

/// What a session keeps of the CONSTRUCTs that its statements evaluate, in the order in which they end.
#[derive(Drop)]
pub struct RunLog {
    wants: Wants,
    lines: Vec<Bytes>,
    searches: Vec<SearchDoc>,
}

impl Model for RunLog {
    ghost use Rattle.gc_query.specs.Logs.{Log};
    ghost use Rattle.gc_regx.specs.contracts.regex.Regex as expression;
    ghost use Rattle.std.specs.Coded.{codes};

    ghost Value = { Log };

    ghost coded = { Prim.hlevel (codes, expression.the_row.coded) };

    ghost view = { λ l. record { wants = l.wants; before = 0; lines = l.lines.items; searches = l.searches.items } };
}

impl RunLog {
    ghost use Rattle.gc_query.specs.Logs.{new_log};

    /// A log that has nothing yet. It takes no memory.
    pub fn new(alloc: Global, wants: Wants) -> RunLog
        ensures { result ≡ new_log wants }
    {
        RunLog {
            wants,
            lines: Vec::new(alloc),
            searches: Vec::new(alloc),
        }
    }

    /// The lines of the CONSTRUCTs, in the order in which they ended; none where it wants no plans.
    pub fn lines(&self) -> &[Bytes]
        ensures { result.now ≡ self.now.lines }
    {
        &self.lines
    }

    /// The documents of searches, in the order in which they were told; none where it wants no searches.
    pub fn searches(&self) -> &[SearchDoc]
        ensures { result.now ≡ self.now.searches }
    {
        &self.searches
    }

    /// The documents by value.
    pub fn into_searches(self) -> Vec<SearchDoc>
        ensures { result.items ≡ self.searches }
    {
        self.searches
    }

    /// A log of what is evaluated behind all that this one has. It takes no memory.
    pub(crate) fn behind(&self) -> Told
        ensures told { result ≡ behind self.now }
        ensures begins { self.now.before ≡ 0 }
    {
        Told {
            wants: self.wants,
            before: self.lines.len(),
            lines: Vec::new(*self.lines.allocator()),
            searches: Vec::new(*self.lines.allocator()),
        }
    }

    /// Takes what was told behind it. Where memory is wanting it is as it was.
    pub(crate) fn take(&mut self, told: Told) -> Result<(), Memory>
        ensures taken { OnOk result (self.new ≡ with_told self.old told) }
        ensures same { OnErr result (self.new ≡ self.old) }
    {
        let Told {
            mut lines,
            mut searches,
            ..
        } = told;
        match self.wants {
            Wants::Nothing => Ok(()),
            Wants::Plans => Ok(self.lines.append(&mut lines)?),
            Wants::Searches => Ok(self.searches.append(&mut searches)?),
        }
    }

    /// Keeps the first lines and documents.
    pub(crate) fn back_to(&mut self, lines: usize, searches: usize)
        ensures { self.new ≡ record self.old { lines = take lines self.old.lines; searches = take searches self.old.searches } }
    {
        self.lines.truncate(lines);
        self.searches.truncate(searches);
    }
}

/// What a statement keeps while it is evaluated, behind what was kept before.
#[derive(Drop)]
pub(crate) struct Told {
    wants: Wants,
    before: usize,
    lines: Vec<Bytes>,
    searches: Vec<SearchDoc>,
}

impl Model for Told {
    ghost use Rattle.std.specs.Prelude.{◌<◌, ◌^◌};
    ghost use Rattle.gc_query.specs.Logs.{Log};
    ghost use Rattle.gc_regx.specs.contracts.regex.Regex as expression;
    ghost use Rattle.std.specs.Coded.{codes};

    ghost Value = { Log };

    ghost coded = { Prim.hlevel (codes, expression.the_row.coded) };

    ghost view = { λ t. record { wants = t.wants; before = t.before; lines = t.lines.items; searches = t.searches.items } };

    // as many as there can be in a list
    ghost invariant = { λ t. t.before < 2 ^ 63 };
}

impl Told {
    ghost use Rattle.std.specs.Prelude.{◌∷◌, ◌++◌, ◌+◌};

    /// What is wanted.
    pub fn wants(&self) -> Wants
        ensures { result ≡ self.now.wants }
    {
        self.wants
    }

    /// The number of the next CONSTRUCT that is explained, from 1.
    pub fn next_number(&self) -> u64
        ensures { result ≡ self.now.before + length self.now.lines + 1 }
    {
        self.before as u64 + self.lines.len() as u64 + 1
    }

    /// Keeps the lines of a CONSTRUCT.
    pub fn push(&mut self, lines: Bytes) -> Result<(), Memory>
        ensures { OnOk result (self.new ≡ record self.old { lines = self.old.lines ++ lines ∷ [] }) }
    {
        self.lines.push(lines)?;
        Ok(())
    }

    /// Keeps documents of searches.
    pub fn push_searches(&mut self, docs: Vec<SearchDoc>) -> Result<(), Memory>
        ensures { OnOk result (self.new ≡ record self.old { searches = self.old.searches ++ docs.items }) }
    {
        let mut docs = docs;
        self.searches.append(&mut docs)?;
        Ok(())
    }
}
