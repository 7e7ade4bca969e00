ghost use Rattle.std.specs.Prelude.{◌≡◌, ◌≤◌, ℕ, IfOk, IfErr, OnOk, OnErr, length, take, None};
ghost use Rattle.std.specs.List.{AllByRecursion};
ghost use Rattle.std.specs.Option.{option_copied};
ghost use Rattle.gc_spec.specs.Coherence.{AreCoherent};
ghost use Rattle.gc_catalog.specs.NamedGraphs.{NamedGraphs, IsCatalog, first_graphs, is_name, name_at, no_graphs, with_graph, with_local, number_of, AreBelow};
ghost use Rattle.gc_catalog.specs.declared.catalog.AddRefusal.TheVariants.{Memory as OutOfMemory};

use gc_base::{Memory, Name};
use gc_ppg::{Graph, GraphList};
use std::alloc::{AllocError, AllocFailed, Global};
use std::marker::Model;

/// One more than the largest identity.
const MOST_NEXT: u64 = 9_007_199_254_740_992;

/// Why a graph was not added.
#[derive(Debug, Drop)]
pub enum AddRefusal {
    /// The name is there.
    NameTaken,
    /// Want of memory.
    Memory,
}

impl From<Memory> for AddRefusal {
    ghost from_gives = { λ _ refusal. refusal ≡ OutOfMemory };

    fn from(_want: Memory) -> AddRefusal {
        AddRefusal::Memory
    }
}

impl From<AllocError> for AddRefusal {
    ghost from_gives = { λ _ refusal. refusal ≡ OutOfMemory };

    fn from(_error: AllocError) -> AddRefusal {
        AddRefusal::Memory
    }
}

impl<T: Drop> From<AllocFailed<T>> for AddRefusal {
    ghost from_gives = { λ _ refusal. refusal ≡ OutOfMemory };

    fn from(_failed: AllocFailed<T>) -> AddRefusal {
        AddRefusal::Memory
    }
}

/// The graphs of a session by number, each with a name or without one. All are coherent, and every identity in
/// them is below `next`.
#[derive(Drop)]
pub struct Catalog {
    names: Vec<Option<Name>>,
    graphs: GraphList,
    next: u64,
}

impl Model for Catalog {
    ghost use Rattle.gc_catalog.specs.NamedGraphs.{NamedGraphs, IsCatalog};

    ghost Value = { NamedGraphs };

    ghost view = { λ c. record { names = c.names.items; graphs = c.graphs; next = c.next } };

    ghost invariant = { λ c. IsCatalog (record { names = c.names.items; graphs = c.graphs; next = c.next }) };
}

impl Catalog {
    ghost use Rattle.gc_catalog.specs.AddRefusals.{IsAddRefusal};

    /// No graphs, and the first identity is free. It takes no memory yet.
    pub fn new(alloc: Global) -> Catalog
        ensures { result ≡ no_graphs }
    {
        Catalog {
            names: Vec::new(alloc),
            graphs: GraphList::new(alloc),
            next: 0,
        }
    }

    /// Adds a graph under a name, and gives its number. It is refused as `NameTaken` exactly where
    /// the name is there. The graph has to agree with those that are there, and its identities have
    /// to be below `next`.
    pub fn add(&mut self, name: Name, g: Graph) -> Result<u32, AddRefusal>
        requires coherent { AllByRecursion (λ h. AreCoherent h g) self.old.graphs }
        requires below { AreBelow self.old.next g }
        ensures number { IfOk result (λ number. number ≡ length self.old.graphs) }
        ensures fresh { OnOk result (number_of self.old.names name ≡ None) }
        ensures added { OnOk result (self.new ≡ with_graph self.old name g) }
        ensures refused { IfErr result (IsAddRefusal self.old name) }
        ensures same { OnErr result (self.new ≡ self.old) }
    {
        if self.number_of(&name).is_some() {
            return Err(AddRefusal::NameTaken);
        }
        let number = self.graphs.len();
        self.names.reserve(1)?;
        self.graphs.push(g)?;
        self.names.push(Some(name))?;
        Ok(number)
    }

    /// Adds a graph without a name, and gives its number. It has to agree with those that are there, and
    /// its identities have to be below `next`. Where memory is wanting the catalog is as it was.
    pub fn add_unnamed(&mut self, g: Graph) -> Result<u32, Memory>
        requires coherent { AllByRecursion (λ h. AreCoherent h g) self.old.graphs }
        requires below { AreBelow self.old.next g }
        ensures number { IfOk result (λ number. number ≡ length self.old.graphs) }
        ensures added { OnOk result (self.new ≡ with_local self.old g) }
        ensures same { OnErr result (self.new ≡ self.old) }
    {
        let number = self.graphs.len();
        self.names.reserve(1)?;
        self.graphs.push(g)?;
        self.names.push(None)?;
        Ok(number)
    }

    /// The number of the graph of a name, or `None` exactly where the name is not there.
    pub fn number_of(&self, name: &Name) -> Option<u32>
        ensures { result ≡ number_of self.now.names name.now }
    {
        let _count = self.graphs.len();
        match place_of(&self.names, name) {
            Some(place) => Some(place as u32),
            None => None,
        }
    }

    /// The name of a graph, or `None` exactly where there is no graph of this number, or it has no name.
    pub fn name_at(&self, i: u32) -> Option<&Name>
        ensures name { option_copied result ≡ name_at self.now.names i }
        ensures valid { IsCatalog self.now }
    {
        match self.names.get(i as usize) {
            Some(Some(name)) => Some(name),
            Some(None) | None => None,
        }
    }

    /// All graphs, by number.
    pub fn graphs(&self) -> &GraphList
        ensures graphs { result.now ≡ self.now.graphs }
        ensures valid { IsCatalog self.now }
    {
        &self.graphs
    }

    /// The first identity that is free, with all that follow.
    pub fn next(&self) -> u64
        ensures next { result ≡ self.now.next }
        ensures valid { IsCatalog self.now }
    {
        self.next
    }

    /// Makes the free identities begin later.
    pub fn set_next(&mut self, n: u64)
        requires later { self.old.next ≤ n }
        requires most { n ≤ MOST_NEXT }
        ensures { self.new ≡ record self.old { next = n } }
    {
        self.next = n;
    }

    /// Keeps the graphs of the first numbers, with their names, and makes the free identities begin at
    /// `next`, as before the others were added. It takes no memory.
    pub fn back_to(&mut self, graphs: u32, next: u64)
        requires there { graphs ≤ length self.old.graphs }
        requires below { AllByRecursion (AreBelow next) (take graphs self.old.graphs) }
        requires most { next ≤ MOST_NEXT }
        ensures { self.new ≡ first_graphs self.old graphs next }
    {
        self.names.truncate(graphs as usize);
        self.graphs.cut(graphs);
        self.next = next;
    }
}

// The place of a name.
fn place_of(names: &[Option<Name>], name: &Name) -> Option<usize>
    ensures { result ≡ number_of names.now name.now }
{
    names.iter().position(|other| is_name(other, name))
}

// Whether a graph's name is this one.
fn is_name(other: &Option<Name>, name: &Name) -> bool
    ensures { result ≡ is_name name.now other.now }
{
    match other {
        Some(other) => other == name,
        None => false,
    }
}
