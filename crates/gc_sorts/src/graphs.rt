ghost use Rattle.std.specs.Prelude.{◌≡◌, ◌++◌, ◌∷◌, ◌+◌, ◌||◌, [], length, take, false, slice_index_or, IfOk, OnOk, ℕ};
ghost use Rattle.gc_base.specs.declared.place.Sym.{Sym};
ghost use Rattle.gc_expr.specs.Views.{name_of};
ghost use Rattle.gc_ast.specs.Names.{same_name};
ghost use Rattle.gc_ast.specs.PatternViews.{named, named_if};
ghost use Rattle.gc_sorts.specs.Breaches.{first_among};
ghost use Rattle.gc_sorts.specs.Graphs.{known, has_name, unknown_graph, unknown_graph_if, taken};
ghost use Rattle.gc_sorts.specs.Orders.{slot};

use crate::breach::{Breach, SortRule, noted_if};
use crate::index::{Index, read_words};
use gc_ast::NameTable;
use gc_base::{Memory, Name, NameAt, NameList, Sym};
use std::alloc::Global;
use std::marker::Model;

/// The names of the graphs that are known, in the order of their numbers: those of the session, and
/// those that the query file has declared.
#[derive(Drop)]
pub(crate) struct GraphNames<'a> {
    loaded: &'a NameList,
    is_loaded: Vec<bool>,
    declared: Index<'a>,
}

impl<'a> Model for GraphNames<'a> {
    ghost use Rattle.std.specs.Prelude.{◌≡◌, ◌+◌, false, length, slice_index_or};
    ghost use Rattle.gc_base.specs.declared.place.Sym.{Sym};
    ghost use Rattle.gc_expr.specs.Views.{name_of};
    ghost use Rattle.gc_sorts.specs.Graphs.{has_name};
    ghost use Rattle.gc_sorts.specs.Graphs as graphs;
    ghost use Rattle.gc_sorts.specs.Orders.{slot};

    ghost Value = { graphs.Known };

    ghost view = { λ g. record { names = g.declared.names; loaded = g.loaded.now; declared = g.declared.order } };

    ghost invariant = { λ g. (length g.is_loaded.items ≡ length g.declared.names + 1) ×
        ((sym : Sym) → slice_index_or g.is_loaded.items (slot (length g.declared.names) sym) false ≡ has_name g.loaded.now (name_of g.declared.names sym)) };
}

impl<'a> GraphNames<'a> {
    /// Whether a graph is known.
    pub fn has(&self, sym: Sym) -> bool
        ensures { result ≡ has_name (known self.now) (name_of self.now.names sym) }
    {
        self.is_loaded[self.declared.slot(sym)] || self.declared.has(sym)
    }

    /// The graphs of a session that have these names.
    pub fn of(
        alloc: Global,
        names: &'a NameTable,
        loaded: &'a NameList,
    ) -> Result<GraphNames<'a>, Memory>
        ensures names { IfOk result (λ graphs. graphs.names ≡ names.now) }
        ensures loaded { IfOk result (λ graphs. graphs.loaded ≡ loaded.now) }
        ensures declared { IfOk result (λ graphs. graphs.declared ≡ []) }
    {
        let is_loaded = loaded_slots(alloc, names, loaded)?;
        let declared = Index::of(alloc, names)?;
        Ok(GraphNames {
            loaded,
            is_loaded,
            declared,
        })
    }

    /// How many graphs the query file has declared.
    pub fn declared(&self) -> usize
        ensures { result ≡ length self.now.declared }
    {
        self.declared.len()
    }

    /// Declares a graph.
    pub fn declare(&mut self, sym: Sym) -> Result<(), Memory>
        ensures names { self.new.names ≡ self.old.names }
        ensures loaded { self.new.loaded ≡ self.old.loaded }
        ensures declared { OnOk result (self.new.declared ≡ self.old.declared ++ name_of self.old.names sym ∷ []) }
    {
        self.declared.push(sym)?;
        Ok(())
    }

    /// Keeps the first n of the declared graphs, or all where there are no more.
    pub fn cut(&mut self, n: usize)
        ensures names { self.new.names ≡ self.old.names }
        ensures loaded { self.new.loaded ≡ self.old.loaded }
        ensures declared { self.new.declared ≡ take n self.old.declared }
    {
        self.declared.cut(n);
    }
}

// Whether each slot of a table has the name of a graph of the session.
fn loaded_slots(alloc: Global, names: &NameTable, loaded: &NameList) -> Result<Vec<bool>, Memory>
    ensures length { IfOk result (λ slots. length slots.items ≡ length names.now + 1) }
    ensures slots { IfOk result (λ slots. (sym : Sym) → slice_index_or slots.items (slot (length names.now) sym) false ≡ has_name loaded.now
        (name_of names.now sym)) }
{
    let mut slots = no_slots(alloc, names.len())?;
    for name in loaded.as_slice() {
        load(&mut slots, names, name);
    }
    Ok(slots)
}

// Notes the slot of a name, if the table has it.
fn load(slots: &mut Vec<bool>, names: &NameTable, name: &Name)
    requires { length slots.old.items ≡ length names.now + 1 }
    ensures length { length slots.new.items ≡ length names.now + 1 }
    ensures slots { (sym : Sym) → slice_index_or slots.new.items (slot (length names.now) sym) false ≡
        (slice_index_or slots.old.items (slot (length names.now) sym) false || same_name (name_of names.now sym) name.now) }
{
    read_words(names);
    let _distinct = names.as_slice();
    let _word = name.bytes();
    if let Some(sym) = names.number_of(name) {
        slots[sym.0 as usize] = true;
    }
}

// No slot of a table of so many names is noted.
fn no_slots(alloc: Global, count: u32) -> Result<Vec<bool>, Memory>
    ensures length { IfOk result (λ slots. length slots.items ≡ count + 1) }
    ensures none { IfOk result (λ slots. (k : ℕ) → slice_index_or slots.items k false ≡ false) }
{
    let mut slots = Vec::with_capacity(alloc, count as usize + 1)?;
    for _ in 0..=count {
        slots.push(false)?;
    }
    Ok(slots)
}

/// The first breach of those so far and a graph that is not known.
pub(crate) fn unknown_graph(
    found: Option<Breach>,
    graphs: &GraphNames,
    graph: NameAt,
) -> Option<Breach>
    ensures { result ≡ first_among found (unknown_graph (known graphs.now) (named graphs.now.names graph)) }
{
    noted_if(
        found,
        !graphs.has(graph.sym),
        SortRule::UnknownGraph,
        graph.token as u64,
    )
}

/// The same of a graph that may be absent.
pub(crate) fn unknown_graph_if(
    found: Option<Breach>,
    graphs: &GraphNames,
    graph: &Option<NameAt>,
) -> Option<Breach>
    ensures { result ≡ first_among found (unknown_graph_if (known graphs.now) (named_if graphs.now.names graph.now)) }
{
    match graph {
        None => found,
        Some(graph) => unknown_graph(found, graphs, *graph),
    }
}

/// The first breach of those so far and a graph's name that is taken.
pub(crate) fn taken_graph(
    found: Option<Breach>,
    graphs: &GraphNames,
    name: NameAt,
) -> Option<Breach>
    ensures { result ≡ first_among found (taken (known graphs.now) (named graphs.now.names name)) }
{
    noted_if(
        found,
        graphs.has(name.sym),
        SortRule::NameTaken,
        name.token as u64,
    )
}

/// The first breach of those so far and a view's name that is taken.
pub(crate) fn taken_view(found: Option<Breach>, views: &Index, name: NameAt) -> Option<Breach>
    ensures { result ≡ first_among found (taken views.now.order (named views.now.names name)) }
{
    noted_if(
        found,
        views.has(name.sym),
        SortRule::NameTaken,
        name.token as u64,
    )
}
