ghost use Rattle.std.specs.Prelude.{◌≡◌, [], IfOk, Some, map};
ghost use Rattle.std.specs.List.{AllByRecursion};
ghost use Rattle.gc_alg.specs.Views.{block_tree};
ghost use Rattle.gc_automata.specs.Machines.{IsAutomatonOf};
ghost use Rattle.gc_regx.specs.Expressions.{HasParts};
ghost use Rattle.gc_regx.specs.Trees.{RegexTree, ARegex};
ghost use Rattle.gc_reach.specs.OnWalks.{IsOnWalk};
ghost use Rattle.gc_walks.specs.Databases.{AreOnGraphs, database};
ghost use Rattle.gc_build.specs.AllPaths.{AreParts, AreReady, IsSearchable, LiesBetween, LiesBy, all_atom};
ghost use Rattle.gc_build.specs.Passed.{ArePassed};
ghost use Rattle.gc_build.specs.Patterns.{plain};

use crate::listed::{ascending, is_listed};
use crate::making::Making;
use crate::patterns::{Patterns, all_atom};
use crate::spans::{Span, each_once, spans_of};
use crate::standing::Instances;
use gc_alg::{Atom, AtomWhat};
use gc_base::{Id, Memory, Sequence, Steps, Sym};
use gc_prod::{Product, SegmentTable};
use gc_reach::{IdList, Parts, on_walks};
use gc_walks::machine_of;
use std::alloc::Global;
use std::sync::ledger::Ledger;

/// The nodes and the edges, each ascending, that lie on the walks of an ALL path in kept instances. A
/// path that is none has none.
#[derive(Drop)]
pub(crate) struct AllParts {
    pub path: Sym,
    pub nodes: IdList,
    pub edges: IdList,
}

/// What lies on the walks of each of these paths.
pub(crate) fn all_parts<L: Ledger>(
    making: &Making<'_>,
    patterns: &Patterns<'_>,
    kept: &Instances<'_>,
    paths: &[Sym],
    steps: &mut Steps<L>,
) -> Result<Vec<AllParts>, Memory>
    requires { AreReady making.now.setting.graphs (plain patterns.now) }
    ensures paths { IfOk result (λ all. map (λ parts. parts.path) all.items ≡ paths.now) }
    ensures each { IfOk result (λ all. AllByRecursion (AreParts (plain patterns.now) making.now kept.now) all.items) }
{
    let setting = making.setting;
    let mut all = Vec::with_capacity(setting.alloc, paths.len())?;
    for path in paths {
        all.push(parts_of(making, patterns, kept, *path, steps)?)?;
    }
    Ok(all)
}

// What lies on the walks of a path.
fn parts_of<L: Ledger>(
    making: &Making<'_>,
    patterns: &Patterns<'_>,
    kept: &Instances<'_>,
    path: Sym,
    steps: &mut Steps<L>,
) -> Result<AllParts, Memory>
    requires { AreReady making.now.setting.graphs (plain patterns.now) }
    ensures path { IfOk result (λ parts. parts.path ≡ path) }
    ensures right { IfOk result (AreParts (plain patterns.now) making.now kept.now) }
{
    let spans = each_once(spans_of(making, kept, path)?)?;
    let passed = passed_by(making, patterns, path, &spans, steps)?;
    let nodes = ascending(passed.nodes)?;
    let edges = ascending(passed.edges)?;
    Ok(AllParts {
        path,
        nodes: Sequence::from_vec(nodes),
        edges: Sequence::from_vec(edges),
    })
}

// Nodes and edges that walks pass, in any order and some of them several times.
#[derive(Drop)]
struct Passed {
    nodes: Vec<Id>,
    edges: Vec<Id>,
}

// No nodes and no edges.
fn nothing(alloc: Global) -> Passed
    ensures nodes { result.nodes.items ≡ [] }
    ensures edges { result.edges.items ≡ [] }
{
    Passed {
        nodes: Vec::new(alloc),
        edges: Vec::new(alloc),
    }
}

// What lies on the walks that the pattern of a path means between the nodes of spans.
fn passed_by<L: Ledger>(
    making: &Making<'_>,
    patterns: &Patterns<'_>,
    path: Sym,
    spans: &[Span],
    steps: &mut Steps<L>,
) -> Result<Passed, Memory>
    requires { AreReady making.now.setting.graphs (plain patterns.now) }
    ensures { IfOk result (λ passed. ArePassed
        (λ parts_of. LiesBy parts_of (database making.now.setting.graphs patterns.now.segments.now)
        (all_atom (block_tree patterns.now.block.now) path) spans.now) passed.nodes.items passed.edges.items) }
{
    let setting = making.setting;
    match all_atom(patterns.block, path) {
        None => Ok(nothing(setting.alloc)),
        Some(atom) => passed_in(making, patterns.segments, atom, spans, steps),
    }
}

// The same by an atom.
fn passed_in<L: Ledger>(
    making: &Making<'_>,
    segments: &SegmentTable,
    atom: &Atom,
    spans: &[Span],
    steps: &mut Steps<L>,
) -> Result<Passed, Memory>
    requires segments { AreOnGraphs making.now.setting.graphs segments.now }
    requires searchable { IsSearchable atom.now.what }
    ensures { IfOk result (λ passed. ArePassed
        (λ parts_of. LiesBy parts_of (database making.now.setting.graphs segments.now) (Some atom.now) spans.now) passed.nodes.items passed.edges.items) }
{
    let setting = making.setting;
    let alloc = setting.alloc;
    let AtomWhat::All { regex, views, .. } = &atom.what else {
        return Ok(nothing(alloc));
    };
    let Some(graph) = making.graph(atom.graph) else {
        return Ok(nothing(alloc));
    };
    if spans.is_empty() {
        return Ok(nothing(alloc));
    }
    let machine = machine_of(alloc, regex, views, atom.graph, segments)?;
    let product = Product::of(alloc, graph, &machine.automaton, &machine.segments, steps)?;
    passed_between(alloc, &product, spans, steps)
}

// What lies on walks that runs pass between the nodes of spans.
fn passed_between<L: Ledger>(
    alloc: Global,
    product: &Product<'_>,
    spans: &[Span],
    steps: &mut Steps<L>,
) -> Result<Passed, Memory>
    ensures { IfOk result (λ passed. (tree : RegexTree ARegex) → HasParts tree → IsAutomatonOf tree product.now.machine
        → ArePassed (λ parts_of. LiesBetween parts_of product.now.network tree spans.now) passed.nodes.items passed.edges.items) }
{
    let mut passed = nothing(alloc);
    for span in spans {
        let parts = parts_between(alloc, product, *span, steps)?;
        passed.nodes.extend_from_slice(parts.nodes.as_slice())?;
        passed.edges.extend_from_slice(parts.edges.as_slice())?;
    }
    Ok(passed)
}

// What lies on walks that runs pass between two nodes. Where the graph lacks one of them there is none.
fn parts_between<L: Ledger>(
    alloc: Global,
    product: &Product<'_>,
    span: Span,
    steps: &mut Steps<L>,
) -> Result<Parts, Memory>
    ensures { IfOk result (λ parts. (tree : RegexTree ARegex) → HasParts tree → IsAutomatonOf tree product.now.machine
        → ArePassed (λ parts_of. IsOnWalk parts_of product.now.network tree span.from span.to) parts.nodes parts.edges) }
{
    let nodes = product.nodes();
    if is_listed(nodes, span.from) && is_listed(nodes, span.to) {
        on_walks(alloc, product, span.from, span.to, steps)
    } else {
        Ok(Parts {
            nodes: IdList::new(alloc),
            edges: IdList::new(alloc),
        })
    }
}
