ghost use Rattle.std.specs.Prelude.{◌≡◌, IfOk, OnOk};
ghost use Rattle.std.specs.List.{AllByRecursion};
ghost use Rattle.gc_automata.specs.Moves.{IsThere};
ghost use Rattle.gc_cert_searches.specs.Found.{AreDocsOf, IsAsked, IsDocFrom};

use crate::ends::{WalkEnds, sources_of, targets_of};
use crate::potentials::potentials_in;
use crate::walks::first_walks;
use gc_alg::PathExpression;
use gc_base::{Duplicate, Id, Memory, Steps};
use gc_cert::SearchDoc;
use gc_ppg::Graph;
use gc_prod::{ByKey, Product, SegmentList};
use gc_search::search;
use std::alloc::Global;
use std::sync::ledger::Ledger;

/// In what walks are looked for, and by which expression: a graph, segments of it, and the product of both
/// with the automaton of the expression.
#[derive(Clone, Copy)]
pub(crate) struct Asked<'a> {
    pub(crate) alloc: Global,
    pub(crate) graph: &'a Graph,
    pub(crate) segments: &'a SegmentList,
    pub(crate) expression: &'a PathExpression,
    pub(crate) product: &'a Product<'a>,
}

/// Adds the documents of the searches from the starts of some walks, one for each start, ascending. Each
/// tells the first walks to where those from its start end, as far as there are such walks.
pub(crate) fn add_searches<L: Ledger>(
    docs: &mut Vec<SearchDoc>,
    asked: &Asked<'_>,
    ends: Vec<WalkEnds>,
    steps: &mut Steps<L>,
) -> Result<(), Memory>
    requires asked { IsAsked asked.now }
    requires there { AllByRecursion (λ e. IsThere asked.now.product.now.network e.start) ends.items }
    ensures { OnOk result (AreDocsOf asked.now.product.now asked.now.expression.now ends.items docs.old.items docs.new.items) }
{
    let sources = sources_of(asked.alloc, &ends)?;
    let by_start = ByKey::of(ends)?;
    for source in &sources {
        let targets = targets_of(asked.alloc, by_start.at(source.get()))?;
        docs.push(search_doc(asked, *source, &targets, steps)?)?;
    }
    Ok(())
}

// The document of the search from a node for the first walks to some nodes, as far as there are such walks.
fn search_doc<L: Ledger>(
    asked: &Asked<'_>,
    source: Id,
    targets: &[Id],
    steps: &mut Steps<L>,
) -> Result<SearchDoc, Memory>
    requires asked { IsAsked asked.now }
    requires source { IsThere asked.now.product.now.network source }
    ensures { IfOk result (IsDocFrom asked.now.product.now asked.now.expression.now source targets.now) }
{
    let product = asked.product;
    let expression = asked.expression;
    let found = search(asked.alloc, product, source, 1, steps)?;
    let potentials = potentials_in(asked.alloc, &found, product.states(), product.nodes())?;
    let walks = first_walks(asked.alloc, &found, targets)?;
    Ok(SearchDoc {
        expression: expression.0.copy()?,
        graph: asked.graph.copy(steps)?,
        potentials,
        segments: asked.segments.copy()?,
        start: source,
        walks,
    })
}
