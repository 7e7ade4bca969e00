ghost use Rattle.std.specs.Prelude.{◌≡◌, ◌==◌, Some, true, IfOk, length, slice_get};
ghost use Rattle.std.specs.List.{list_all};
ghost use Rattle.std.specs.Option.{option_map};
ghost use Rattle.gc_alg.specs.Views.{block_tree};
ghost use Rattle.gc_ast.specs.QueryViews.{formula_tree};
ghost use Rattle.gc_ast.specs.Trees.{maybe};
ghost use Rattle.gc_expr.specs.Views.{Names};
ghost use Rattle.gc_sorts.specs.Blocks.{ViewBlock};
ghost use Rattle.gc_prod.specs.Segments.{AreSegments};
ghost use Rattle.gc_spec.specs.PropertyGraph.{PropertyGraph};
ghost use Rattle.gc_query.specs.Answered.{IsAnswered, declared_in, names_in, plain_pattern, scope_in, told_of};
ghost use Rattle.gc_query.specs.Built.{IsNumbered, are_searched};
ghost use Rattle.gc_query.specs.Segments.{IsOfView, OfView, block_on, has_no_query, is_view};

use crate::fault::{Fault, QueryRefusal};
use crate::lowered::lowered_at;
use crate::session::Session;
use crate::tables::table_of;
use gc_alg::Block;
use gc_ast::{Chain, ChainList, Formula, Pattern, Query};
use gc_base::{NameAt, Steps};
use gc_ppg::GraphList;
use gc_prod::{SegmentList, SegmentTable};
use gc_views::{ViewFault, segments};
use std::sync::ledger::Ledger;

/// What a PATH head says: its name, its chains, its WHERE and its COST.
#[derive(Drop)]
pub(crate) struct PathView<'a> {
    pub name: NameAt,
    pub chains: &'a ChainList,
    pub filter: &'a Option<Formula>,
    pub cost: &'a Option<Formula>,
}

/// The segments of a view on the graph of a number, or the fault of the first row whose cost is bad.
pub(crate) fn view_segments<L: Ledger>(
    session: &Session<'_>,
    graphs: &GraphList,
    view: &PathView<'_>,
    graph: u32,
    steps: &mut Steps<L>,
) -> Result<SegmentList, QueryRefusal>
    requires { let d = declared_in (names_in session.now) view.now in IsNumbered (scope_in session.now) (ViewBlock d.name.token d.chains d.filter) }
    ensures due { let d = declared_in (names_in session.now) view.now in IsAnswered (OfView (is_view d) (scope_in session.now) graphs.now graph d) result }
    ensures there { IfOk result (λ found. (g : PropertyGraph) → slice_get graphs.now graph ≡ Some g → AreSegments g found) }
{
    if !is_plain_view(view) {
        return Ok(SegmentList::new(session.alloc));
    }
    let lowered = lowered_at(session, view.name.token, graph)?;
    block_segments(session, graphs, view, graph, &lowered.block, steps)
}

// The same by the block of the view, which looks for no walk.
fn block_segments<L: Ledger>(
    session: &Session<'_>,
    graphs: &GraphList,
    view: &PathView<'_>,
    graph: u32,
    block: &Block,
    steps: &mut Steps<L>,
) -> Result<SegmentList, QueryRefusal>
    requires block { block_tree block.now ≡ block_on (scope_in session.now) graph (declared_in (names_in session.now) view.now) }
    requires searched { are_searched (block_tree block.now) ≡ true }
    ensures due { IsAnswered (IsOfView (scope_in session.now) graphs.now graph (declared_in (names_in session.now) view.now)) result }
    ensures there { IfOk result (λ found. (g : PropertyGraph) → slice_get graphs.now graph ≡ Some g → AreSegments g found) }
{
    let none = SegmentTable::empty(session.alloc);
    let table = table_of(session.alloc, graphs, &none, block, steps)?;
    let found = segments(
        session.alloc,
        session.checked,
        view.name,
        view.chains,
        view.cost,
        graph,
        &table,
        &block.reads,
        graphs,
        steps,
    );
    told(found, view.name.token)
}

// What a view at a token comes to, as the outcome of a query.
fn told(found: Result<SegmentList, ViewFault>, token: u32) -> Result<SegmentList, QueryRefusal>
    ensures { result ≡ told_of token found }
{
    match found {
        Ok(segments) => Ok(segments),
        Err(ViewFault::BadCost(walk)) => {
            Err(QueryRefusal::Fault(Fault::BadCost { at: token, walk }))
        }
        Err(ViewFault::Memory) => Err(QueryRefusal::Memory),
    }
}

// Whether a view is of nodes and edges without EXISTS.
#[tactic(auto, using(crate::proofs::PlainParts::chains_plain))]
fn is_plain_view(view: &PathView<'_>) -> bool
    ensures { (names : Names) → result ≡ is_view (declared_in names view.now) }
{
    are_plain_chains(view.chains.as_slice()) && has_no_query(view.filter)
}

fn are_plain_chains(chains: &[Chain]) -> bool
    ensures { result ≡ list_all (λ c. list_all plain_pattern c.parts) chains.now }
{
    chains.iter().all(|chain| are_plain(chain.parts.as_slice()))
}

fn are_plain(parts: &[Pattern]) -> bool
    ensures { result ≡ list_all plain_pattern parts.now }
{
    parts.iter().all(|part| is_plain(part))
}

fn is_plain(part: &Pattern) -> bool
    ensures { result ≡ plain_pattern part.now }
{
    match part {
        Pattern::Node(_) => true,
        Pattern::Edge { .. } => true,
        Pattern::Path { .. } => false,
    }
}

fn has_no_query(filter: &Option<Formula>) -> bool
    ensures { (names : Names) → result ≡ has_no_query (maybe (option_map (formula_tree names) filter.now)) }
{
    match filter {
        None => true,
        Some(formula) => asks_nothing(&formula.exists),
    }
}

fn asks_nothing(queries: &[Query]) -> bool
    ensures { result ≡ (length queries.now == 0) }
{
    queries.is_empty()
}
