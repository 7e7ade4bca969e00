ghost use Rattle.std.specs.Prelude.{◌≡◌, ◌∷◌, [], Some, IfErr, IfOk, OnOk, slice_get};
ghost use Rattle.gc_alg.specs.Views.{block_tree};
ghost use Rattle.gc_ast.specs.QueryViews.{head_tree};
ghost use Rattle.gc_walks.specs.Databases.{AreOnGraphs};
ghost use Rattle.gc_prod.specs.Segments.{AreSegments};
ghost use Rattle.gc_spec.specs.PropertyGraph.{PropertyGraph};
ghost use Rattle.gc_query.specs.Answered.{IsAnswered, IsRefused, names_in, scope_in};
ghost use Rattle.gc_query.specs.Built.{AreNumbered, IsHeadNumbered};
ghost use Rattle.gc_query.specs.Segments.{HasSegments, OfHead, OfUses};
ghost use Rattle.gc_query.specs.UsedViews.{in_turn, uses_of};
ghost use Rattle.gc_query.specs.Uses.{Fails, Gains};

use crate::fault::{Fault, QueryRefusal};
use crate::path_heads::path_heads;
use crate::path_views::{PathView, view_segments};
use crate::session::Session;
use crate::used_views::{ViewOn, uses_of};
use gc_alg::Block;
use gc_ast::Head;
use gc_base::{Steps, ViewNo};
use gc_ppg::GraphList;
use gc_prod::{SegmentList, SegmentTable, SegmentsOn};
use std::sync::ledger::Ledger;

/// The segments of the views that a block uses, each on its graph, or the fault of the first view that has one.
pub(crate) fn segments_used<L: Ledger>(
    session: &Session<'_>,
    graphs: &GraphList,
    block: &Block,
    steps: &mut Steps<L>,
) -> Result<SegmentTable, QueryRefusal>
    requires { AreNumbered (scope_in session.now) (scope_in session.now).views }
    ensures due { IsAnswered (HasSegments (scope_in session.now) graphs.now (block_tree block.now)) result }
    ensures there { IfOk result (AreOnGraphs graphs.now) }
{
    let uses = uses_of(session.alloc, block)?;
    segments_by(session, graphs, &uses, steps)
}

// The same of views that are used so.
fn segments_by<L: Ledger>(
    session: &Session<'_>,
    graphs: &GraphList,
    uses: &[ViewOn],
    steps: &mut Steps<L>,
) -> Result<SegmentTable, QueryRefusal>
    requires { AreNumbered (scope_in session.now) (scope_in session.now).views }
    ensures due { IsAnswered (OfUses (scope_in session.now) graphs.now (in_turn 0 (scope_in session.now).views uses.now)) result }
    ensures there { IfOk result (AreOnGraphs graphs.now) }
{
    let mut table = SegmentTable::empty(session.alloc);
    if uses.is_empty() {
        return Ok(table);
    }
    let heads = path_heads(session.alloc, session.checked.file())?;
    for (number, head) in heads.iter().enumerate() {
        add_uses(session, graphs, head, number, uses, &mut table, steps)?;
    }
    Ok(table)
}

// Adds the segments of the uses of the view of a head, which has a number.
fn add_uses<L: Ledger>(
    session: &Session<'_>,
    graphs: &GraphList,
    head: &Head,
    number: usize,
    uses: &[ViewOn],
    table: &mut SegmentTable,
    steps: &mut Steps<L>,
) -> Result<(), QueryRefusal>
    requires { IsHeadNumbered (scope_in session.now) (head_tree (names_in session.now) head.now) }
    ensures gains { OnOk result (Gains (scope_in session.now) graphs.now
        (uses_of (head_tree (names_in session.now) head.now) number uses.now) table.old table.new) }
    ensures fails { IfErr result (IsRefused (Fails (scope_in session.now) graphs.now (uses_of (head_tree (names_in session.now) head.now) number uses.now))) }
    ensures there { OnOk result (AreOnGraphs graphs.now table.old → AreOnGraphs graphs.now table.new) }
{
    for used in uses {
        add_use(session, graphs, head, number, used, table, steps)?;
    }
    Ok(())
}

// Adds the segments of a use, if it is one of the view of a head.
fn add_use<L: Ledger>(
    session: &Session<'_>,
    graphs: &GraphList,
    head: &Head,
    number: usize,
    used: &ViewOn,
    table: &mut SegmentTable,
    steps: &mut Steps<L>,
) -> Result<(), QueryRefusal>
    requires { IsHeadNumbered (scope_in session.now) (head_tree (names_in session.now) head.now) }
    ensures gains { OnOk result (Gains (scope_in session.now) graphs.now
        (uses_of (head_tree (names_in session.now) head.now) number (used.now ∷ [])) table.old table.new) }
    ensures fails { IfErr result (IsRefused (Fails (scope_in session.now) graphs.now
        (uses_of (head_tree (names_in session.now) head.now) number (used.now ∷ [])))) }
    ensures there { OnOk result (AreOnGraphs graphs.now table.old → AreOnGraphs graphs.now table.new) }
{
    if used.view as usize != number {
        return Ok(());
    }
    let segments = segments_of(session, graphs, head, used.graph, steps)?;
    table.add(SegmentsOn {
        view: ViewNo(used.view),
        graph: used.graph,
        segments,
    })?;
    Ok(())
}

// The segments on a graph of the view of a head; a head that names a graph declares none.
fn segments_of<L: Ledger>(
    session: &Session<'_>,
    graphs: &GraphList,
    head: &Head,
    graph: u32,
    steps: &mut Steps<L>,
) -> Result<SegmentList, QueryRefusal>
    requires { IsHeadNumbered (scope_in session.now) (head_tree (names_in session.now) head.now) }
    ensures due { IsAnswered (OfHead (scope_in session.now) graphs.now graph (head_tree (names_in session.now) head.now)) result }
    ensures there { IfOk result (λ found. (g : PropertyGraph) → slice_get graphs.now graph ≡ Some g → AreSegments g found) }
{
    match head {
        Head::Path {
            name,
            chains,
            filter,
            cost,
        } => {
            let view = PathView {
                name: *name,
                chains,
                filter,
                cost,
            };
            view_segments(session, graphs, &view, graph, steps)
        }
        Head::Graph { .. } => Ok(SegmentList::new(session.alloc)),
    }
}
