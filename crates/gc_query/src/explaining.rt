ghost use Rattle.std.specs.Prelude.{◌≡◌, ◌∷◌, ◌++◌, [], map, true, IfOk, OnOk};
ghost use Rattle.std.specs.List.{flat_map};
ghost use Rattle.std.specs.Option.{option_copied};
ghost use Rattle.gc_alg.specs.Tables.{IsTableOfBlock};
ghost use Rattle.gc_alg.specs.Views.{block_tree};
ghost use Rattle.gc_ast.specs.QueryViews.{head_tree};
ghost use Rattle.gc_ast.specs.PatternViews.{named};
ghost use Rattle.gc_cert_searches.specs.Patterns.{AreOnly};
ghost use Rattle.gc_explain_query.specs.QueryLines.{view_of};
ghost use Rattle.gc_query.specs.Answered.{names_in, scope_in};
ghost use Rattle.gc_exec.specs.Runs.{setting};
ghost use Rattle.gc_walks.specs.Databases.{AreOnGraphs};
ghost use Rattle.gc_query.specs.Built.{AreNumbered, IsHeadNumbered, are_searched};
ghost use Rattle.gc_query.specs.Logs.{IsToldOf, explained_head, explained_on, explained_view, named_view, word_if};
ghost use Rattle.gc_query.specs.UsedViews.{in_turn, uses_of};

use crate::log::{Told, Wants};
use crate::lowered::lowered_at;
use crate::path_heads::path_heads;
use crate::session::Session;
use crate::used_views::{ViewOn, uses_of};
use gc_alg::Block;
use gc_ast::Head;
use gc_base::{Bytes, Duplicate, Memory, Name, NameAt, Steps};
use gc_catalog::Catalog;
use gc_cert_searches::searches_of;
use gc_explain_query::{ExplainedView, query_lines};
use gc_ppg::GraphList;
use gc_prod::SegmentTable;
use gc_rows::Table;
use std::sync::ledger::Ledger;

/// Tells what is wanted of a CONSTRUCT that was evaluated, by the block of its MATCH, over graphs which have their
/// names in a catalog, with the segments that it uses and its table.
pub(crate) fn tell<L: Ledger>(
    session: &Session<'_>,
    named: &Catalog,
    graphs: &GraphList,
    block: &Block,
    segments: &SegmentTable,
    table: &Table,
    told: &mut Told,
    steps: &mut Steps<L>,
) -> Result<(), Memory>
    requires views { AreNumbered (scope_in session.now) (scope_in session.now).views }
    requires searched { are_searched (block_tree block.now) ≡ true }
    requires only { AreOnly (block_tree block.now) }
    requires there { AreOnGraphs graphs.now segments.now }
    requires matched { IsTableOfBlock (setting graphs.now segments.now (block_tree block.now) []) table.now }
    ensures { OnOk result (IsToldOf (scope_in session.now) named.now.names graphs.now (block_tree block.now) segments.now table.now told.old told.new) }
{
    match told.wants() {
        Wants::Nothing => Ok(()),
        Wants::Plans => {
            let lines = lines_of(session, named, graphs, block, told.next_number())?;
            told.push(lines)
        }
        Wants::Searches => {
            let docs = searches_of(session.alloc, block, graphs, segments, table, steps)?;
            told.push_searches(docs)
        }
    }
}

// The lines that explain a CONSTRUCT of a number.
fn lines_of(
    session: &Session<'_>,
    named: &Catalog,
    graphs: &GraphList,
    block: &Block,
    number: u64,
) -> Result<Bytes, Memory>
    requires { AreNumbered (scope_in session.now) (scope_in session.now).views }
    ensures { IfOk result (λ lines. lines ≡ explained_on (scope_in session.now) number named.now.names graphs.now (block_tree block.now)) }
{
    let uses = uses_of(session.alloc, block)?;
    let views = views_of(session, named, &uses)?;
    query_lines(session.alloc, number, &views, block, graphs)
}

// Views as they are explained, in the order of the heads that declare them.
fn views_of(
    session: &Session<'_>,
    named: &Catalog,
    uses: &[ViewOn],
) -> Result<Vec<ExplainedView>, Memory>
    requires { AreNumbered (scope_in session.now) (scope_in session.now).views }
    ensures { IfOk result (λ views. map view_of views.items
        ≡ flat_map (explained_view (scope_in session.now) named.now.names) (in_turn 0 (scope_in session.now).views uses.now)) }
{
    let mut views = Vec::new(session.alloc);
    if uses.is_empty() {
        return Ok(views);
    }
    let heads = path_heads(session.alloc, session.checked.file())?;
    for (number, head) in heads.iter().enumerate() {
        push_uses(session, named, head, number, uses, &mut views)?;
    }
    Ok(views)
}

// Adds the uses of the view of a head, which has a number.
fn push_uses(
    session: &Session<'_>,
    named: &Catalog,
    head: &Head,
    number: usize,
    uses: &[ViewOn],
    views: &mut Vec<ExplainedView>,
) -> Result<(), Memory>
    requires { IsHeadNumbered (scope_in session.now) (head_tree (names_in session.now) head.now) }
    ensures { OnOk result (map view_of views.new.items ≡ map view_of views.old.items
        ++ flat_map (explained_view (scope_in session.now) named.now.names) (uses_of (head_tree (names_in session.now) head.now) number uses.now)) }
{
    for used in uses {
        push_use(session, named, head, number, used, views)?;
    }
    Ok(())
}

// Adds a use, if it is one of the view of a head.
fn push_use(
    session: &Session<'_>,
    named: &Catalog,
    head: &Head,
    number: usize,
    used: &ViewOn,
    views: &mut Vec<ExplainedView>,
) -> Result<(), Memory>
    requires { IsHeadNumbered (scope_in session.now) (head_tree (names_in session.now) head.now) }
    ensures { OnOk result (map view_of views.new.items ≡ map view_of views.old.items
        ++ flat_map (explained_view (scope_in session.now) named.now.names) (uses_of (head_tree (names_in session.now) head.now) number (used.now ∷ []))) }
{
    if used.view as usize != number {
        return Ok(());
    }
    push_view(session, named, head, used.graph, views)
}

// Adds the view of a head on the graph of a number, where this has a name.
fn push_view(
    session: &Session<'_>,
    named: &Catalog,
    head: &Head,
    graph: u32,
    views: &mut Vec<ExplainedView>,
) -> Result<(), Memory>
    requires { IsHeadNumbered (scope_in session.now) (head_tree (names_in session.now) head.now) }
    ensures { OnOk result (map view_of views.new.items ≡ map view_of views.old.items
        ++ explained_head (scope_in session.now) named.now.names graph (head_tree (names_in session.now) head.now)) }
{
    match head {
        Head::Path { name, .. } => {
            let view = Located {
                name: word_at(session, *name),
                graph: named.name_at(graph),
            };
            let lowered = lowered_at(session, name.token, graph)?;
            push_named(&view, lowered.block, views)
        }
        Head::Graph { .. } => Ok(()),
    }
}

// The names of a view and of a graph, where they have some.
#[derive(Drop)]
struct Located<'a> {
    name: Option<&'a Name>,
    graph: Option<&'a Name>,
}

// Adds a view on a graph by its block, where both have names.
fn push_named(
    view: &Located<'_>,
    block: Block,
    views: &mut Vec<ExplainedView>,
) -> Result<(), Memory>
    ensures { OnOk result (map view_of views.new.items ≡ map view_of views.old.items
        ++ named_view (option_copied view.now.name) (option_copied view.now.graph) (block_tree block)) }
{
    match (view.name, view.graph) {
        (Some(name), Some(graph)) => {
            views.push(ExplainedView {
                name: name.copy()?,
                graph: graph.copy()?,
                block,
            })?;
            Ok(())
        }
        _ => Ok(()),
    }
}

// The word at a place, where there is one.
fn word_at<'a>(session: &Session<'a>, name: NameAt) -> Option<&'a Name>
    ensures { option_copied result ≡ word_if (named (names_in session.now) name).name }
{
    let names = &session.checked.file().names;
    if name.sym.0 < names.len() {
        let word = names.name(name.sym);
        let _word = word.bytes();
        Some(word)
    } else {
        None
    }
}
