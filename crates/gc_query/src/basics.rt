ghost use Rattle.std.specs.Prelude.{◌≡◌, ◌≤◌, [], OnOk};
ghost use Rattle.gc_alg.specs.Tables.{IsTableOfBlock};
ghost use Rattle.gc_alg.specs.Views.{block_tree};
ghost use Rattle.gc_ast.specs.QueryViews.{basic_tree};
ghost use Rattle.gc_exec.specs.Runs.{setting};
ghost use Rattle.gc_lower.specs.Blocks.{block_of};
ghost use Rattle.gc_walks.specs.Databases.{AreOnGraphs};
ghost use Rattle.gc_query.specs.Answered.{ComesOf, IsAnswered, Rises, names_in, outcome_of, scope_in};
ghost use Rattle.gc_query.specs.Basics.{Comes, DenotesBasic};
ghost use Rattle.gc_query.specs.Built.{IsBasicBuilt};
ghost use Rattle.gc_query.specs.Evaluations.{EvaluatesBasic};
ghost use Rattle.gc_query.specs.Logs.{Tells};
ghost use Rattle.gc_sets.specs.Origins.{AreStanding};

use crate::costs::{costs_of, first_past};
use crate::explaining::tell;
use crate::fault::{Fault, QueryRefusal};
use crate::log::Told;
use crate::lowered::lowered_at;
use crate::made::Made;
use crate::segments::segments_used;
use crate::session::Session;
use crate::standing::are_graphs;
use crate::tables::table_of;
use gc_alg::Block;
use gc_ast::Basic;
use gc_base::Steps;
use gc_build::{Built, Refusal, construct};
use gc_build_numbers::Setting;
use gc_build_reading::recipe;
use gc_catalog::Catalog;
use gc_ppg::GraphList;
use gc_prod::SegmentTable;
use gc_rows::Table;
use std::sync::ledger::Ledger;

/// What a CONSTRUCT comes to, where the next identity is `next`. It has to be built, and the graphs have to stand
/// together; their names are those of a catalog.
pub(crate) fn basic_made<L: Ledger>(
    session: &Session<'_>,
    named: &Catalog,
    graphs: &GraphList,
    basic: &Basic,
    next: u64,
    told: &mut Told,
    steps: &mut Steps<L>,
) -> Result<Made, QueryRefusal>
    requires built { IsBasicBuilt (scope_in session.now) (basic_tree (names_in session.now) basic.now) }
    requires standing { AreStanding graphs.now next }
    requires most { next ≤ 9007199254740992 }
    ensures rises { Rises next result }
    ensures comes { ComesOf graphs.now next result }
    ensures due { IsAnswered (DenotesBasic (scope_in session.now) (record { graphs = graphs.now; next = next })
        (basic_tree (names_in session.now) basic.now)) result }
    ensures told { OnOk result (Tells (scope_in session.now)
        (EvaluatesBasic (scope_in session.now) named.now.names graphs.now (basic_tree (names_in session.now) basic.now)) told.old told.new) }
{
    let lowered = lowered_at(session, basic.token, 0)?;
    let segments = segments_used(session, graphs, &lowered.block, steps)?;
    let table = table_of(session.alloc, graphs, &segments, &lowered.block, steps)?;
    tell(
        session,
        named,
        graphs,
        &lowered.block,
        &segments,
        &table,
        told,
        steps,
    )?;
    let costs = costs_of(session.alloc, session.checked, basic)?;
    if let Some(past) = first_past(&costs, &table) {
        return Err(QueryRefusal::Fault(Fault::CostPastRange {
            at: past.token,
            row: past.row,
        }));
    }
    let matched = Matched {
        block: &lowered.block,
        segments: &segments,
        table: &table,
    };
    table_made(session, graphs, basic, &matched, next, steps)
}

// The MATCH of a CONSTRUCT: its block, the segments that it uses, and its table.
#[derive(Drop)]
struct Matched<'a> {
    block: &'a Block,
    segments: &'a SegmentTable,
    table: &'a Table,
}

// What a CONSTRUCT comes to on the table of its MATCH, on which no cost is past the range.
fn table_made<L: Ledger>(
    session: &Session<'_>,
    graphs: &GraphList,
    basic: &Basic,
    matched: &Matched<'_>,
    next: u64,
    steps: &mut Steps<L>,
) -> Result<Made, QueryRefusal>
    requires block { block_tree matched.now.block.now ≡ block_of (scope_in session.now) [] (basic_tree (names_in session.now) basic.now) }
    requires built { IsBasicBuilt (scope_in session.now) (basic_tree (names_in session.now) basic.now) }
    requires standing { AreStanding graphs.now next }
    requires there { AreOnGraphs graphs.now matched.now.segments.now }
    requires matched { IsTableOfBlock (setting graphs.now matched.now.segments.now (block_tree matched.now.block.now) []) matched.now.table.now }
    requires most { next ≤ 9007199254740992 }
    ensures rises { Rises next result }
    ensures comes { ComesOf graphs.now next result }
    ensures due { let s = scope_in session.now in let tree = basic_tree (names_in session.now) basic.now in
        IsAnswered (Comes s (record { graphs = graphs.now; next = next }) tree matched.now.segments.now matched.now.table.now) result }
{
    are_graphs(graphs);
    let bound = matched.table.schema().as_slice();
    let recipe = recipe(session.alloc, session.checked, basic, bound)?;
    let setting = Setting {
        alloc: session.alloc,
        table: matched.table,
        reads: &matched.block.reads,
        graphs,
    };
    let outcome = construct(
        &setting,
        &recipe,
        matched.block,
        matched.segments,
        next,
        steps,
    );
    made_of(outcome, basic.token)
}

// What a CONSTRUCT at a token comes to, as the outcome of a query.
fn made_of(outcome: Result<Built, Refusal>, token: u32) -> Result<Made, QueryRefusal>
    ensures { result ≡ outcome_of token outcome }
{
    match outcome {
        Ok(built) => Ok(Made {
            graph: built.graph,
            next: built.next,
        }),
        Err(Refusal::Fault(fault)) => Err(QueryRefusal::Fault(Fault::Undefined {
            at: fault.at,
            row: fault.row,
            why: fault.why,
        })),
        Err(Refusal::IdsSpent(needed)) => Err(QueryRefusal::Fault(Fault::IdsSpent {
            at: token,
            needed,
        })),
        Err(Refusal::Memory) => Err(QueryRefusal::Memory),
    }
}
