ghost use Rattle.std.specs.Prelude.{◌≡◌, [], true, IfOk};
ghost use Rattle.gc_alg.specs.Tables.{IsTableOfBlock};
ghost use Rattle.gc_alg.specs.Views.{block_tree};
ghost use Rattle.gc_exec.specs.Runs.{setting};
ghost use Rattle.gc_walks.specs.Databases.{AreOnGraphs};
ghost use Rattle.gc_query.specs.Built.{are_searched};

use gc_alg::Block;
use gc_base::{Memory, Steps};
use gc_exec::run;
use gc_plan::plan;
use gc_ppg::GraphList;
use gc_prod::SegmentTable;
use gc_rows::{Row, Table};
use std::alloc::Global;
use std::sync::ledger::Ledger;

/// The table of a block over graphs, with the segments of views on them.
pub(crate) fn table_of<L: Ledger>(
    alloc: Global,
    graphs: &GraphList,
    segments: &SegmentTable,
    block: &Block,
    steps: &mut Steps<L>,
) -> Result<Table, Memory>
    requires searched { are_searched (block_tree block.now) ≡ true }
    requires there { AreOnGraphs graphs.now segments.now }
    ensures { IfOk result (IsTableOfBlock (setting graphs.now segments.now (block_tree block.now) [])) }
{
    let plan = plan(alloc, block, graphs)?;
    let given = Row::empty(alloc);
    run(alloc, &plan, block, graphs, segments, &given, steps)
}
