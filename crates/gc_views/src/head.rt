ghost use Rattle.std.specs.Prelude.{◌≡◌, Ok, Err, IfOk, IfErr};
ghost use Rattle.gc_expr.specs.Views.{name_of};
ghost use Rattle.gc_lower.specs.Namings.{scope_of};
ghost use Rattle.gc_prod.specs.Segments.{AreSegments};
ghost use Rattle.gc_spec.specs.PropertyGraph.{PropertyGraph};
ghost use Rattle.gc_views.specs.Namings.{chain_trees, view_in, view_of};
ghost use Rattle.gc_views.specs.Segments.{ComesTo, IsFault};
ghost use Rattle.gc_views.specs.Views.{IsTableOfView};

use crate::fault::ViewFault;
use crate::listing::segments_of;
use crate::naming::Naming;
use crate::reading::{cost_of, first_trail};
use crate::view::Viewed;
use gc_ast::{ChainList, Formula};
use gc_base::{Memory, Name, NameAt, Steps, Sym};
use gc_ppg::GraphList;
use gc_prod::SegmentList;
use gc_rows::Table;
use gc_sorts::Checked;
use gc_values::Reads;
use std::alloc::Global;
use std::sync::ledger::Ledger;

/// The segments of a view of this name, with these chains and this COST, on the graph of a number, or the
/// walk of the first row whose cost is bad. The rows are those of the table of its block there, in whose
/// reads COST is read. A row without a walk has no segment, nor has a view without a name; where the table is
/// that of the block, the segments are segments of the graph.
pub fn segments<L: Ledger>(
    alloc: Global,
    checked: &Checked,
    name: NameAt,
    chains: &ChainList,
    cost: &Option<Formula>,
    on: u32,
    table: &Table,
    reads: &Reads,
    graphs: &GraphList,
    steps: &mut Steps<L>,
) -> Result<SegmentList, ViewFault>
    ensures good { IfOk result (λ segments. ComesTo (view_in checked.now on name chains.now cost.now reads.now graphs.now) table.now.rows (Ok segments)) }
    ensures bad { IfErr result (IsFault (λ walk. ComesTo (view_in checked.now on name chains.now cost.now reads.now graphs.now) table.now.rows (Err walk))) }
    ensures of_graph { (g : PropertyGraph)
        → IsTableOfView (scope_of checked.now on) (chain_trees checked.now chains.now) on g table.now
        → IfOk result (AreSegments g) }
{
    let view = viewed(alloc, checked, name, chains, cost, on, reads, graphs)?;
    segments_of(&view, table, steps)
}

// The view, as rows are asked for it.
fn viewed<'a>(
    alloc: Global,
    checked: &'a Checked,
    name: NameAt,
    chains: &ChainList,
    cost: &Option<Formula>,
    on: u32,
    reads: &'a Reads,
    graphs: &'a GraphList,
) -> Result<Viewed<'a>, Memory>
    ensures { IfOk result (λ view. view_of view ≡ view_in checked.now on name chains.now cost.now reads.now graphs.now) }
{
    let name = bytes_of(checked.file().names.as_slice(), name.sym);
    let naming = Naming { checked, on };
    let trail = first_trail(alloc, &naming, chains)?;
    let cost = cost_of(&naming, cost)?;
    Ok(Viewed {
        alloc,
        name,
        trail,
        cost,
        reads,
        graphs,
    })
}

// The bytes of the name of a number, or none.
fn bytes_of(names: &[Name], sym: Sym) -> &[u8]
    ensures { result.now ≡ name_of names.now sym }
{
    match names.get(sym.0 as usize) {
        None => &[],
        Some(name) => name.bytes(),
    }
}
