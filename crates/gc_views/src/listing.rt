ghost use Rattle.std.specs.Prelude.{◌≡◌, true, map, Some, IfOk, IfErr};
ghost use Rattle.gc_views.specs.Namings.{view_of};
ghost use Rattle.gc_views.specs.Segments.{AreSegmentsOf, Gives, IsBad, IsFault, IsFirstBad, has_walk, segment_of, walking};

use crate::fault::ViewFault;
use crate::order::{in_order, numbered};
use crate::price::cost_of;
use crate::view::Viewed;
use gc_base::{Name, Sequence, Steps};
use gc_prod::{Segment, SegmentList};
use gc_rows::{RowView, Table};
use std::sync::ledger::Ledger;

/// The segments of the rows that have a walk, ascending, each once, or the walk of the first whose cost is bad.
pub(crate) fn segments_of<L: Ledger>(
    view: &Viewed<'_>,
    table: &Table,
    steps: &mut Steps<L>,
) -> Result<SegmentList, ViewFault>
    ensures good { IfOk result (AreSegmentsOf (view_of view.now) table.now.rows) }
    ensures bad { IfErr result (IsFault (IsFirstBad (view_of view.now) table.now.rows)) }
{
    let found = listed(view, table, steps)?;
    let sorted = in_order(found.into_vec())?;
    Ok(numbered(view.alloc, sorted)?)
}

// The segments of the rows that have a walk, one after another, or the walk of the first whose cost is bad.
fn listed<L: Ledger>(
    view: &Viewed<'_>,
    table: &Table,
    steps: &mut Steps<L>,
) -> Result<Sequence<Segment>, ViewFault>
    ensures each { IfOk result (λ found. map (segment_of (view_of view.now)) (walking (view_of view.now) table.now.rows) ≡ map Some found) }
    ensures bad { IfErr result (IsFault (IsFirstBad (view_of view.now) table.now.rows)) }
{
    let mut found = Sequence::new(view.alloc);
    for number in 0..table.len() {
        let row = table.row(number);
        if let Some(segment) = given(view, &row, steps)? {
            found.push(segment)?;
        }
    }
    Ok(found)
}

// The segment of a row, if it has a walk and the view a name, or its walk, where the cost is bad.
fn given<L: Ledger>(
    view: &Viewed<'_>,
    row: &RowView<'_>,
    steps: &mut Steps<L>,
) -> Result<Option<Segment>, ViewFault>
    ensures good { IfOk result (Gives (view_of view.now) row.now) }
    ensures bad { IfErr result (IsFault (λ walk. (has_walk (view_of view.now) row.now ≡ true) × IsBad (view_of view.now) row.now walk)) }
{
    let Some(name) = Name::of(view.alloc, view.name)? else {
        return Ok(None);
    };
    let Some(walk) = view.walk(row)? else {
        return Ok(None);
    };
    let Some(cost) = cost_of(view, row, &walk, steps)? else {
        return Err(ViewFault::BadCost(walk));
    };
    Ok(Some(Segment {
        view: name,
        walk,
        cost,
    }))
}
