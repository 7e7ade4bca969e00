ghost use Rattle.std.specs.Prelude.{◌≡◌, map, IfOk};
ghost use Rattle.gc_base.specs.Ascending.{Ascends};
ghost use Rattle.gc_rows.specs.Arrays.{cells_order};
ghost use Rattle.gc_rows.specs.Tables.{HasExactly};

use crate::datum::Datum;
use gc_base::Memory;
use std::cmp::Ordering;

/// The order of rows over one schema: cell by cell, an empty one first.
pub(crate) fn cells_cmp(a: &[Option<Datum>], b: &[Option<Datum>]) -> Ordering
    ensures { result ≡ cells_order a.now b.now }
{
    a.cmp(b)
}

/// The rows in order, each once.
pub(crate) fn sort<'a>(
    mut rows: Vec<&'a [Option<Datum>]>,
) -> Result<Vec<&'a [Option<Datum>]>, Memory>
    ensures ascend { IfOk result (λ sorted. Ascends cells_order (map (λ r. r.now) sorted.items)) }
    ensures exact { IfOk result (λ sorted. HasExactly (map (λ r. r.now) rows.entry.items) (map (λ r. r.now) sorted.items)) }
{
    rows.sort_by(|a, b| cells_cmp(a, b))?;
    rows.dedup_by(|a, b| cells_cmp(a, b).is_eq());
    Ok(rows)
}
