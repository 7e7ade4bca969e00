ghost use Rattle.std.specs.Prelude.{◌≡◌, IfOk};
ghost use Rattle.std.specs.Ordering.{nat_cmp};
ghost use Rattle.gc_base.specs.Ascending.{Ascends};
ghost use Rattle.gc_rows.specs.Tables.{HasExactly};
ghost use Rattle.gc_spec.specs.PropertyGraph.{is_among};

use gc_base::{Id, Memory};

/// The same identities, ascending, each once.
pub(crate) fn ascending(mut ids: Vec<Id>) -> Result<Vec<Id>, Memory>
    ensures ascend { IfOk result (λ sorted. Ascends nat_cmp sorted.items) }
    ensures exact { IfOk result (λ sorted. HasExactly ids.items sorted.items) }
{
    ids.sort()?;
    ids.dedup();
    Ok(ids)
}

/// Whether an identity is among some that ascend.
pub(crate) fn is_listed(ids: &[Id], id: Id) -> bool
    requires { Ascends nat_cmp ids.now }
    ensures { result ≡ is_among ids.now id }
{
    ids.binary_search(&id).is_ok()
}
