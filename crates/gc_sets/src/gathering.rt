ghost use Rattle.std.specs.Prelude.{◌≡◌, true, IfOk};
ghost use Rattle.std.specs.List.Sorted.{IsNonDecreasingBy};
ghost use Rattle.std.specs.Ordering.{nat_cmp, on};
ghost use Rattle.gc_base.specs.Ascending.{Ascends};
ghost use Rattle.gc_sets.specs.Gathered.{IsGathered};

use crate::claim::Claim;
use gc_base::Memory;
use std::mem;

/// The elements that are claimed, by ascending identity, each with all that is said of it.
pub(crate) fn gathered<T: Claim + Drop>(mut claims: Vec<T>) -> Result<Vec<T>, Memory>
    ensures { IfOk result (λ all. IsGathered T.united T.id_of claims.items all.items) }
{
    if ascend(&claims) {
        return Ok(claims);
    }
    claims.sort_by_key(|claim| claim.id())?;
    united(claims)
}

// Whether claims ascend as they come, each of another element. Then they are gathered as they stand.
fn ascend<T: Claim>(claims: &[T]) -> bool
    ensures { result ≡ true → Ascends (on T.id_of nat_cmp) claims.now }
{
    let Some((first, rest)) = claims.split_first() else {
        return true;
    };
    let mut last = first.id();
    for claim in rest {
        let id = claim.id();
        if id <= last {
            return false;
        }
        last = id;
    }
    true
}

// The same, where the claims of each identity stand together. Only what is claimed again is copied.
fn united<T: Claim + Drop>(claims: Vec<T>) -> Result<Vec<T>, Memory>
    requires { IsNonDecreasingBy T.id_of claims.items }
    ensures { IfOk result (λ all. IsGathered T.united T.id_of claims.items all.items) }
{
    let mut all = Vec::with_capacity(*claims.allocator(), claims.len())?;
    let mut claims = claims.into_iter();
    let Some(first) = claims.next() else {
        return Ok(all);
    };
    let mut last = first;
    for claim in claims {
        if claim.id() == last.id() {
            last = last.unite(&claim)?;
        } else {
            all.push(mem::replace(&mut last, claim))?;
        }
    }
    all.push(last)?;
    Ok(all)
}
