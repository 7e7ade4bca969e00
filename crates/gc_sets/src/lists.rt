ghost use Rattle.std.specs.Prelude.{◌≡◌, ◌∷◌, ◌++◌, ◌==◌, [], IfOk, OnOk};
ghost use Rattle.gc_sets.specs.Elements.{others};
ghost use Rattle.gc_sets.specs.Intersections.{in_common, shared_with};
ghost use Rattle.gc_sets.specs.Unions.{beside, together, united};
ghost use Rattle.std.specs.List.{find};

use crate::part::Part;
use gc_base::{Memory, Steps};
use gc_ppg::Graph;
use std::alloc::Global;
use std::sync::ledger::Ledger;

// Copies of the elements of the first graph that are not in the second.
pub(crate) fn others<T: Part + Drop, L: Ledger>(
    alloc: Global,
    a: &Graph,
    b: &Graph,
    steps: &mut Steps<L>,
) -> Result<Vec<T>, Memory>
    ensures { IfOk result (λ kept. kept.items ≡ others T.id_of (T.all a.now) (T.all b.now)) }
{
    let mut kept = Vec::new(alloc);
    push_others(&mut kept, a, b, steps)?;
    Ok(kept)
}

// Adds copies of the elements of the first graph that are not in the second.
fn push_others<T: Part + Drop, L: Ledger>(
    kept: &mut Vec<T>,
    a: &Graph,
    b: &Graph,
    steps: &mut Steps<L>,
) -> Result<(), Memory>
    ensures { OnOk result (kept.new.items ≡ kept.old.items ++ others T.id_of (T.all a.now) (T.all b.now)) }
{
    for i in 0..T::count(a) {
        push_other(kept, T::at(a, i, steps), b, steps)?;
    }
    Ok(())
}

// Adds a copy of an element that is not in a graph.
fn push_other<T: Part + Drop, L: Ledger>(
    kept: &mut Vec<T>,
    element: &T,
    b: &Graph,
    steps: &mut Steps<L>,
) -> Result<(), Memory>
    ensures { OnOk result (kept.new.items ≡ kept.old.items ++ others T.id_of (element.now ∷ []) (T.all b.now)) }
{
    if T::found(b, element.id(), steps).is_none() {
        kept.push(element.copy()?)?;
    }
    Ok(())
}

// The elements of either graph: those of the first, with what the second says of them, and then
// those that the second alone has.
pub(crate) fn together<T: Part + Drop, L: Ledger>(
    alloc: Global,
    a: &Graph,
    b: &Graph,
    steps: &mut Steps<L>,
) -> Result<Vec<T>, Memory>
    ensures { IfOk result (λ all. all.items ≡ together T.united T.id_of (T.all a.now) (T.all b.now)) }
{
    let mut all = united(alloc, a, b, steps)?;
    push_others(&mut all, b, a, steps)?;
    Ok(all)
}

// The elements of the first graph, each with what the second says of it.
fn united<T: Part + Drop, L: Ledger>(
    alloc: Global,
    a: &Graph,
    b: &Graph,
    steps: &mut Steps<L>,
) -> Result<Vec<T>, Memory>
    ensures { IfOk result (λ all. all.items ≡ united T.united T.id_of (T.all a.now) (T.all b.now)) }
{
    let mut all = Vec::with_capacity(alloc, T::count(a))?;
    for i in 0..T::count(a) {
        all.push(beside(T::at(a, i, steps), b, steps)?)?;
    }
    Ok(all)
}

// A copy of an element with what a graph says of it.
fn beside<T: Part, L: Ledger>(element: &T, b: &Graph, steps: &mut Steps<L>) -> Result<T, Memory>
    ensures { IfOk result (λ x. x ≡ beside T.united element.now (find (λ y. T.id_of y == T.id_of element.now) (T.all b.now))) }
{
    match T::found(b, element.id(), steps) {
        Some(other) => element.united_with(other),
        None => element.copy(),
    }
}

// The elements of the first graph that the second has too, each with what is common.
pub(crate) fn in_common<T: Part + Drop, L: Ledger>(
    alloc: Global,
    a: &Graph,
    b: &Graph,
    steps: &mut Steps<L>,
) -> Result<Vec<T>, Memory>
    ensures { IfOk result (λ kept. kept.items ≡ in_common T.common T.id_of (T.all a.now) (T.all b.now)) }
{
    let mut kept = Vec::new(alloc);
    for i in 0..T::count(a) {
        push_common(alloc, &mut kept, T::at(a, i, steps), b, steps)?;
    }
    Ok(kept)
}

// Adds what is common to an element and the one of its identity in a graph, if there is one.
fn push_common<T: Part + Drop, L: Ledger>(
    alloc: Global,
    kept: &mut Vec<T>,
    element: &T,
    b: &Graph,
    steps: &mut Steps<L>,
) -> Result<(), Memory>
    ensures { OnOk result (kept.new.items ≡ kept.old.items
        ++ shared_with T.common element.now (find (λ y. T.id_of y == T.id_of element.now) (T.all b.now))) }
{
    if let Some(other) = T::found(b, element.id(), steps) {
        kept.push(element.common_with(alloc, other)?)?;
    }
    Ok(())
}
