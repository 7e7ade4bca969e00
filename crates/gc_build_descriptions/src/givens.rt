ghost use Rattle.std.specs.Prelude.{◌≡◌, IfOk};
ghost use Rattle.gc_build_descriptions.specs.Faults.{elements_of};
ghost use Rattle.gc_build_descriptions.specs.Givens.{Gives, GiveAll};
ghost use Rattle.gc_expr.specs.declared.expr.Fold.TheVariants.{Collect};
ghost use Rattle.gc_group.specs.Folds.{folded, literals_of};

use crate::aggregates::aggregations;
use crate::assigned::assigned_values;
use crate::fault::Refusal;
use crate::faults::least_fault;
use gc_base::{Memory, Name, Sequence, Steps, Sym, ValueSet};
use gc_build_numbers::{Element, Numbering, Setting};
use gc_build_recipe::{Assignment, OfVariable};
use gc_expr::Fold;
use gc_group::fold;
use gc_values::Val;
use std::alloc::Global;
use std::marker::Model;
use std::sync::ledger::Ledger;

/// What an assignment gives: a property of its variable, with the values on each element, in the
/// order of the elements.
#[derive(Drop)]
pub(crate) struct Given<'a> {
    pub var: Sym,
    pub property: &'a Name,
    pub values: ValueSets,
}

/// Sets of values.
pub(crate) type ValueSets = Sequence<ValueSet>;

impl<'a> Model for Given<'a> {
    ghost use Rattle.gc_build_descriptions.specs.Givens.{Given};

    ghost Value = { Given };

    ghost view = { λ g. record { var = g.var; property = g.property.now; values = g.values } };
}

impl OfVariable for Given<'_> {
    ghost var_of = { λ g. g.var };

    fn var(&self) -> Sym {
        self.var
    }
}

/// The elements of a variable, in their order.
pub(crate) fn elements_of(numbering: &Numbering, var: Sym) -> &[Element]
    ensures { result.now ≡ elements_of numbering.now.variables var }
{
    match numbering.variables.get(var) {
        Some(numbered) => numbered.elements.as_slice(),
        None => &[],
    }
}

/// What all assignments give, or the fault of the first that is undefined on a row. Each is
/// evaluated once, so that a fault is known before anything is described.
pub(crate) fn all_given<'a, L: Ledger>(
    setting: &Setting<'_>,
    numbering: &Numbering,
    assignments: &'a [Assignment],
    steps: &mut Steps<L>,
) -> Result<Sequence<Given<'a>>, Refusal>
    ensures { GiveAll setting.now numbering.now.variables assignments.now result }
{
    let mut all = Sequence::new(setting.alloc);
    for assignment in assignments {
        all.push(given_by(setting, numbering, assignment, steps)?)?;
    }
    Ok(all)
}

// What an assignment gives, or its fault at the least row.
fn given_by<'a, L: Ledger>(
    setting: &Setting<'_>,
    numbering: &Numbering,
    assignment: &'a Assignment,
    steps: &mut Steps<L>,
) -> Result<Given<'a>, Refusal>
    ensures { Gives setting.now numbering.now.variables assignment.now result }
{
    let aggregates = aggregations(setting.alloc, &assignment.value)?;
    let mut values = ValueSets::new(setting.alloc);
    let mut least = None;
    for element in elements_of(numbering, assignment.var) {
        let places = element.group.rows.as_slice();
        let on_rows = assigned_values(setting, assignment, &aggregates, places, steps)?;
        least = least_fault(least, assignment, places, &on_rows);
        values.push(collected(setting.alloc, &on_rows)?)?;
    }
    match least {
        Some(fault) => Err(Refusal::Fault(fault)),
        None => Ok(Given {
            var: assignment.var,
            property: &assignment.property,
            values,
        }),
    }
}

// The union of the values on rows; none where one of them is undefined.
fn collected(alloc: Global, values: &[Val]) -> Result<ValueSet, Memory>
    ensures { IfOk result (λ set. set ≡ literals_of (folded Collect values.now)) }
{
    match fold(alloc, Fold::Collect, values)? {
        Val::Set(set) => Ok(set),
        Val::Element(_) | Val::Walked | Val::Undefined(_) => Ok(ValueSet::empty(alloc)),
    }
}
