ghost use Rattle.std.specs.Prelude.{◌≡◌, IfOk};
ghost use Rattle.gc_build_descriptions.specs.Said.{AreChanges, said_of};

use crate::givens::Given;
use gc_base::{Memory, Sym};
use gc_build_recipe::{Grouped, LabelOf, PropertyOf, Recipe};
use std::alloc::Global;

/// What a recipe says of its variables, by variable.
#[derive(Drop)]
pub(crate) struct Said<'a> {
    labels: Grouped<'a, LabelOf>,
    givens: Grouped<'a, Given<'a>>,
    lost_labels: Grouped<'a, LabelOf>,
    lost_properties: Grouped<'a, PropertyOf>,
}

/// What is done to each element of a variable, in this order.
#[derive(Clone, Copy)]
pub(crate) struct Changes<'a> {
    pub labels: Option<&'a Vec<&'a LabelOf>>,
    pub givens: Option<&'a Vec<&'a Given<'a>>>,
    pub lost_labels: Option<&'a Vec<&'a LabelOf>>,
    pub lost_properties: Option<&'a Vec<&'a PropertyOf>>,
}

/// What a recipe says, where its assignments give this.
pub(crate) fn said_by<'a>(
    alloc: Global,
    recipe: &'a Recipe,
    givens: &'a [Given<'a>],
) -> Result<Said<'a>, Memory>
    ensures { IfOk result (λ said. said ≡ said_of recipe.now givens.now) }
{
    Ok(Said {
        labels: Grouped::of(alloc, recipe.labels.as_slice())?,
        givens: Grouped::of(alloc, givens)?,
        lost_labels: Grouped::of(alloc, recipe.lost_labels.as_slice())?,
        lost_properties: Grouped::of(alloc, recipe.lost_properties.as_slice())?,
    })
}

/// What is done to each element of a variable.
pub(crate) fn changes_of<'a>(said: &'a Said<'a>, var: Sym) -> Changes<'a>
    ensures { AreChanges said.now var result }
{
    Changes {
        labels: said.labels.of_variable(var),
        givens: said.givens.of_variable(var),
        lost_labels: said.lost_labels.of_variable(var),
        lost_properties: said.lost_properties.of_variable(var),
    }
}
