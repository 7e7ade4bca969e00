ghost use Rattle.std.specs.Prelude.{◌≡◌, ℕ, List, map, IfOk, IfSome};
ghost use Rattle.std.specs.Option.{option_and_then, option_copied};
ghost use Rattle.gc_build_descriptions.specs.Described.{Describes, described, described_variable, start_of};
ghost use Rattle.gc_build_descriptions.specs.Faults.{elements_of};
ghost use Rattle.gc_build_descriptions.specs.Givens.{given};
ghost use Rattle.gc_build_descriptions.specs.Said.{changed, said_of};
ghost use Rattle.gc_build_numbers.specs.Settings.{read_graphs};
ghost use Rattle.gc_values.specs.Contexts.{own_among};

use crate::changes::{add_labels, give, remove_labels, remove_properties};
use crate::described::{Described, DescribedList, Description, DescriptionList};
use crate::fault::Refusal;
use crate::givens::{Given, all_given, elements_of};
use crate::said::{Changes, Said, changes_of, said_by};
use crate::starts::{blank, start_graph, start_of};
use gc_base::{Memory, Sequence, Steps, Sym};
use gc_build_numbers::{Element, Numbering, ReadGraphs, Setting};
use gc_build_recipe::{Recipe, Variable};
use gc_ppg::Graph;
use std::alloc::Global;
use std::sync::ledger::Ledger;

/// The labels and properties of all elements of the variables of a CONSTRUCT, in the order in which they
/// are numbered. It is refused as `Fault` exactly where an assignment is undefined on a row of a group
/// of its variable: at the first such assignment in the text, at its least such row.
pub fn describe<L: Ledger>(
    setting: &Setting<'_>,
    recipe: &Recipe,
    numbering: &Numbering,
    steps: &mut Steps<L>,
) -> Result<DescribedList, Refusal>
    ensures { Describes setting.now recipe.now numbering.now.variables result }
{
    let givens = all_given(setting, numbering, &recipe.assignments, steps)?;
    Ok(all_described(setting, recipe, numbering, givens.as_slice(), steps)?)
}

// All variables with the descriptions of their elements.
fn all_described<L: Ledger>(
    setting: &Setting<'_>,
    recipe: &Recipe,
    numbering: &Numbering,
    givens: &[Given<'_>],
    steps: &mut Steps<L>,
) -> Result<DescribedList, Memory>
    requires { givens.now ≡ map (given setting.now numbering.now.variables) recipe.now.assignments }
    ensures { IfOk result (λ all. all ≡ map (described_variable setting.now recipe.now numbering.now.variables) recipe.now.variables) }
{
    let reads = ReadGraphs::of(setting)?;
    let said = said_by(setting.alloc, recipe, givens)?;
    each_described(setting, &reads, recipe, &said, numbering, steps)
}

// The same, where this is said of the variables.
fn each_described<L: Ledger>(
    setting: &Setting<'_>,
    reads: &ReadGraphs<'_>,
    recipe: &Recipe,
    said: &Said<'_>,
    numbering: &Numbering,
    steps: &mut Steps<L>,
) -> Result<DescribedList, Memory>
    requires reads { reads.now ≡ read_graphs setting.now }
    requires said { said.now ≡ said_of recipe.now (map (given setting.now numbering.now.variables) recipe.now.assignments) }
    ensures { IfOk result (λ all. all ≡ map (described_variable setting.now recipe.now numbering.now.variables) recipe.now.variables) }
{
    let mut all = DescribedList::new(setting.alloc);
    for variable in recipe.variables.as_slice() {
        let descriptions = descriptions(setting, reads, recipe, said, numbering, variable, steps)?;
        all.push(Described {
            var: variable.var,
            descriptions,
        })?;
    }
    Ok(all)
}

// The descriptions of the elements of a variable.
fn descriptions<L: Ledger>(
    setting: &Setting<'_>,
    reads: &ReadGraphs<'_>,
    recipe: &Recipe,
    said: &Said<'_>,
    numbering: &Numbering,
    variable: &Variable,
    steps: &mut Steps<L>,
) -> Result<DescriptionList, Memory>
    requires reads { reads.now ≡ read_graphs setting.now }
    requires said { said.now ≡ said_of recipe.now (map (given setting.now numbering.now.variables) recipe.now.assignments) }
    ensures { IfOk result (λ all. all ≡ map (described setting.now recipe.now variable.now) (elements_of numbering.now.variables variable.now.var)) }
{
    let changes = changes_of(said, variable.var);
    match alike(setting, variable.start, changes)? {
        Some(description) => {
            let count = elements_of(numbering, variable.var).len();
            Ok(DescriptionList::of_alike(setting.alloc, description, count))
        }
        None => {
            let each = each_of(setting, reads, recipe, said, numbering, variable, steps)?;
            Ok(DescriptionList::of_each(each.into_vec()))
        }
    }
}

// The same, where each is made by itself.
fn each_of<L: Ledger>(
    setting: &Setting<'_>,
    reads: &ReadGraphs<'_>,
    recipe: &Recipe,
    said: &Said<'_>,
    numbering: &Numbering,
    variable: &Variable,
    steps: &mut Steps<L>,
) -> Result<Sequence<Description>, Memory>
    requires reads { reads.now ≡ read_graphs setting.now }
    requires said { said.now ≡ said_of recipe.now (map (given setting.now numbering.now.variables) recipe.now.assignments) }
    ensures { IfOk result (λ all. all ≡ map (described setting.now recipe.now variable.now) (elements_of numbering.now.variables variable.now.var)) }
{
    let elements = elements_of(numbering, variable.var);
    let changes = changes_of(said, variable.var);
    let graph = start_graph(reads, variable.start);
    let mut all = Sequence::from_vec(Vec::with_capacity(setting.alloc, elements.len())?);
    for (place, element) in elements.iter().enumerate() {
        all.push(described_at(setting, graph, variable, place, element, changes, steps)?)?;
    }
    Ok(all)
}

// The description of each element, to each of which this is done, where all have the same: where they start with nothing
// and are given nothing.
fn alike(
    setting: &Setting<'_>,
    start: Option<Sym>,
    changes: Changes<'_>,
) -> Result<Option<Description>, Memory>
    ensures { IfOk result (λ alike. IfSome alike (λ d. (place : ℕ) → (rows : List ℕ) → changed place changes.entry (start_of setting.now start rows) ≡ d)) }
{
    match (start, changes.givens) {
        (None, None) => Ok(Some(changed(setting.alloc, 0, changes, blank(setting.alloc))?)),
        _ => Ok(None),
    }
}

// The description of the element at a place among those of a variable, to each of which this is done.
fn described_at<L: Ledger>(
    setting: &Setting<'_>,
    graph: Option<&Graph>,
    variable: &Variable,
    place: usize,
    element: &Element,
    changes: Changes<'_>,
    steps: &mut Steps<L>,
) -> Result<Description, Memory>
    requires { option_copied graph ≡ option_and_then (own_among setting.now.reads setting.now.graphs) variable.now.start }
    ensures { IfOk result (λ d. d ≡ changed place changes.entry (start_of setting.now variable.now.start element.now.group.rows)) }
{
    let rows = element.group.rows.as_slice();
    let start = start_of(setting, graph, variable.start, rows, steps)?;
    changed(setting.alloc, place, changes, start)
}

// What the element at a place starts with, after all that is done to it.
fn changed(
    alloc: Global,
    place: usize,
    changes: Changes<'_>,
    start: Description,
) -> Result<Description, Memory>
    ensures { IfOk result (λ d. d ≡ changed place changes.entry start) }
{
    let mut description = start;
    add_labels(&mut description, changes.labels)?;
    give(alloc, &mut description, place, changes.givens)?;
    remove_labels(&mut description, changes.lost_labels);
    remove_properties(alloc, &mut description, changes.lost_properties)?;
    Ok(description)
}
