ghost use Rattle.std.specs.Prelude.{◌≡◌, IfOk, map};
ghost use Rattle.std.specs.Option.{option_copied, option_map};
ghost use Rattle.gc_build.specs.Makings.{datum_by, description_at, element_of, made_at};

use crate::making::Making;
use gc_base::{Duplicate, Id, LabelSet, Memory, Properties};
use gc_build_descriptions::Description;
use gc_build_recipe::{Grouping, Variable};
use gc_ppg::Kind;
use gc_rows::{Datum, RowView};
use gc_values::{Made, MadeList};

/// Some variables of the CONSTRUCT as the row at a place makes them.
pub(crate) fn made_of(
    making: &Making<'_>,
    variables: &[&Variable],
    place: usize,
    row: &RowView<'_>,
) -> Result<MadeList, Memory>
    ensures { IfOk result (λ made. made ≡ map (made_at making.now place row.now) (map (λ v. v.now) variables.now)) }
{
    let setting = making.setting;
    let mut made = Vec::with_capacity(setting.alloc, variables.len())?;
    for variable in variables {
        made.push(made_at(making, place, row, variable)?)?;
    }
    Ok(MadeList::from_vec(made))
}

// A variable as the row at a place makes it.
#[tactic(auto, unfolding(crate::specs::Makings::made_at))]
fn made_at(
    making: &Making<'_>,
    place: usize,
    row: &RowView<'_>,
    variable: &Variable,
) -> Result<Made, Memory>
    ensures { IfOk result (λ made. made ≡ made_at making.now place row.now variable.now) }
{
    let id = making.identity_of(place, variable)?;
    let datum = datum_by(variable, row.get(variable.var), id)?;
    let description = described(making, variable, place)?;
    Ok(Made {
        var: variable.var,
        datum,
        labels: description.labels,
        properties: description.properties,
    })
}

// A copy of the description of the element that the row at a place makes.
fn described(making: &Making<'_>, variable: &Variable, place: usize) -> Result<Description, Memory>
    ensures { IfOk result (λ d. d ≡ description_at making.now variable.now.var place) }
{
    let setting = making.setting;
    match making.description_at(variable.var, place) {
        None => Ok(Description {
            labels: LabelSet::empty(setting.alloc),
            properties: Properties::empty(setting.alloc),
        }),
        Some(description) => Ok(Description {
            labels: description.labels.copy()?,
            properties: description.properties.copy()?,
        }),
    }
}

// What a variable stands for on a row, where the row makes an element of this identity of it.
fn datum_by(
    variable: &Variable,
    on_row: Option<&Datum>,
    id: Option<Id>,
) -> Result<Option<Datum>, Memory>
    ensures { IfOk result (λ datum. datum ≡ datum_by variable.now.grouping variable.now.kind (option_copied on_row.entry) id) }
{
    match &variable.grouping {
        Grouping::Walk => copied(on_row),
        _ => Ok(element(variable.kind, id)),
    }
}

fn copied(datum: Option<&Datum>) -> Result<Option<Datum>, Memory>
    ensures { IfOk result (λ copied. copied ≡ option_copied datum.entry) }
{
    match datum {
        None => Ok(None),
        Some(datum) => Ok(Some(datum.copy()?)),
    }
}

// An element of a kind as what a variable stands for.
fn element(kind: Kind, id: Option<Id>) -> Option<Datum>
    ensures { result ≡ option_map (element_of kind) id }
{
    match id {
        None => None,
        Some(id) => Some(element_of(kind, id)),
    }
}

fn element_of(kind: Kind, id: Id) -> Datum
    ensures { result ≡ element_of kind id }
{
    match kind {
        Kind::Node => Datum::Node(id),
        Kind::Edge => Datum::Edge(id),
        Kind::Path => Datum::Stored(id),
    }
}
