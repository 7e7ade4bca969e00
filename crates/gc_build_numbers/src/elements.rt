ghost use Rattle.std.specs.Prelude.{◌≡◌, ◌<◌, List, Option, IfOk, fold, length, map};
ghost use Rattle.std.specs.List.{All};
ghost use Rattle.std.specs.Option.{option_and_then};
ghost use Rattle.gc_group.specs.Groups.{AreGroupsOf};
ghost use Rattle.gc_group.specs.declared.key.Key.{Key};
ghost use Rattle.gc_build_numbers.specs.Keys.{id_of};
ghost use Rattle.gc_build_numbers.specs.Numbers.{bound_number, elements_by, numbered_from, taken_by, which_has, with_place};

use crate::numbered::Element;
use gc_base::Memory;
use gc_build_recipe::Grouping;
use gc_group::{Group, Key};
use gc_rows::Datum;
use std::alloc::Global;

/// The elements of groups, in their order; new ones are numbered from `next` on.
pub(crate) fn elements(
    alloc: Global,
    grouping: &Grouping,
    next: u64,
    groups: Vec<Group>,
) -> Result<Vec<Element>, Memory>
    ensures { IfOk result (λ elements. elements.items ≡ elements_by grouping.now next groups.items) }
{
    match grouping {
        Grouping::Bound => bound(alloc, groups),
        Grouping::EachRow | Grouping::Walk | Grouping::Terms(_) => numbered(alloc, next, groups),
        Grouping::Link {
            source: _,
            target: _,
            terms: _,
        } => numbered(alloc, next, groups),
    }
}

/// How many new numbers a number of groups takes.
pub(crate) fn taken_by(grouping: &Grouping, groups: &[Group]) -> u64
    ensures { result ≡ taken_by grouping.now groups.now }
{
    match grouping {
        Grouping::Bound => 0,
        Grouping::EachRow | Grouping::Walk | Grouping::Terms(_) => groups.len() as u64,
        Grouping::Link {
            source: _,
            target: _,
            terms: _,
        } => groups.len() as u64,
    }
}

// Bound elements, whose numbers are their identities.
fn bound(alloc: Global, groups: Vec<Group>) -> Result<Vec<Element>, Memory>
    ensures { IfOk result (λ elements. elements.items ≡ map (λ g. record { number = bound_number g.key; group = g }) groups.items) }
{
    let mut elements = Vec::with_capacity(alloc, groups.len())?;
    for group in groups {
        elements.push(Element {
            number: bound_number(&group.key),
            group,
        })?;
    }
    Ok(elements)
}

// New elements, which are numbered from this number on.
fn numbered(alloc: Global, next: u64, groups: Vec<Group>) -> Result<Vec<Element>, Memory>
    ensures { IfOk result (λ elements. elements.items ≡ numbered_from next groups.items) }
{
    let mut elements = Vec::with_capacity(alloc, groups.len())?;
    let mut number = next;
    for group in groups {
        elements.push(Element { number, group })?;
        number = number.checked_add(1).ok_or(Memory)?;
    }
    Ok(elements)
}

// The identity in the key of a bound element.
fn bound_number(key: &Key) -> u64
    ensures { result ≡ bound_number key.now }
{
    match key.parts.as_slice().first() {
        Some(Some(datum)) => id_of(datum).unwrap_or(0),
        _ => 0,
    }
}

// The identity of an element.
fn id_of(datum: &Datum) -> Option<u64>
    ensures { result ≡ id_of datum.now }
{
    match datum {
        Datum::Node(id) | Datum::Edge(id) | Datum::Stored(id) => Some(id.get()),
        _ => None,
    }
}

/// For each of a number of rows, which have these keys, in order, which of the elements has its key, if one does.
/// These are the elements of the groups of the rows, so each is written at its rows and none is looked for.
pub(crate) fn which(
    alloc: Global,
    count: usize,
    elements: &[Element],
) -> Result<Vec<Option<usize>>, Memory>
    ghost keys: { List (Option Key) }
    requires as_many { count ≡ length keys }
    requires each { AreGroupsOf keys (map (λ e. e.group) elements.now) }
    ensures { IfOk result (λ which. which.items ≡ map (option_and_then (which_has elements.now)) keys) }
{
    let mut which = vec![in alloc; None; count]?;
    for (place, element) in elements.iter().enumerate() {
        give_place(&mut which, element.group.rows.as_slice(), place);
    }
    Ok(which)
}

// Has each of these rows make the element at a place.
fn give_place(which: &mut [Option<usize>], rows: &[u64], place: usize)
    requires { All (λ row. row < length which.old) rows.now }
    ensures { which.new ≡ fold (with_place place) which.old rows.now }
{
    for row in rows {
        which[*row as usize] = Some(place);
    }
}
