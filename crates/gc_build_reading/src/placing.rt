ghost use Rattle.std.specs.Prelude.{◌≡◌, ◌++◌, ◌∷◌, [], None, map, IfOk, OnOk};
ghost use Rattle.gc_ast.specs.QueryViews.{item_tree, new_element_tree, part_tree};
ghost use Rattle.gc_ast.specs.Trees.{row};
ghost use Rattle.gc_build_reading.specs.Indexes.{AreSeen};
ghost use Rattle.gc_build_reading.specs.Namings.{names_of, scope, variable_in};
ghost use Rattle.gc_build_reading.specs.Places.{chain_places, edge_place, edge_places, element_variable, ends_of, item_places, next_variable, node_place, node_variable, part_places, path_place, places_of};
ghost use Rattle.gc_build_reading.specs.Variables.{first_places, with_first};

use crate::index::Vars;
use crate::naming::Naming;
use crate::place::{Ends, Place};
use gc_ast::{ConstructPart, Item, ItemList, NewElement};
use gc_base::{Direction, Memory, NameAt, Sym};
use gc_ppg::Kind;
use std::alloc::Global;

/// Where a part of a chain stands: the nodes beside it, so far as there are any.
#[derive(Clone, Copy)]
struct Beside {
    left: Option<Sym>,
    right: Option<Sym>,
}

/// The places of variables in items, in the order of the text.
pub(crate) fn places_of(
    alloc: Global,
    naming: &Naming<'_>,
    items: &ItemList,
) -> Result<Vec<Place>, Memory>
    ensures { IfOk result (λ places. places.items ≡ places_of (scope naming.now) (row (map (item_tree (names_of naming.now)) items.now.items))) }
{
    let mut places = Vec::new(alloc);
    for item in items {
        add_item(&mut places, naming, item)?;
    }
    Ok(places)
}

#[tactic(auto, unfolding(gc_ast::specs::QueryViews::item_by, gc_ast::specs::QueryViews::part_by))]
fn add_item(places: &mut Vec<Place>, naming: &Naming<'_>, item: &Item) -> Result<(), Memory>
    ensures { OnOk result (places.new.items ≡ places.old.items ++ item_places (scope naming.now) (item_tree (names_of naming.now) item.now)) }
{
    match item {
        Item::Graph(_) => Ok(()),
        Item::Chain { parts, .. } => add_chain(places, naming, parts),
    }
}

// Adds the places of the parts of a chain.
fn add_chain(
    places: &mut Vec<Place>,
    naming: &Naming<'_>,
    parts: &[ConstructPart],
) -> Result<(), Memory>
    ensures { OnOk result (places.new.items
        ≡ places.old.items ++ chain_places (scope naming.now) None (row (map (part_tree (names_of naming.now)) parts.now))) }
{
    let mut left = None;
    for i in 0..parts.len() {
        let right = next_variable(naming, &parts[i + 1..]);
        add_part(places, naming, Beside { left, right }, &parts[i])?;
        left = node_variable(naming, &parts[i]);
    }
    Ok(())
}

// Adds the place of a part of a chain, if it has one.
#[tactic(auto, unfolding(gc_ast::specs::QueryViews::part_by, gc_ast::specs::QueryViews::new_element_by))]
fn add_part(
    places: &mut Vec<Place>,
    naming: &Naming<'_>,
    beside: Beside,
    part: &ConstructPart,
) -> Result<(), Memory>
    ensures { OnOk result (places.new.items
        ≡ places.old.items ++ part_places (scope naming.now) beside.left beside.right (part_tree (names_of naming.now) part.now)) }
{
    match part {
        ConstructPart::Node(element) => {
            places.push(node_place(naming.element_variable(element)))?;
            Ok(())
        }
        ConstructPart::Edge { way, element } => add_edge(places, naming, beside, *way, element),
        ConstructPart::Projected { .. } => Ok(()),
        ConstructPart::Stored { name, .. } => add_path(places, naming, *name),
    }
}

// Adds the place of a path of this name.
fn add_path(places: &mut Vec<Place>, naming: &Naming<'_>, name: NameAt) -> Result<(), Memory>
    ensures { OnOk result (places.new.items ≡ places.old.items ++ path_place (variable_in naming.now name.sym) ∷ []) }
{
    places.push(path_place(naming.named(name.sym)))?;
    Ok(())
}

// Adds the place of an edge between two nodes.
fn add_edge(
    places: &mut Vec<Place>,
    naming: &Naming<'_>,
    beside: Beside,
    way: Direction,
    element: &NewElement,
) -> Result<(), Memory>
    ensures { OnOk result (places.new.items
        ≡ places.old.items ++ edge_places (scope naming.now) beside.left beside.right way (new_element_tree (names_of naming.now) element.now)) }
{
    let Some(left) = beside.left else {
        return Ok(());
    };
    let Some(right) = beside.right else {
        return Ok(());
    };
    let ends = ends_of(way, left, right);
    places.push(edge_place(naming.element_variable(element), ends))?;
    Ok(())
}

fn node_place(var: Sym) -> Place
    ensures { result ≡ node_place var }
{
    Place {
        var,
        kind: Kind::Node,
        ends: None,
    }
}

fn edge_place(var: Sym, ends: Ends) -> Place
    ensures { result ≡ edge_place var ends }
{
    Place {
        var,
        kind: Kind::Edge,
        ends: Some(ends),
    }
}

fn path_place(var: Sym) -> Place
    ensures { result ≡ path_place var }
{
    Place {
        var,
        kind: Kind::Path,
        ends: None,
    }
}

// The ends of an edge between two nodes.
fn ends_of(way: Direction, left: Sym, right: Sym) -> Ends
    ensures { result ≡ ends_of way left right }
{
    match way {
        Direction::Forward | Direction::Either => Ends {
            source: left,
            target: right,
        },
        Direction::Backward => Ends {
            source: right,
            target: left,
        },
    }
}

// The variable of a part of a chain, if that is a node.
#[tactic(auto, unfolding(gc_ast::specs::QueryViews::part_by, gc_ast::specs::QueryViews::new_element_by, gc_ast::specs::QueryViews::assign_by))]
fn node_variable(naming: &Naming<'_>, part: &ConstructPart) -> Option<Sym>
    ensures { result ≡ node_variable (scope naming.now) (part_tree (names_of naming.now) part.now) }
{
    match part {
        ConstructPart::Node(element) => Some(naming.element_variable(element)),
        _ => None,
    }
}

// The variable of the first of the parts, if that is a node.
fn next_variable(naming: &Naming<'_>, parts: &[ConstructPart]) -> Option<Sym>
    ensures { result ≡ next_variable (scope naming.now) (row (map (part_tree (names_of naming.now)) parts.now)) }
{
    match parts.first() {
        None => None,
        Some(part) => node_variable(naming, part),
    }
}

/// The places at which variables come first.
pub(crate) fn first_places(alloc: Global, places: &[Place]) -> Result<Vec<Place>, Memory>
    ensures { IfOk result (λ firsts. firsts.items ≡ first_places places.now) }
{
    let mut seen = Vars::new(alloc);
    let mut firsts = Vec::new(alloc);
    for place in places {
        add_first(&mut firsts, &mut seen, *place)?;
    }
    Ok(firsts)
}

// Adds a place, if its variable is not among those that were seen.
fn add_first(firsts: &mut Vec<Place>, seen: &mut Vars, place: Place) -> Result<(), Memory>
    requires { AreSeen seen.old firsts.old.items }
    ensures firsts { OnOk result (firsts.new.items ≡ with_first firsts.old.items place) }
    ensures seen { OnOk result (AreSeen seen.new firsts.new.items) }
{
    if seen.add(place.var)? {
        firsts.push(place)?;
    }
    Ok(())
}
