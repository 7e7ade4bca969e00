ghost use Rattle.std.specs.Prelude.{◌≡◌, false, map};
ghost use Rattle.std.specs.Option.{option_map, option_to_list};
ghost use Rattle.gc_ast.specs.PatternViews.{named, named_if, group_term_tree};
ghost use Rattle.gc_ast.specs.QueryViews.{formula_tree, assign_tree, new_element_tree, part_tree, change_tree, item_tree};
ghost use Rattle.gc_ast.specs.Trees.{row, maybe};
ghost use Rattle.gc_sorts.specs.Breaches.{first_among};
ghost use Rattle.gc_sorts.specs.Constructs as constructs;
ghost use Rattle.gc_sorts.specs.declared.form.Takes.TheVariants as takes;
ghost use Rattle.gc_sorts.specs.Graphs.{known};
ghost use Rattle.gc_sorts.specs.Patterns.{each};
ghost use Rattle.gc_sorts.specs.Variables.{use_by};

use crate::breach::{Breach, SortRule, noted, noted_if};
use crate::expressions::{expression, misfit, name_at, unknown_if};
use crate::form::{Form, Takes};
use crate::graphs::{GraphNames, unknown_graph};
use crate::makes::{copy_use, group_use};
use crate::making::Making;
use crate::sort::{Role, UseAt};
use crate::standing::Place;
use gc_ast::{
    Assign, AssignList, Change, ChangeList, ConstructPart, ConstructPartList, Formula, GroupTerm,
    GroupTermList, Item, ItemList, NewElement,
};
use gc_base::NameAt;

// The first breach of those so far and of an expression at a place.
#[tactic(auto, unfolding(gc_ast::specs::QueryViews::formula_by))]
pub(crate) fn formula(
    found: Option<Breach>,
    place: &Place,
    folds: bool,
    takes: Takes,
    formula: &Formula,
) -> Option<Breach>
    ensures { result ≡ first_among found (constructs.formula_breaches place.now.at folds takes (formula_tree place.now.names formula.now)) }
{
    expression(found, place, folds, takes, &formula.expr)
}

#[tactic(auto, unfolding(gc_ast::specs::QueryViews::assign_by, gc_ast::specs::QueryViews::formula_by))]
fn assign(found: Option<Breach>, making: &Making, assign: &Assign) -> Option<Breach>
    ensures { result ≡ first_among found (constructs.assign_breaches making.now.all (assign_tree making.now.names assign.now)) }
{
    let place = making.given();
    formula(found, &place, true, Takes::Value, &assign.value)
}

fn assigns(found: Option<Breach>, making: &Making, given: &AssignList) -> Option<Breach>
    ensures { result ≡ first_among found (each (constructs.assign_breaches making.now.all) (row (map (assign_tree making.now.names) given.now.items))) }
{
    let mut found = found;
    for one in given {
        found = assign(found, making, one);
    }
    found
}

// A node's or an edge's name.
fn made(found: Option<Breach>, making: &Making, kind: Form, name: &Option<NameAt>) -> Option<Breach>
    ensures { result ≡ first_among found (constructs.made_breaches making.now.all kind (named_if making.now.names name.now)) }
{
    match name {
        None => found,
        Some(name) => {
            let form = making.when().form_of(name.sym);
            misfit(found, Takes::Like(kind), form, name.token as u64)
        }
    }
}

fn copy(
    found: Option<Breach>,
    making: &Making,
    kind: Form,
    copied: &Option<NameAt>,
) -> Option<Breach>
    ensures { result ≡ first_among found (constructs.copy_breaches making.now.all kind (named_if making.now.names copied.now)) }
{
    match copied {
        None => found,
        Some(name) => {
            let place = making.given();
            name_at(
                found,
                &place,
                Takes::Like(kind),
                name.sym,
                name.token as u64,
            )
        }
    }
}

fn term(found: Option<Breach>, making: &Making, term: &GroupTerm) -> Option<Breach>
    ensures { result ≡ first_among found (constructs.term_breaches making.now.all (group_term_tree making.now.names term.now)) }
{
    let place = making.given();
    let takes = match &term.property {
        None => Takes::Anything,
        Some(_) => Takes::Described,
    };
    name_at(found, &place, takes, term.name.sym, term.name.token as u64)
}

fn terms(found: Option<Breach>, making: &Making, group: &GroupTermList) -> Option<Breach>
    ensures { result ≡ first_among found (each (constructs.term_breaches making.now.all) (row (map (group_term_tree making.now.names) group.now))) }
{
    let mut found = found;
    for one in group.as_slice() {
        found = term(found, making, one);
    }
    found
}

// The GROUP of an element.
fn grouped(found: Option<Breach>, making: &Making, place: Option<UseAt>) -> Option<Breach>
    ensures { result ≡ first_among found (constructs.each_twice making.now.all.matched making.now.all.groups
        (map (use_by making.now.names) (option_to_list place))) }
{
    match place {
        None => found,
        Some(at) => {
            let is_twice = making.is_matched(at.name)
                || making.is_grouped_before(at.name, at.token);
            noted_if(found, is_twice, SortRule::TwiceGrouped, at.token as u64)
        }
    }
}

// The `=` of an element.
fn copied(found: Option<Breach>, making: &Making, place: Option<UseAt>) -> Option<Breach>
    ensures { result ≡ first_among found (constructs.each_twice making.now.all.matched making.now.all.copies
        (map (use_by making.now.names) (option_to_list place))) }
{
    match place {
        None => found,
        Some(at) => {
            let is_twice = making.is_matched(at.name) || making.is_copied_before(at.name, at.token);
            noted_if(found, is_twice, SortRule::TwiceGrouped, at.token as u64)
        }
    }
}

fn second_edge(found: Option<Breach>, making: &Making, name: &Option<NameAt>) -> Option<Breach>
    ensures { result ≡ first_among found (constructs.second_edge making.now.all (named_if making.now.names name.now)) }
{
    match name {
        None => found,
        Some(name) => {
            let is_second = !making.is_matched(name.sym)
                && making.is_made_before(name.sym, name.token);
            noted_if(found, is_second, SortRule::TwiceGrouped, name.token as u64)
        }
    }
}

#[tactic(auto, unfolding(gc_ast::specs::QueryViews::new_element_by, gc_ast::specs::QueryViews::assign_by))]
fn element(
    found: Option<Breach>,
    making: &Making,
    kind: Form,
    role: Role,
    element: &NewElement,
) -> Option<Breach>
    ensures { result ≡ first_among found (constructs.element_breaches making.now.all kind role (new_element_tree making.now.names element.now)) }
{
    let found = made(found, making, kind, &element.name);
    let found = copy(found, making, kind, &element.copy);
    let found = terms(found, making, &element.group);
    let found = grouped(
        found,
        making,
        group_use(role, &element.name, &element.group),
    );
    let found = copied(found, making, copy_use(role, &element.name, &element.copy));
    assigns(found, making, &element.assigns)
}

#[tactic(auto, unfolding(gc_ast::specs::QueryViews::new_element_by, gc_ast::specs::QueryViews::assign_by))]
fn edge(found: Option<Breach>, making: &Making, new: &NewElement) -> Option<Breach>
    ensures { result ≡ first_among found (constructs.edge_breaches making.now.all (new_element_tree making.now.names new.now)) }
{
    let found = second_edge(found, making, &new.name);
    element(found, making, Form::Edge, Role::Edge, new)
}

fn projected_misfit(found: Option<Breach>, form: Form, token: u64) -> Option<Breach>
    ensures { result ≡ first_among found (constructs.projected_misfit form token) }
{
    match form {
        Form::All => found,
        _ => misfit(found, Takes::Walked, form, token),
    }
}

fn stored(
    found: Option<Breach>,
    making: &Making,
    name: NameAt,
    given: &AssignList,
) -> Option<Breach>
    ensures { result ≡ first_among found (constructs.stored_breaches making.now.all (named making.now.names name)
        (row (map (assign_tree making.now.names) given.now.items))) }
{
    let place = making.given();
    let found = name_at(found, &place, Takes::Walked, name.sym, name.token as u64);
    assigns(found, making, given)
}

#[tactic(auto, unfolding(gc_ast::specs::QueryViews::part_by, gc_ast::specs::QueryViews::new_element_by, gc_ast::specs::QueryViews::assign_by))]
fn part(found: Option<Breach>, making: &Making, part: &ConstructPart) -> Option<Breach>
    ensures { result ≡ first_among found (constructs.part_breaches making.now.all (part_tree making.now.names part.now)) }
{
    match part {
        ConstructPart::Node(new) => element(found, making, Form::Node, Role::Node, new),
        ConstructPart::Edge { element: new, .. } => edge(found, making, new),
        ConstructPart::Projected { name, .. } => {
            let form = making.given().form_of(name.sym);
            let found = unknown_if(found, form, name.token as u64);
            projected_misfit(found, form, name.token as u64)
        }
        ConstructPart::Stored {
            name,
            assigns: given,
            ..
        } => stored(found, making, *name, given),
    }
}

#[tactic(auto, unfolding(gc_ast::specs::QueryViews::part_by))]
fn parts(found: Option<Breach>, making: &Making, chain: &ConstructPartList) -> Option<Breach>
    ensures { result ≡ first_among found (each (constructs.part_breaches making.now.all) (row (map (part_tree making.now.names) chain.now.items))) }
{
    let mut found = found;
    for one in chain {
        found = part(found, making, one);
    }
    found
}

// The target of a SET or REMOVE.
fn target(found: Option<Breach>, making: &Making, name: NameAt) -> Option<Breach>
    ensures { result ≡ first_among found (constructs.target_breaches making.now.all (named making.now.names name)) }
{
    if !making.is_target(name.sym) {
        return noted(found, SortRule::UnknownName, name.token as u64);
    }
    match making.given().form_of(name.sym) {
        Form::All => noted(found, SortRule::AllNotProjected, name.token as u64),
        _ => found,
    }
}

#[tactic(auto, unfolding(gc_ast::specs::QueryViews::change_by, gc_ast::specs::QueryViews::assign_by))]
fn change(found: Option<Breach>, making: &Making, change: &Change) -> Option<Breach>
    ensures { result ≡ first_among found (constructs.change_breaches making.now.all (change_tree making.now.names change.now)) }
{
    match change {
        Change::Assign {
            target: name,
            assign: given,
        } => {
            let found = target(found, making, *name);
            assign(found, making, given)
        }
        Change::AddLabel { target: name, .. }
        | Change::DropProperty { target: name, .. }
        | Change::DropLabel { target: name, .. } => target(found, making, *name),
    }
}

#[tactic(auto, unfolding(gc_ast::specs::QueryViews::change_by))]
fn changes(found: Option<Breach>, making: &Making, all: &ChangeList) -> Option<Breach>
    ensures { result ≡ first_among found (each (constructs.change_breaches making.now.all) (row (map (change_tree making.now.names) all.now.items))) }
{
    let mut found = found;
    for one in all {
        found = change(found, making, one);
    }
    found
}

// The condition of an item.
fn condition(found: Option<Breach>, making: &Making, when: &Option<Formula>) -> Option<Breach>
    ensures { result ≡ first_among found (each (constructs.formula_breaches (constructs.when_ making.now.all) false takes.Condition)
        (maybe (option_map (formula_tree making.now.names) when.now))) }
{
    match when {
        None => found,
        Some(condition) => {
            let place = making.when();
            formula(found, &place, false, Takes::Condition, condition)
        }
    }
}

#[tactic(auto, unfolding(gc_ast::specs::QueryViews::item_by, gc_ast::specs::QueryViews::part_by, gc_ast::specs::QueryViews::change_by, gc_ast::specs::QueryViews::formula_by))]
fn item(found: Option<Breach>, graphs: &GraphNames, making: &Making, item: &Item) -> Option<Breach>
    requires { graphs.now.names ≡ making.now.names }
    ensures { result ≡ first_among found (constructs.item_breaches (known graphs.now) making.now.all (item_tree making.now.names item.now)) }
{
    match item {
        Item::Graph(name) => unknown_graph(found, graphs, *name),
        Item::Chain {
            parts: chain,
            changes: all,
            when,
        } => {
            let found = parts(found, making, chain);
            let found = changes(found, making, all);
            condition(found, making, when)
        }
    }
}

/// The first breach of those so far and of items.
pub(crate) fn items(
    found: Option<Breach>,
    graphs: &GraphNames,
    making: &Making,
    all: &ItemList,
) -> Option<Breach>
    requires { graphs.now.names ≡ making.now.names }
    ensures { result ≡ first_among found (each (constructs.item_breaches (known graphs.now) making.now.all)
        (row (map (item_tree making.now.names) all.now.items))) }
{
    let mut found = found;
    for one in all {
        found = item(found, graphs, making, one);
    }
    found
}
