ghost use Rattle.std.specs.Prelude.{◌≡◌, ◌++◌, None, map, IfOk, OnOk};
ghost use Rattle.gc_build_reading.specs.Indexes.{makings_in};
ghost use Rattle.gc_build_reading.specs.Variables.{all_terms, bound_grouping, grouping_of, is_of, new_grouping, of_kind, start_of, variable_at, variable_term, variables_at};

use crate::index::Index;
use crate::place::{Ends, Place};
use gc_base::{Duplicate, Memory, Name, Sym};
use gc_build_recipe::{Grouping, Term, TermList, Variable, VariableList};
use gc_ppg::Kind;
use std::alloc::Global;

/// The variables of places: nodes, then edges, then paths, each kind in the order of the places.
pub(crate) fn variables(
    alloc: Global,
    index: &Index<'_>,
    firsts: &[Place],
) -> Result<VariableList, Memory>
    ensures { IfOk result (λ variables. variables ≡ variables_at (makings_in index.now) firsts.now) }
{
    let mut variables = VariableList::new(alloc);
    add_kind(alloc, &mut variables, index, Kind::Node, firsts)?;
    add_kind(alloc, &mut variables, index, Kind::Edge, firsts)?;
    add_kind(alloc, &mut variables, index, Kind::Path, firsts)?;
    Ok(variables)
}

// Adds the variables of the places of a kind.
fn add_kind(
    alloc: Global,
    variables: &mut VariableList,
    index: &Index<'_>,
    kind: Kind,
    firsts: &[Place],
) -> Result<(), Memory>
    ensures { OnOk result (variables.new ≡ variables.old ++ map (variable_at (makings_in index.now)) (of_kind kind firsts.now)) }
{
    for place in firsts {
        if is_of(kind, place.kind) {
            variables.push(variable_at(alloc, index, *place)?)?;
        }
    }
    Ok(())
}

fn is_of(kind: Kind, other: Kind) -> bool
    ensures { result ≡ is_of kind other }
{
    match (kind, other) {
        (Kind::Node, Kind::Node) => true,
        (Kind::Edge, Kind::Edge) => true,
        (Kind::Path, Kind::Path) => true,
        _ => false,
    }
}

// The variable of a place.
fn variable_at(alloc: Global, index: &Index<'_>, place: Place) -> Result<Variable, Memory>
    ensures { IfOk result (λ v. v ≡ variable_at (makings_in index.now) place) }
{
    let grouping = grouping_of(alloc, index, place)?;
    Ok(Variable {
        var: place.var,
        kind: place.kind,
        grouping,
        start: start_of(index, place.var),
    })
}

// With whose labels and properties a variable starts.
fn start_of(index: &Index<'_>, var: Sym) -> Option<Sym>
    ensures { result ≡ start_of (makings_in index.now) var }
{
    if index.bound.has(var) {
        Some(var)
    } else {
        index.copies.of_variable(var)
    }
}

// By what rows are grouped for the variable of a place.
fn grouping_of(alloc: Global, index: &Index<'_>, place: Place) -> Result<Grouping, Memory>
    ensures { IfOk result (λ g. g ≡ grouping_of (makings_in index.now) place) }
{
    if index.bound.has(place.var) {
        let is_found = index.naming.is_found(index.block, place.var);
        return Ok(bound_grouping(is_found));
    }
    let terms = all_terms(alloc, index, place.var)?;
    Ok(new_grouping(place.ends, terms))
}

// By what rows are grouped for a bound variable.
fn bound_grouping(is_found: bool) -> Grouping
    ensures { result ≡ bound_grouping is_found }
{
    if is_found {
        Grouping::Walk
    } else {
        Grouping::Bound
    }
}

// By what rows are grouped for a new element.
fn new_grouping(ends: Option<Ends>, terms: TermList) -> Grouping
    ensures { result ≡ new_grouping ends terms }
{
    match ends {
        Some(ends) => Grouping::Link {
            source: ends.source,
            target: ends.target,
            terms,
        },
        None => by_terms(terms),
    }
}

fn by_terms(terms: TermList) -> Grouping
    ensures { result ≡ new_grouping None terms }
{
    if terms.len() == 0 {
        Grouping::EachRow
    } else {
        Grouping::Terms(terms)
    }
}

// The terms by which rows are grouped for a variable, of which the one that it copies is the last.
fn all_terms(alloc: Global, index: &Index<'_>, var: Sym) -> Result<TermList, Memory>
    ensures { IfOk result (λ terms. terms ≡ all_terms (makings_in index.now) var) }
{
    let mut terms = copied(alloc, index.terms.of_variable(var))?;
    if let Some(copied) = index.copies.of_variable(var) {
        terms.push(variable_term(copied))?;
    }
    Ok(terms)
}

fn variable_term(var: Sym) -> Term
    ensures { result ≡ variable_term var }
{
    Term {
        var,
        property: None,
    }
}

// A copy of terms.
fn copied(alloc: Global, terms: &[Term]) -> Result<TermList, Memory>
    ensures { IfOk result (λ made. made ≡ terms.now) }
{
    let mut made = TermList::new(alloc);
    for term in terms {
        made.push(copy_of(term)?)?;
    }
    Ok(made)
}

fn copy_of(term: &Term) -> Result<Term, Memory>
    ensures { IfOk result (λ made. made ≡ term.now) }
{
    let property = property_if(&term.property)?;
    Ok(Term {
        var: term.var,
        property,
    })
}

/// A copy of a property's name, if there is one.
pub(crate) fn property_if(property: &Option<Name>) -> Result<Option<Name>, Memory>
    ensures { IfOk result (λ made. made ≡ property.now) }
{
    match property {
        None => Ok(None),
        Some(name) => Ok(Some(name.copy()?)),
    }
}
