ghost use Rattle.std.specs.Prelude.{◌≡◌, ◌++◌, ◌∷◌, [], ◌≤◌, length, map, drop, take, IfOk, OnOk, Option};
ghost use Rattle.std.specs.Option.{option_map};
ghost use Rattle.gc_ast.specs.QueryViews.{optional_tree};
ghost use Rattle.gc_ast.specs.Trees.{row};
ghost use Rattle.gc_sorts.specs.Breaches.{first_among};
ghost use Rattle.gc_sorts.specs.Links.{link_by, optional_links};
ghost use Rattle.gc_sorts.specs.Matches.{same_sort, stands_once, later_place, place_breaches, each_use, is_between, shared_place, shared_breaches};
ghost use Rattle.gc_sorts.specs.Uses.{all_of, optional_uses};
ghost use Rattle.gc_sorts.specs.Variables.{use_by, is_property, cost_names, has_cost};

use crate::breach::{Breach, SortRule, noted, noted_if};
use crate::index::Index;
use crate::link::LinkAt;
use crate::match_links::add_links;
use crate::sort::{Role, UseAt};
use crate::uses::add_block;
use crate::variables::Variables;
use gc_ast::{OptionalBlock, OptionalList};
use gc_base::Memory;

/// Notes the names of the places behind COST, from a place on.
pub(crate) fn add_costs(costs: &mut Index, variables: &Variables, from: usize) -> Result<(), Memory>
    requires names { costs.old.names ≡ variables.now.names }
    requires from { from ≤ length variables.now.uses }
    requires before { costs.old.order ≡ cost_names (take from variables.now.uses) }
    ensures names { costs.new.names ≡ costs.old.names }
    ensures order { OnOk result (costs.new.order ≡ cost_names variables.now.uses) }
{
    for place in variables.from(from) {
        if place.role == Role::Cost {
            costs.push(place.name)?;
        }
    }
    Ok(())
}

// Whether a variable, by its first place, may stand at no other.
fn stands_once(variables: &Variables, costs: &Index, first: UseAt) -> bool
    requires names { costs.now.names ≡ variables.now.names }
    requires costs { costs.now.order ≡ cost_names variables.now.uses }
    ensures { result ≡ stands_once variables.now.uses (use_by variables.now.names first) }
{
    first.role.is_single() || (first.role == Role::Property && costs.has(first.name))
}

// The first breach of those so far and of a place beside the first one of its variable.
fn later_place(
    found: Option<Breach>,
    variables: &Variables,
    costs: &Index,
    first: UseAt,
    place: UseAt,
) -> Option<Breach>
    requires names { costs.now.names ≡ variables.now.names }
    requires costs { costs.now.order ≡ cost_names variables.now.uses }
    ensures { result ≡ first_among found (later_place variables.now.uses (use_by variables.now.names first) (use_by variables.now.names place)) }
{
    if first.token == place.token {
        return found;
    }
    if stands_once(variables, costs, first) {
        return noted(found, SortRule::TwiceBound, place.token as u64);
    }
    let differs = first.role.sort() != place.role.sort();
    noted_if(found, differs, SortRule::SortClash, place.token as u64)
}

fn place(
    found: Option<Breach>,
    variables: &Variables,
    costs: &Index,
    place: UseAt,
) -> Option<Breach>
    requires names { costs.now.names ≡ variables.now.names }
    requires costs { costs.now.order ≡ cost_names variables.now.uses }
    ensures { result ≡ first_among found (place_breaches variables.now.uses (use_by variables.now.names place)) }
{
    match variables.first(place.name) {
        None => found,
        Some(first) => later_place(found, variables, costs, first, place),
    }
}

/// The first breach of those so far and of the places from one on, among all in scope.
pub(crate) fn places(
    found: Option<Breach>,
    variables: &Variables,
    costs: &Index,
    from: usize,
) -> Option<Breach>
    requires names { costs.now.names ≡ variables.now.names }
    requires costs { costs.now.order ≡ cost_names variables.now.uses }
    requires from { from ≤ length variables.now.uses }
    ensures { result ≡ first_among found (each_use (place_breaches variables.now.uses) (drop from variables.now.uses)) }
{
    let mut found = found;
    for use_at in variables.from(from) {
        found = place(found, variables, costs, *use_at);
    }
    found
}

// Whether the number of a first place is one of those from one to another.
fn is_between(from: usize, upto: usize, first: Option<usize>) -> bool
    ensures { result ≡ is_between from upto first }
{
    match first {
        None => false,
        Some(number) => from <= number && number < upto,
    }
}

// The first breach of those so far and of the places from one on, which may not have their first
// place between the mandatory ones and these.
fn shared_places(
    found: Option<Breach>,
    variables: &Variables,
    mandatory: usize,
    from: usize,
) -> Option<Breach>
    requires { from ≤ length variables.now.uses }
    ensures { result ≡ first_among found (each_use (shared_place variables.now.uses mandatory from) (drop from variables.now.uses)) }
{
    let mut found = found;
    for place in variables.from(from) {
        let first = variables.first_number(place.name);
        let is_shared = is_between(mandatory, from, first);
        found = noted_if(
            found,
            is_shared,
            SortRule::SharedOptional,
            place.token as u64,
        );
    }
    found
}

// Adds the links and the places of an OPTIONAL block, and gives the first breach of those so far and of
// these.
#[tactic(auto, unfolding(gc_ast::specs::QueryViews::optional_by, gc_ast::specs::QueryViews::block_by))]
fn add_shared(
    found: Option<Breach>,
    variables: &mut Variables,
    links: &mut Vec<LinkAt>,
    mandatory: usize,
    optional: &OptionalBlock,
) -> Result<Option<Breach>, Memory>
    ensures names { variables.new.names ≡ variables.old.names }
    ensures uses { OnOk result (variables.new.uses ≡ variables.old.uses ++ optional_uses (optional_tree variables.old.names optional.now)) }
    ensures links { OnOk result (map (link_by variables.old.names) links.new.items ≡ map
        (link_by variables.old.names) links.old.items ++ optional_links variables.old.uses (row (optional_tree variables.old.names optional.now ∷ []))) }
    ensures found { IfOk result (λ first. first ≡ first_among found (shared_breaches mandatory variables.old.uses
        (row (optional_tree variables.old.names optional.now ∷ [])))) }
{
    let from = variables.len();
    add_links(links, variables, &optional.block)?;
    add_block(variables, &optional.block)?;
    Ok(shared_places(found, variables, mandatory, from))
}

/// Adds the links and the places of OPTIONAL blocks, and gives the first breach of those so far and of
/// these.
pub(crate) fn add_optionals(
    found: Option<Breach>,
    variables: &mut Variables,
    links: &mut Vec<LinkAt>,
    optionals: &OptionalList,
) -> Result<Option<Breach>, Memory>
    ensures names { variables.new.names ≡ variables.old.names }
    ensures uses { OnOk result (variables.new.uses ≡ variables.old.uses ++ all_of optional_uses
        (row (map (optional_tree variables.old.names) optionals.now.items))) }
    ensures links { OnOk result (map (link_by variables.old.names) links.new.items ≡ map
        (link_by variables.old.names) links.old.items ++ optional_links variables.old.uses
        (row (map (optional_tree variables.old.names) optionals.now.items))) }
    ensures found { IfOk result (λ first. first ≡ first_among found (shared_breaches (length variables.old.uses) variables.old.uses
        (row (map (optional_tree variables.old.names) optionals.now.items)))) }
{
    let mandatory = variables.len();
    let mut found = found;
    for optional in optionals {
        found = add_shared(found, variables, links, mandatory, optional)?;
    }
    Ok(found)
}
