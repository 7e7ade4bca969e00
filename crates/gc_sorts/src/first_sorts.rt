ghost use Rattle.std.specs.Prelude.{◌≡◌, ◌++◌, map, Some};
ghost use Rattle.std.specs.Option.{option_map};
ghost use Rattle.gc_expr.specs.Views.{name_of};
ghost use Rattle.gc_ast.specs.Names.{same_name};
ghost use Rattle.gc_ast.specs.PatternViews.{named_if, pattern_tree, located_tree, element_by, body_by, property_use_by};
ghost use Rattle.gc_ast.specs.QueryViews.{block_tree, optional_tree};
ghost use Rattle.gc_ast.specs.Trees.{row, rows};
ghost use Rattle.gc_sorts.specs.Uses.{all_of, use_if, element_uses, body_uses, pattern_uses, property_uses, located_uses, block_uses, optional_uses};
ghost use Rattle.gc_sorts.specs.Variables.{first_sort};
ghost use Rattle.gc_sorts.specs.declared.sort.Role.TheVariants.{Found, Cost};

use crate::sight::bytes_of;
use crate::sort::{Role, Sort};
use gc_ast::{
    ChainList, Element, LocatedList, MatchBlock, NameTable, OptionalList, PathBody, Pattern,
    PatternList, PropertyUseList,
};
use gc_base::{NameAt, Sym};

/// A variable that is looked for, with the table of the names.
#[derive(Clone, Copy)]
pub(crate) struct Sought<'a> {
    pub names: &'a NameTable,
    pub name: Sym,
}

// Whether a number stands for the name that is looked for.
fn is_sought(sought: Sought, name: Sym) -> bool
    ensures { result ≡ same_name (name_of sought.entry.names.now sought.entry.name) (name_of sought.entry.names.now name) }
{
    bytes_of(sought.names, sought.name) == bytes_of(sought.names, name)
}

// The sort of a place of this role, if the variable stands there.
fn at(sought: Sought, role: Role, name: NameAt) -> Option<Sort>
    ensures { result ≡ first_sort (use_if role (named_if sought.entry.names.now (Some name))) (name_of sought.entry.names.now sought.entry.name) }
{
    if is_sought(sought, name.sym) {
        Some(role.sort())
    } else {
        None
    }
}

fn at_if(sought: Sought, role: Role, name: &Option<NameAt>) -> Option<Sort>
    ensures { result ≡ first_sort (use_if role (named_if sought.entry.names.now name.now)) (name_of sought.entry.names.now sought.entry.name) }
{
    match name {
        None => None,
        Some(name) => at(sought, role, *name),
    }
}

#[tactic(auto, using(crate::proofs::FirstSorts::both_sorts))]
fn in_properties(sought: Sought, properties: &PropertyUseList) -> Option<Sort>
    ensures { result ≡ first_sort (all_of property_uses (row (map (property_use_by (name_of sought.entry.names.now)) properties.now)))
        (name_of sought.entry.names.now sought.entry.name) }
{
    for property in properties.as_slice() {
        if is_sought(sought, property.value.sym) {
            return Some(Sort::Value);
        }
    }
    None
}

#[tactic(auto, using(crate::proofs::FirstSorts::both_sorts))]
fn in_element(sought: Sought, role: Role, element: &Element) -> Option<Sort>
    ensures { result ≡ first_sort (element_uses role (element_by (name_of sought.entry.names.now) element.now)) (name_of sought.entry.names.now sought.entry.name) }
{
    match at_if(sought, role, &element.name) {
        Some(sort) => Some(sort),
        None => in_properties(sought, &element.properties),
    }
}

#[tactic(auto, using(crate::proofs::FirstSorts::both_sorts))]
fn in_found(sought: Sought, name: NameAt, cost: &Option<NameAt>) -> Option<Sort>
    ensures { result ≡ first_sort (use_if Found (named_if sought.entry.names.now (Some name)) ++ use_if Cost (named_if sought.entry.names.now cost.now))
        (name_of sought.entry.names.now sought.entry.name) }
{
    match at(sought, Role::Found, name) {
        Some(sort) => Some(sort),
        None => at_if(sought, Role::Cost, cost),
    }
}

fn in_body(sought: Sought, body: &PathBody) -> Option<Sort>
    ensures { result ≡ first_sort (body_uses (body_by (name_of sought.entry.names.now) body.now)) (name_of sought.entry.names.now sought.entry.name) }
{
    match body {
        PathBody::Reach { .. } => None,
        PathBody::Found { name, cost, .. } => in_found(sought, *name, cost),
        PathBody::All { name, .. } => at(sought, Role::All, *name),
        PathBody::Stored { name, .. } => at(sought, Role::Stored, *name),
    }
}

fn in_pattern(sought: Sought, pattern: &Pattern) -> Option<Sort>
    ensures { result ≡ first_sort (pattern_uses (pattern_tree sought.entry.names.now pattern.now)) (name_of sought.entry.names.now sought.entry.name) }
{
    match pattern {
        Pattern::Node(element) => in_element(sought, Role::Node, element),
        Pattern::Edge { element, .. } => in_element(sought, Role::Edge, element),
        Pattern::Path { body, .. } => in_body(sought, body),
    }
}

#[tactic(auto, using(crate::proofs::FirstSorts::both_sorts))]
fn in_chain(sought: Sought, parts: &PatternList) -> Option<Sort>
    ensures { result ≡ first_sort (all_of pattern_uses (row (map (pattern_tree sought.entry.names.now) parts.now))) (name_of sought.entry.names.now sought.entry.name) }
{
    for part in parts.as_slice() {
        if let Some(sort) = in_pattern(sought, part) {
            return Some(sort);
        }
    }
    None
}

#[tactic(auto, using(crate::proofs::FirstSorts::both_sorts))]
fn in_located(sought: Sought, patterns: &LocatedList) -> Option<Sort>
    ensures { result ≡ first_sort (all_of located_uses (row (map (located_tree sought.entry.names.now) patterns.now)))
        (name_of sought.entry.names.now sought.entry.name) }
{
    for located in patterns.as_slice() {
        if let Some(sort) = in_chain(sought, &located.chain.parts) {
            return Some(sort);
        }
    }
    None
}

#[tactic(auto, using(crate::proofs::FirstSorts::both_sorts))]
/// The sort of the first place of a variable in the chains of a view, if it has one there.
pub(crate) fn in_chains(sought: Sought, chains: &ChainList) -> Option<Sort>
    ensures { result ≡ first_sort (all_of (all_of pattern_uses) (rows (map (λ c. map (pattern_tree sought.entry.names.now) c.parts) chains.now)))
        (name_of sought.entry.names.now sought.entry.name) }
{
    for chain in chains.as_slice() {
        if let Some(sort) = in_chain(sought, &chain.parts) {
            return Some(sort);
        }
    }
    None
}

/// The sort of the first place of a variable in a part of a MATCH, if it has one there.
#[tactic(auto, unfolding(gc_ast::specs::QueryViews::block_by))]
pub(crate) fn in_part(sought: Sought, part: &MatchBlock) -> Option<Sort>
    ensures { result ≡ first_sort (block_uses (block_tree sought.entry.names.now part.now)) (name_of sought.entry.names.now sought.entry.name) }
{
    in_located(sought, &part.patterns)
}

/// The same in OPTIONAL blocks.
#[tactic(auto, using(crate::proofs::FirstSorts::both_sorts), unfolding(gc_ast::specs::QueryViews::optional_by, gc_ast::specs::QueryViews::block_by))]
pub(crate) fn in_optionals(sought: Sought, optionals: &OptionalList) -> Option<Sort>
    ensures { result ≡ first_sort (all_of optional_uses (row (map (optional_tree sought.entry.names.now) optionals.now.items)))
        (name_of sought.entry.names.now sought.entry.name) }
{
    for optional in optionals {
        if let Some(sort) = in_part(sought, &optional.block) {
            return Some(sort);
        }
    }
    None
}
