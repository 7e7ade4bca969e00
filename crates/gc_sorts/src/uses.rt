ghost use Rattle.std.specs.Prelude.{◌≡◌, ◌++◌, map, OnOk, Some};
ghost use Rattle.gc_expr.specs.Views.{name_of};
ghost use Rattle.gc_ast.specs.PatternViews.{named_if, pattern_tree, located_tree, element_by, body_by, property_use_by};
ghost use Rattle.gc_ast.specs.QueryViews.{block_tree};
ghost use Rattle.gc_ast.specs.Trees.{row, rows};
ghost use Rattle.gc_sorts.specs.Uses.{all_of, use_if, element_uses, body_uses, pattern_uses, property_uses, located_uses, block_uses};

use crate::sort::{Role, UseAt};
use crate::variables::Variables;
use gc_ast::{
    ChainList, Element, LocatedList, MatchBlock, PathBody, Pattern, PatternList, PropertyUseList,
};
use gc_base::{Memory, NameAt};

// Adds a place.
fn add(variables: &mut Variables, role: Role, name: NameAt) -> Result<(), Memory>
    ensures names { variables.new.names ≡ variables.old.names }
    ensures uses { OnOk result (variables.new.uses ≡ variables.old.uses ++ use_if role (named_if variables.old.names (Some name))) }
{
    variables.push(UseAt {
        name: name.sym,
        token: name.token,
        role,
    })
}

/// Adds a place that may be absent.
pub(crate) fn add_if(
    variables: &mut Variables,
    role: Role,
    name: &Option<NameAt>,
) -> Result<(), Memory>
    ensures names { variables.new.names ≡ variables.old.names }
    ensures uses { OnOk result (variables.new.uses ≡ variables.old.uses ++ use_if role (named_if variables.old.names name.now)) }
{
    match name {
        None => Ok(()),
        Some(name) => add(variables, role, *name),
    }
}

// Adds the places of properties.
fn add_properties(variables: &mut Variables, properties: &PropertyUseList) -> Result<(), Memory>
    ensures names { variables.new.names ≡ variables.old.names }
    ensures uses { OnOk result (variables.new.uses ≡ variables.old.uses ++ all_of property_uses
        (row (map (property_use_by (name_of variables.old.names)) properties.now))) }
{
    for property in properties.as_slice() {
        add(variables, Role::Property, property.value)?;
    }
    Ok(())
}

fn add_element(variables: &mut Variables, role: Role, element: &Element) -> Result<(), Memory>
    ensures names { variables.new.names ≡ variables.old.names }
    ensures uses { OnOk result (variables.new.uses ≡ variables.old.uses ++ element_uses role (element_by (name_of variables.old.names) element.now)) }
{
    add_if(variables, role, &element.name)?;
    add_properties(variables, &element.properties)
}

fn add_body(variables: &mut Variables, body: &PathBody) -> Result<(), Memory>
    ensures names { variables.new.names ≡ variables.old.names }
    ensures uses { OnOk result (variables.new.uses ≡ variables.old.uses ++ body_uses (body_by (name_of variables.old.names) body.now)) }
{
    match body {
        PathBody::Reach { .. } => Ok(()),
        PathBody::Found { name, cost, .. } => {
            add(variables, Role::Found, *name)?;
            add_if(variables, Role::Cost, cost)
        }
        PathBody::All { name, .. } => add(variables, Role::All, *name),
        PathBody::Stored { name, .. } => add(variables, Role::Stored, *name),
    }
}

fn add_pattern(variables: &mut Variables, pattern: &Pattern) -> Result<(), Memory>
    ensures names { variables.new.names ≡ variables.old.names }
    ensures uses { OnOk result (variables.new.uses ≡ variables.old.uses ++ pattern_uses (pattern_tree variables.old.names pattern.now)) }
{
    match pattern {
        Pattern::Node(element) => add_element(variables, Role::Node, element),
        Pattern::Edge { element, .. } => add_element(variables, Role::Edge, element),
        Pattern::Path { body, .. } => add_body(variables, body),
    }
}

/// Adds the places of a chain.
fn add_chain(variables: &mut Variables, parts: &PatternList) -> Result<(), Memory>
    ensures names { variables.new.names ≡ variables.old.names }
    ensures uses { OnOk result (variables.new.uses ≡ variables.old.uses ++ all_of pattern_uses (row (map (pattern_tree variables.old.names) parts.now))) }
{
    for part in parts.as_slice() {
        add_pattern(variables, part)?;
    }
    Ok(())
}

/// Adds the places of chains.
pub(crate) fn add_located(variables: &mut Variables, patterns: &LocatedList) -> Result<(), Memory>
    ensures names { variables.new.names ≡ variables.old.names }
    ensures uses { OnOk result (variables.new.uses ≡ variables.old.uses ++ all_of located_uses (row (map (located_tree variables.old.names) patterns.now))) }
{
    for located in patterns.as_slice() {
        add_chain(variables, &located.chain.parts)?;
    }
    Ok(())
}

/// Adds the places of the chains of a view.
pub(crate) fn add_chains(variables: &mut Variables, chains: &ChainList) -> Result<(), Memory>
    ensures names { variables.new.names ≡ variables.old.names }
    ensures uses { OnOk result (variables.new.uses ≡ variables.old.uses ++ all_of (all_of pattern_uses)
        (rows (map (λ c. map (pattern_tree variables.old.names) c.parts) chains.now))) }
{
    for chain in chains.as_slice() {
        add_chain(variables, &chain.parts)?;
    }
    Ok(())
}

/// Adds the places of a block.
#[tactic(auto, unfolding(gc_ast::specs::QueryViews::block_by))]
pub(crate) fn add_block(variables: &mut Variables, block: &MatchBlock) -> Result<(), Memory>
    ensures names { variables.new.names ≡ variables.old.names }
    ensures uses { OnOk result (variables.new.uses ≡ variables.old.uses ++ block_uses (block_tree variables.old.names block.now)) }
{
    add_located(variables, &block.patterns)
}
