ghost use Rattle.std.specs.Prelude.{◌≡◌, ◌++◌, map, drop, None, OnOk};
ghost use Rattle.std.specs.Option.{option_map};
ghost use Rattle.gc_base.specs.declared.place.Direction.TheVariants.{Forward};
ghost use Rattle.gc_expr.specs.Views.{Names, name_of};
ghost use Rattle.gc_ast.specs.PatternViews.{element_by, body_by, pattern_tree, located_tree};
ghost use Rattle.gc_ast.specs.QueryViews.{block_tree};
ghost use Rattle.gc_ast.specs.Trees.{row};
ghost use Rattle.gc_sorts.specs.Links as linking;
ghost use Rattle.gc_sorts.specs.Links.{link_by};
ghost use Rattle.gc_sorts.specs.Uses.{all_of};

use crate::link::{LinkAt, sym_if};
use crate::variables::Variables;
use gc_ast::{LocatedList, MatchBlock, PathBody, Pattern, PatternList};
use gc_base::{Direction, Memory, Sym};

// The name of a path.
fn path_name(body: &PathBody) -> Option<Sym>
    ensures { (names : Names) → option_map (name_of names) result ≡ linking.path_name (body_by (name_of names) body.now) }
{
    match body {
        PathBody::Reach { .. } => None,
        PathBody::Found { name, .. } | PathBody::All { name, .. } | PathBody::Stored { name, .. } =>
            Some(name.sym),
    }
}

// The name of a node.
fn node_name(pattern: &Pattern) -> Option<Sym>
    ensures { (names : Names) → option_map (name_of names) result ≡ linking.node_name (pattern_tree names pattern.now) }
{
    match pattern {
        Pattern::Node(element) => sym_if(&element.name),
        _ => None,
    }
}

// The name of the node that is the part of a number, if it is one.
fn name_from(parts: &PatternList, number: usize) -> Option<Sym>
    ensures { (names : Names) → option_map (name_of names) result ≡ linking.front_name (row (map (pattern_tree names) (drop number parts.now))) }
{
    match parts.as_slice().get(number) {
        None => None,
        Some(part) => node_name(part),
    }
}

// Adds a link of a variable that has no place before its block.
fn add_link(
    links: &mut Vec<LinkAt>,
    before: &Variables,
    left: Option<Sym>,
    right: Option<Sym>,
    name: Option<Sym>,
    way: Direction,
) -> Result<(), Memory>
    ensures { OnOk result (map (link_by before.now.names) links.new.items ≡ map
        (link_by before.now.names) links.old.items ++ linking.link_if before.now.uses (option_map (name_of before.now.names) name)
        (option_map (name_of before.now.names) left) (option_map (name_of before.now.names) right) way) }
{
    let Some(name) = name else {
        return Ok(());
    };
    if before.has(name) {
        return Ok(());
    }
    links.push(LinkAt {
        name,
        left,
        right,
        way,
    })?;
    Ok(())
}

// Adds the link that a part of a chain is, if it is one.
fn add_pattern(
    links: &mut Vec<LinkAt>,
    before: &Variables,
    left: Option<Sym>,
    right: Option<Sym>,
    part: &Pattern,
) -> Result<(), Memory>
    ensures { OnOk result (map (link_by before.now.names) links.new.items ≡ map
        (link_by before.now.names) links.old.items ++ linking.pattern_links before.now.uses (option_map (name_of before.now.names) left)
        (option_map (name_of before.now.names) right) (pattern_tree before.now.names part.now)) }
{
    match part {
        Pattern::Node(_) => Ok(()),
        Pattern::Edge { way, element } => {
            add_link(links, before, left, right, sym_if(&element.name), *way)
        }
        Pattern::Path { body, .. } => {
            add_link(
                links,
                before,
                left,
                right,
                path_name(body),
                Direction::Forward,
            )
        }
    }
}

// Adds the links of a chain.
fn add_chain(links: &mut Vec<LinkAt>, before: &Variables, parts: &PatternList) -> Result<(), Memory>
    ensures { OnOk result (map (link_by before.now.names) links.new.items ≡ map
        (link_by before.now.names) links.old.items ++ linking.chain_links before.now.uses None (row (map (pattern_tree before.now.names) parts.now))) }
{
    let mut left = None;
    let mut number = 0;
    for part in parts.as_slice() {
        number += 1;
        let right = name_from(parts, number);
        add_pattern(links, before, left, right, part)?;
        left = node_name(part);
    }
    Ok(())
}

fn add_located(
    links: &mut Vec<LinkAt>,
    before: &Variables,
    patterns: &LocatedList,
) -> Result<(), Memory>
    ensures { OnOk result (map (link_by before.now.names) links.new.items ≡ map (link_by before.now.names) links.old.items ++ all_of
        (linking.located_links before.now.uses) (row (map (located_tree before.now.names) patterns.now))) }
{
    for located in patterns.as_slice() {
        add_chain(links, before, &located.chain.parts)?;
    }
    Ok(())
}

/// Adds the links of a block whose variables have no place before it.
#[tactic(auto, unfolding(gc_ast::specs::QueryViews::block_by))]
pub(crate) fn add_links(
    links: &mut Vec<LinkAt>,
    before: &Variables,
    block: &MatchBlock,
) -> Result<(), Memory>
    ensures { OnOk result (map (link_by before.now.names) links.new.items ≡ map
        (link_by before.now.names) links.old.items ++ linking.block_links before.now.uses (block_tree before.now.names block.now)) }
{
    add_located(links, before, &block.patterns)
}
