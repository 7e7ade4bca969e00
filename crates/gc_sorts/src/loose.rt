ghost use Rattle.std.specs.Prelude.{◌≡◌, ◌+◌, ◌<◌, ◌^◌, map, drop, None};
ghost use Rattle.std.specs.Option.{option_map};
ghost use Rattle.gc_base.specs.declared.place.Direction.TheVariants.{Forward};
ghost use Rattle.gc_expr.specs.Views.{Names, name_of};
ghost use Rattle.gc_ast.specs.QueryViews.{part_tree, item_tree};
ghost use Rattle.gc_ast.specs.Trees.{row};
ghost use Rattle.gc_sorts.specs.Breaches.{first_among};
ghost use Rattle.gc_sorts.specs.Links as linking;
ghost use Rattle.gc_sorts.specs.Links.{link_by};
ghost use Rattle.gc_sorts.specs.Patterns.{each};

use crate::breach::{Breach, SortRule, noted_if};
use crate::link::{LinkAt, sym_if};
use crate::links::Links;
use gc_ast::{ConstructPart, ConstructPartList, Item, ItemList};
use gc_base::{Direction, NameAt, Sym};

fn bound_link(found: Option<Breach>, links: &Links, link: LinkAt, token: u64) -> Option<Breach>
    ensures { result ≡ first_among found (linking.bound_link links.now.links (link_by links.now.names link) token) }
{
    noted_if(found, !links.has(link), SortRule::LooseEdge, token)
}

// A path, whose links go forward.
fn bound_if(found: Option<Breach>, links: &Links, link: LinkAt, token: u64) -> Option<Breach>
    ensures { result ≡ first_among found (linking.bound_if links.now.uses links.now.links
        (link_by links.now.names link) token) }
{
    if links.is_matched(link.name) {
        bound_link(found, links, link, token)
    } else {
        found
    }
}

// The `[` of an edge.
fn bracket(way: Direction, token: u64) -> u64
    requires { token < 2 ^ 32 }
    ensures bracket { result ≡ linking.bracket way token }
    ensures small { result < 2 ^ 33 }
{
    match way {
        Direction::Backward => token + 2,
        _ => token + 1,
    }
}

// An edge between its neighbours.
fn loose_edge(
    found: Option<Breach>,
    links: &Links,
    left: Option<Sym>,
    right: Option<Sym>,
    way: Direction,
    token: u64,
    name: Option<Sym>,
) -> Option<Breach>
    ensures { result ≡ first_among found (linking.loose_edge links.now.uses links.now.links
        (option_map (name_of links.now.names) left) (option_map (name_of links.now.names) right) way token
        (option_map (name_of links.now.names) name)) }
{
    let Some(name) = name else {
        return noted_if(found, way == Direction::Either, SortRule::LooseEdge, token);
    };
    if !links.is_matched(name) {
        return noted_if(found, way == Direction::Either, SortRule::LooseEdge, token);
    }
    let link = LinkAt {
        name,
        left,
        right,
        way,
    };
    bound_link(found, links, link, token)
}

// A path between its neighbours.
fn loose_path(
    found: Option<Breach>,
    links: &Links,
    left: Option<Sym>,
    right: Option<Sym>,
    token: u32,
    path: NameAt,
) -> Option<Breach>
    ensures { result ≡ first_among found (linking.bound_if links.now.uses links.now.links
        (record {
          name = name_of links.now.names path.sym;
          left = option_map (name_of links.now.names) left;
          right = option_map
              (name_of links.now.names) right;
          way = Forward;
        }) (token + 1)) }
{
    let link = LinkAt {
        name: path.sym,
        left,
        right,
        way: Direction::Forward,
    };
    bound_if(found, links, link, token as u64 + 1)
}

// The name of a node of a construct chain.
#[tactic(auto, unfolding(gc_ast::specs::QueryViews::part_by, gc_ast::specs::QueryViews::new_element_by))]
fn part_name(part: &ConstructPart) -> Option<Sym>
    ensures { (names : Names) → option_map (name_of names) result ≡ linking.part_name (part_tree names part.now) }
{
    match part {
        ConstructPart::Node(element) => sym_if(&element.name),
        _ => None,
    }
}

// The name of the node that is the part of a number, if it is one.
fn name_from(parts: &ConstructPartList, number: usize) -> Option<Sym>
    ensures { (names : Names) → option_map (name_of names) result ≡ linking.front_part_name (row (map (part_tree names) (drop number parts.now.items))) }
{
    match parts.get(number) {
        None => None,
        Some(part) => part_name(part),
    }
}

#[tactic(auto, unfolding(gc_ast::specs::QueryViews::part_by, gc_ast::specs::QueryViews::new_element_by))]
fn loose_part(
    found: Option<Breach>,
    links: &Links,
    left: Option<Sym>,
    right: Option<Sym>,
    part: &ConstructPart,
) -> Option<Breach>
    ensures { result ≡ first_among found (linking.loose_part links.now.uses links.now.links
        (option_map (name_of links.now.names) left) (option_map (name_of links.now.names) right) (part_tree links.now.names part.now)) }
{
    match part {
        ConstructPart::Node(_) => found,
        ConstructPart::Edge { way, element } => {
            let token = bracket(*way, element.token as u64);
            let name = sym_if(&element.name);
            loose_edge(found, links, left, right, *way, token, name)
        }
        ConstructPart::Projected { token, name } => {
            loose_path(found, links, left, right, *token, *name)
        }
        ConstructPart::Stored { token, name, .. } => {
            loose_path(found, links, left, right, *token, *name)
        }
    }
}

fn loose_parts(found: Option<Breach>, links: &Links, parts: &ConstructPartList) -> Option<Breach>
    ensures { result ≡ first_among found (linking.loose_parts links.now.uses links.now.links None
        (row (map (part_tree links.now.names) parts.now.items))) }
{
    let mut found = found;
    let mut left = None;
    let mut number = 0;
    for part in parts {
        number += 1;
        let right = name_from(parts, number);
        found = loose_part(found, links, left, right, part);
        left = part_name(part);
    }
    found
}

#[tactic(auto, unfolding(gc_ast::specs::QueryViews::item_by, gc_ast::specs::QueryViews::part_by))]
fn loose_item(found: Option<Breach>, links: &Links, item: &Item) -> Option<Breach>
    ensures { result ≡ first_among found (linking.loose_item links.now.uses links.now.links
        (item_tree links.now.names item.now)) }
{
    match item {
        Item::Graph(_) => found,
        Item::Chain { parts, .. } => loose_parts(found, links, parts),
    }
}

/// The first breach of those so far and of the links of items.
pub(crate) fn loose_items(found: Option<Breach>, links: &Links, items: &ItemList) -> Option<Breach>
    ensures { result ≡ first_among found (each (linking.loose_item links.now.uses links.now.links)
        (row (map (item_tree links.now.names) items.now.items))) }
{
    let mut found = found;
    for item in items {
        found = loose_item(found, links, item);
    }
    found
}
