ghost use Rattle.std.specs.Prelude.{◌≡◌, map, OnOk};
ghost use Rattle.gc_expr.specs.Views.{Names, name_of};
ghost use Rattle.gc_ast.specs.PatternViews.{pattern_tree, located_tree, body_by, all_named_by, element_by};
ghost use Rattle.gc_ast.specs.QueryViews.{item_tree, part_tree};
ghost use Rattle.gc_ast.specs.Trees.{row, rows};
ghost use Rattle.gc_sorts.specs.Collected.{collect};
ghost use Rattle.gc_sorts.specs.Occurrences.{each, view_names, in_body, in_pattern, in_located, in_part, in_item};

use crate::found::Found;
use crate::sight::Sight;
use gc_ast::{
    Chain, ChainList, ConstructPart, ConstructPartList, Item, ItemList, Located, LocatedList,
    NameAtList, PathBody, Pattern,
};
use gc_base::Memory;

// Adds the names of views behind `~`.
fn views(found: &mut Found, sight: &Sight, named: &NameAtList) -> Result<(), Memory>
    ensures { OnOk result (found.new ≡ collect found.old (view_names sight.now.at (all_named_by (name_of sight.now.names) named.now))) }
{
    for view in named.as_slice() {
        found.view(sight, *view)?;
    }
    Ok(())
}

fn body(found: &mut Found, sight: &Sight, body: &PathBody) -> Result<(), Memory>
    ensures { OnOk result (found.new ≡ collect found.old (in_body sight.now.at (body_by (name_of sight.now.names) body.now))) }
{
    match body {
        PathBody::Reach { views: named, .. }
        | PathBody::Found { views: named, .. }
        | PathBody::All { views: named, .. } => views(found, sight, named),
        PathBody::Stored { .. } => Ok(()),
    }
}

fn pattern(found: &mut Found, sight: &Sight, pattern: &Pattern) -> Result<(), Memory>
    ensures { OnOk result (found.new ≡ collect found.old (in_pattern sight.now.at (pattern_tree sight.now.names pattern.now))) }
{
    match pattern {
        Pattern::Node(element) | Pattern::Edge { element, .. } => {
            found.element(element.token, &element.name)
        }
        Pattern::Path { body: asked, .. } => body(found, sight, asked),
    }
}

fn chain(found: &mut Found, sight: &Sight, chain: &Chain) -> Result<(), Memory>
    ensures { OnOk result (found.new ≡ collect found.old (each (in_pattern sight.now.at) (row (map (pattern_tree sight.now.names) chain.now.parts)))) }
{
    for part in chain.parts.as_slice() {
        pattern(found, sight, part)?;
    }
    Ok(())
}

/// Adds what stands in the chains of a view.
pub(crate) fn chains(found: &mut Found, sight: &Sight, all: &ChainList) -> Result<(), Memory>
    ensures { OnOk result (found.new ≡ collect found.old (each (each (in_pattern sight.now.at))
        (rows (map (λ c. map (pattern_tree sight.now.names) c.parts) all.now)))) }
{
    for one in all.as_slice() {
        chain(found, sight, one)?;
    }
    Ok(())
}

fn located(found: &mut Found, sight: &Sight, located: &Located) -> Result<(), Memory>
    ensures { OnOk result (found.new ≡ collect found.old (in_located sight.now.at (located_tree sight.now.names located.now))) }
{
    chain(found, sight, &located.chain)?;
    found.graph_if(sight, &located.on)
}

/// Adds what stands in the patterns of a block.
pub(crate) fn patterns(found: &mut Found, sight: &Sight, all: &LocatedList) -> Result<(), Memory>
    ensures { OnOk result (found.new ≡ collect found.old (each (in_located sight.now.at) (row (map (located_tree sight.now.names) all.now)))) }
{
    for one in all.as_slice() {
        located(found, sight, one)?;
    }
    Ok(())
}

#[tactic(auto, unfolding(gc_ast::specs::QueryViews::part_by, gc_ast::specs::QueryViews::new_element_by))]
fn part(found: &mut Found, part: &ConstructPart) -> Result<(), Memory>
    ensures { (names : Names) → OnOk result (found.new ≡ collect found.old (in_part (part_tree names part.now))) }
{
    match part {
        ConstructPart::Node(element) => found.element(element.token, &element.name),
        ConstructPart::Edge { element, .. } => found.element(element.token, &element.name),
        _ => Ok(()),
    }
}

fn parts(found: &mut Found, all: &ConstructPartList) -> Result<(), Memory>
    ensures { (names : Names) → OnOk result (found.new ≡ collect found.old (each in_part (row (map (part_tree names) all.now.items)))) }
{
    for one in all {
        part(found, one)?;
    }
    Ok(())
}

#[tactic(auto, unfolding(gc_ast::specs::QueryViews::item_by, gc_ast::specs::QueryViews::part_by))]
fn item(found: &mut Found, sight: &Sight, item: &Item) -> Result<(), Memory>
    ensures { OnOk result (found.new ≡ collect found.old (in_item sight.now.at (item_tree sight.now.names item.now))) }
{
    match item {
        Item::Graph(name) => found.graph(sight, *name),
        Item::Chain { parts: chain, .. } => parts(found, chain),
    }
}

/// Adds what stands in the items of a CONSTRUCT.
pub(crate) fn items(found: &mut Found, sight: &Sight, all: &ItemList) -> Result<(), Memory>
    ensures { OnOk result (found.new ≡ collect found.old (each (in_item sight.now.at) (row (map (item_tree sight.now.names) all.now.items)))) }
{
    for one in all {
        item(found, sight, one)?;
    }
    Ok(())
}
