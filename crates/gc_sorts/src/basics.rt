ghost use Rattle.std.specs.Prelude.{◌≡◌, [], map, drop, IfOk, OnOk};
ghost use Rattle.gc_expr.specs.Views.{Names};
ghost use Rattle.gc_ast.specs.QueryViews.{block_tree, optional_tree, item_tree};
ghost use Rattle.gc_ast.specs.Trees.{row};
ghost use Rattle.gc_sorts.specs.Breaches.{both, first_among};
ghost use Rattle.gc_sorts.specs.Constructs.{nothing_made};
ghost use Rattle.gc_sorts.specs.Graphs.{known};
ghost use Rattle.gc_sorts.specs.Links.{link_by};
ghost use Rattle.gc_sorts.specs.Sizes.{too_many, first_of, optional_tokens};
ghost use Rattle.gc_sorts.specs.SortRules.{match_uses, match_links, match_breaches, items_breaches, construct_breaches};
ghost use Rattle.gc_sorts.specs.Variables.{cost_names};

use crate::breach::{Breach, SortRule, noted};
use crate::constructs::items;
use crate::graphs::GraphNames;
use crate::index::Index;
use crate::link::LinkAt;
use crate::links::Links;
use crate::loose::loose_items;
use crate::makes::Makes;
use crate::making::Making;
use crate::match_links::add_links;
use crate::matches::{add_costs, add_optionals, places};
use crate::uses::add_block;
use crate::variables::Variables;
use gc_ast::{ItemList, MatchBlock, OptionalList};
use gc_base::Memory;
use std::alloc::Global;

// The token of the OPTIONAL block of a number.
#[tactic(auto, unfolding(gc_ast::specs::QueryViews::optional_by))]
fn optional_at(optionals: &OptionalList, number: usize) -> Option<u32>
    ensures { (names : Names) → result ≡ first_of (optional_tokens (row (map (optional_tree names) (drop number optionals.now.items)))) }
{
    match optionals.get(number) {
        None => None,
        Some(optional) => Some(optional.token),
    }
}

// The first breach of those so far and an OPTIONAL block too many.
fn too_many_optionals(found: Option<Breach>, optionals: &OptionalList) -> Option<Breach>
    ensures { (names : Names) → result ≡ first_among found (too_many (optional_tokens (row (map (optional_tree names) optionals.now.items)))) }
{
    match optional_at(optionals, 100) {
        None => found,
        Some(token) => noted(found, SortRule::TooLarge, token as u64),
    }
}

// The first breach of those so far and of the places of a MATCH, which are left behind those that are
// seen, with its links.
fn add_match(
    found: Option<Breach>,
    variables: &mut Variables,
    costs: &mut Index,
    links: &mut Vec<LinkAt>,
    main: &MatchBlock,
    optionals: &OptionalList,
) -> Result<Option<Breach>, Memory>
    requires costs { costs.old.names ≡ variables.old.names }
    requires known { costs.old.order ≡ cost_names variables.old.uses }
    requires links { links.old.items ≡ [] }
    ensures names { variables.new.names ≡ variables.old.names }
    ensures uses { OnOk result (variables.new.uses ≡ match_uses variables.old.uses (block_tree variables.old.names main.now)
        (row (map (optional_tree variables.old.names) optionals.now.items))) }
    ensures links { OnOk result (map (link_by variables.old.names) links.new.items ≡ match_links variables.old.uses
        (block_tree variables.old.names main.now) (row (map (optional_tree variables.old.names) optionals.now.items))) }
    ensures found { IfOk result (λ first. first ≡ first_among found (match_breaches variables.old.uses (block_tree variables.old.names main.now)
        (row (map (optional_tree variables.old.names) optionals.now.items)))) }
    ensures costs { costs.new.names ≡ costs.old.names }
    ensures order { OnOk result (costs.new.order ≡ cost_names variables.new.uses) }
{
    let seen = variables.len();
    add_links(links, variables, main)?;
    add_block(variables, main)?;
    let found = add_optionals(found, variables, links, optionals)?;
    add_costs(costs, variables, seen)?;
    let found = places(found, variables, costs, seen);
    Ok(too_many_optionals(found, optionals))
}

// The first breach of those so far and of the items of a CONSTRUCT, beside the places and the links of
// its MATCH.
fn construct(
    alloc: Global,
    found: Option<Breach>,
    graphs: &GraphNames,
    variables: &Variables,
    links: &[LinkAt],
    makes: &mut Makes,
    all: &ItemList,
) -> Result<Option<Breach>, Memory>
    requires graphs { graphs.now.names ≡ variables.now.names }
    requires makes { makes.old.names ≡ variables.now.names }
    requires nothing { makes.old.all ≡ nothing_made }
    ensures found { IfOk result (λ first. first ≡ first_among found (items_breaches (known graphs.now) variables.now.uses
        (map (link_by variables.now.names) links.now) (row (map (item_tree variables.now.names) all.now.items)))) }
    ensures names { makes.new.names ≡ makes.old.names }
{
    makes.add_items(all)?;
    let making = Making {
        matched: variables,
        makes,
    };
    let found = items(found, graphs, &making, all);
    let links = Links::of(alloc, variables, links)?;
    Ok(loose_items(found, &links, all))
}

/// The first breach of those so far and of a CONSTRUCT with its MATCH, but for what each block breaks by
/// itself. Leaves what it takes up in the places, the costs and the names of the CONSTRUCT.
pub(crate) fn basic(
    alloc: Global,
    found: Option<Breach>,
    graphs: &GraphNames,
    variables: &mut Variables,
    costs: &mut Index,
    makes: &mut Makes,
    all: &ItemList,
    main: &MatchBlock,
    optionals: &OptionalList,
) -> Result<Option<Breach>, Memory>
    requires graphs { graphs.now.names ≡ variables.old.names }
    requires costs { costs.old.names ≡ variables.old.names }
    requires makes { makes.old.names ≡ variables.old.names }
    requires known { costs.old.order ≡ cost_names variables.old.uses }
    requires nothing { makes.old.all ≡ nothing_made }
    ensures names { variables.new.names ≡ variables.old.names }
    ensures uses { OnOk result (variables.new.uses ≡ match_uses variables.old.uses (block_tree variables.old.names main.now)
        (row (map (optional_tree variables.old.names) optionals.now.items))) }
    ensures found { IfOk result (λ first. first ≡ first_among found (both
        (match_breaches variables.old.uses (block_tree variables.old.names main.now)
        (row (map (optional_tree variables.old.names) optionals.now.items)))
        (construct_breaches (known graphs.now) variables.old.uses (row (map (item_tree variables.old.names) all.now.items))
        (block_tree variables.old.names main.now) (row (map (optional_tree variables.old.names) optionals.now.items))))) }
    ensures costs { costs.new.names ≡ costs.old.names }
    ensures order { OnOk result (costs.new.order ≡ cost_names variables.new.uses) }
    ensures makes { makes.new.names ≡ makes.old.names }
{
    let mut links = Vec::new(alloc);
    let found = add_match(found, variables, costs, &mut links, main, optionals)?;
    construct(alloc, found, graphs, variables, &links, makes, all)
}
