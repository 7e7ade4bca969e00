ghost use Rattle.std.specs.Prelude.{◌≡◌, ◌++◌, ◌∷◌, [], map, IfOk, OnOk};
ghost use Rattle.std.specs.Option.{option_map};
ghost use Rattle.gc_ast.specs.QueryViews.{formula_tree, item_tree, part_tree};
ghost use Rattle.gc_ast.specs.Trees.{maybe, row};
ghost use Rattle.gc_expr.specs.Views.{numbered_expr};
ghost use Rattle.gc_sorts.specs.Uses.{all_of};
ghost use Rattle.gc_build_reading.specs.Items.{chain_of, condition_of, item_chains, item_graphs, part_projected, part_variables};
ghost use Rattle.gc_build_reading.specs.Namings.{names_of, scope, variable_in};

use crate::copies::expression;
use crate::naming::Naming;
use gc_ast::{ConstructPart, ConstructPartList, Formula, Item, ItemList};
use gc_base::{Memory, NameAt};
use gc_build_recipe::{Chain, ChainList, GraphNumbers};
use gc_expr::Expr;
use gc_rows::SymList;
use std::alloc::Global;

/// The chains among items, in the order of the text.
pub(crate) fn chains_of(
    alloc: Global,
    naming: &Naming<'_>,
    items: &ItemList,
) -> Result<ChainList, Memory>
    ensures { IfOk result (λ chains. chains.items ≡ all_of (item_chains (scope naming.now)) (row (map (item_tree (names_of naming.now)) items.now.items))) }
{
    let mut chains = Vec::new(alloc);
    for item in items {
        add_chain(alloc, &mut chains, naming, item)?;
    }
    Ok(chains)
}

#[tactic(auto, unfolding(gc_ast::specs::QueryViews::item_by, gc_ast::specs::QueryViews::part_by, gc_ast::specs::QueryViews::formula_by))]
fn add_chain(
    alloc: Global,
    chains: &mut ChainList,
    naming: &Naming<'_>,
    item: &Item,
) -> Result<(), Memory>
    ensures { OnOk result (chains.new.items ≡ chains.old.items ++ item_chains (scope naming.now) (item_tree (names_of naming.now) item.now)) }
{
    match item {
        Item::Graph(_) => Ok(()),
        Item::Chain { parts, when, .. } => push_chain(alloc, chains, naming, parts, when),
    }
}

// Adds a chain of these parts with this condition.
fn push_chain(
    alloc: Global,
    chains: &mut ChainList,
    naming: &Naming<'_>,
    parts: &ConstructPartList,
    when: &Option<Formula>,
) -> Result<(), Memory>
    ensures { OnOk result (chains.new.items ≡ chains.old.items ++ chain_of (scope naming.now) (row (map (part_tree (names_of naming.now)) parts.now.items))
        (maybe (option_map (formula_tree (names_of naming.now)) when.now)) ∷ []) }
{
    let chain = chain_of(alloc, naming, parts, when)?;
    chains.push(chain)?;
    Ok(())
}

// The chain of these parts with this condition.
fn chain_of(
    alloc: Global,
    naming: &Naming<'_>,
    parts: &ConstructPartList,
    when: &Option<Formula>,
) -> Result<Chain, Memory>
    ensures { IfOk result (λ chain. chain ≡ chain_of (scope naming.now) (row (map (part_tree (names_of naming.now)) parts.now.items))
        (maybe (option_map (formula_tree (names_of naming.now)) when.now))) }
{
    let places = variables_of(alloc, naming, parts)?;
    let projected = projected_of(alloc, naming, parts)?;
    let condition = condition_of(naming, when)?;
    Ok(Chain {
        places,
        projected,
        condition,
    })
}

// The variables of the nodes, edges and stored paths of a chain.
fn variables_of(
    alloc: Global,
    naming: &Naming<'_>,
    parts: &ConstructPartList,
) -> Result<SymList, Memory>
    ensures { IfOk result (λ vars. vars ≡ all_of (part_variables (scope naming.now)) (row (map (part_tree (names_of naming.now)) parts.now.items))) }
{
    let mut vars = SymList::new(alloc);
    for part in parts {
        add_variable(&mut vars, naming, part)?;
    }
    Ok(vars)
}

#[tactic(auto, unfolding(gc_ast::specs::QueryViews::part_by, gc_ast::specs::QueryViews::new_element_by))]
fn add_variable(vars: &mut SymList, naming: &Naming<'_>, part: &ConstructPart) -> Result<(), Memory>
    ensures { OnOk result (vars.new ≡ vars.old ++ part_variables (scope naming.now) (part_tree (names_of naming.now) part.now)) }
{
    match part {
        ConstructPart::Node(element) => vars.push(naming.element_variable(element)),
        ConstructPart::Edge { element, .. } => vars.push(naming.element_variable(element)),
        ConstructPart::Projected { .. } => Ok(()),
        ConstructPart::Stored { name, .. } => add_named(vars, naming, *name),
    }
}

// Adds the variable of a name.
fn add_named(vars: &mut SymList, naming: &Naming<'_>, name: NameAt) -> Result<(), Memory>
    ensures { OnOk result (vars.new ≡ vars.old ++ variable_in naming.now name.sym ∷ []) }
{
    vars.push(naming.named(name.sym))
}

// The paths of which a chain takes the nodes and edges alone.
fn projected_of(
    alloc: Global,
    naming: &Naming<'_>,
    parts: &ConstructPartList,
) -> Result<SymList, Memory>
    ensures { IfOk result (λ vars. vars ≡ all_of (part_projected (scope naming.now)) (row (map (part_tree (names_of naming.now)) parts.now.items))) }
{
    let mut vars = SymList::new(alloc);
    for part in parts {
        add_projected(&mut vars, naming, part)?;
    }
    Ok(vars)
}

#[tactic(auto, unfolding(gc_ast::specs::QueryViews::part_by))]
fn add_projected(
    vars: &mut SymList,
    naming: &Naming<'_>,
    part: &ConstructPart,
) -> Result<(), Memory>
    ensures { OnOk result (vars.new ≡ vars.old ++ part_projected (scope naming.now) (part_tree (names_of naming.now) part.now)) }
{
    match part {
        ConstructPart::Projected { name, .. } => add_named(vars, naming, *name),
        _ => Ok(()),
    }
}

// The condition after WHEN, if there is one.
fn condition_of(naming: &Naming<'_>, when: &Option<Formula>) -> Result<Option<Expr>, Memory>
    ensures { IfOk result (λ condition. option_map numbered_expr condition
        ≡ condition_of (scope naming.now) (maybe (option_map (formula_tree (names_of naming.now)) when.now))) }
{
    match when {
        None => Ok(None),
        Some(formula) => Ok(Some(expression(naming, formula)?)),
    }
}

/// The graphs among items, in the order of the text.
pub(crate) fn graphs_of(
    alloc: Global,
    naming: &Naming<'_>,
    items: &ItemList,
) -> Result<GraphNumbers, Memory>
    ensures { IfOk result (λ graphs. graphs ≡ all_of (item_graphs (scope naming.now)) (row (map (item_tree (names_of naming.now)) items.now.items))) }
{
    let mut graphs = GraphNumbers::new(alloc);
    for item in items {
        add_graph(&mut graphs, naming, item)?;
    }
    Ok(graphs)
}

#[tactic(auto, unfolding(gc_ast::specs::QueryViews::item_by))]
fn add_graph(graphs: &mut GraphNumbers, naming: &Naming<'_>, item: &Item) -> Result<(), Memory>
    ensures { OnOk result (graphs.new ≡ graphs.old ++ item_graphs (scope naming.now) (item_tree (names_of naming.now) item.now)) }
{
    match item {
        Item::Graph(name) => graphs.push(naming.graph(*name)),
        Item::Chain { .. } => Ok(()),
    }
}
