ghost use Rattle.std.specs.Prelude.{◌≡◌, map, IfOk};
ghost use Rattle.std.specs.Option.{option_map};
ghost use Rattle.gc_ast.specs.PatternViews.{pattern_tree};
ghost use Rattle.gc_ast.specs.QueryViews.{formula_tree};
ghost use Rattle.gc_ast.specs.Trees.{maybe, row, rows};
ghost use Rattle.gc_expr.specs.Views.{numbered_expr};
ghost use Rattle.gc_views.specs.Namings.{names_of, scope};
ghost use Rattle.gc_views.specs.Views.{cost_tree, expression_of, first_trail, leg_of, legs_of, trail_of};

use crate::naming::Naming;
use crate::renaming::renamed;
use crate::trail::{Leg, Trail};
use gc_ast::{ChainList, Formula, Pattern};
use gc_base::{Memory, Sequence, Sym};
use gc_expr::Expr;
use std::alloc::Global;

/// The trail of the first chain of a view, if there is one.
pub(crate) fn first_trail(
    alloc: Global,
    naming: &Naming<'_>,
    chains: &ChainList,
) -> Result<Option<Trail>, Memory>
    ensures { IfOk result (λ trail. trail ≡ first_trail (scope naming.now) (rows (map (λ c. map (pattern_tree (names_of naming.now)) c.parts) chains.now))) }
{
    match chains.as_slice().first() {
        None => Ok(None),
        Some(chain) => trail_of(alloc, naming, chain.parts.as_slice()),
    }
}

// The trail of a chain, if it is one of nodes and edges.
fn trail_of(alloc: Global, naming: &Naming<'_>, parts: &[Pattern]) -> Result<Option<Trail>, Memory>
    ensures { IfOk result (λ trail. trail ≡ trail_of (scope naming.now) (row (map (pattern_tree (names_of naming.now)) parts.now))) }
{
    let Some((first, rest)) = parts.split_first() else {
        return Ok(None);
    };
    let Some(start) = naming.node_variable(first) else {
        return Ok(None);
    };
    let Some(legs) = legs_of(alloc, naming, rest)? else {
        return Ok(None);
    };
    Ok(Some(Trail {
        start,
        legs: Sequence::from_vec(legs),
    }))
}

// The legs of what is behind the first node of a chain, if these are edges and nodes, over and over.
fn legs_of(
    alloc: Global,
    naming: &Naming<'_>,
    parts: &[Pattern],
) -> Result<Option<Vec<Leg>>, Memory>
    ensures { IfOk result (λ legs. option_map (λ made. made.items) legs
        ≡ legs_of (scope naming.now) (row (map (pattern_tree (names_of naming.now)) parts.now))) }
{
    let mut legs = Vec::new(alloc);
    for i in 0..parts.len() / 2 {
        let edge = naming.edge_variable(&parts[2 * i]);
        let node = naming.node_variable(&parts[2 * i + 1]);
        let Some(leg) = leg_of(edge, node) else {
            return Ok(None);
        };
        legs.push(leg)?;
    }
    if parts.len() % 2 == 1 {
        return Ok(None);
    }
    Ok(Some(legs))
}

// An edge and the node behind it.
fn leg_of(edge: Option<Sym>, node: Option<Sym>) -> Option<Leg>
    ensures { result ≡ leg_of edge node }
{
    match (edge, node) {
        (Some(edge), Some(node)) => Some(Leg { edge, node }),
        _ => None,
    }
}

/// The COST of a view over variables, if it has one.
pub(crate) fn cost_of(naming: &Naming<'_>, cost: &Option<Formula>) -> Result<Option<Expr>, Memory>
    ensures { IfOk result (λ made. option_map numbered_expr made
        ≡ cost_tree (scope naming.now) (maybe (option_map (formula_tree (names_of naming.now)) cost.now))) }
{
    match cost {
        None => Ok(None),
        Some(formula) => Ok(Some(expression(naming, formula)?)),
    }
}

// An expression over variables.
fn expression(naming: &Naming<'_>, formula: &Formula) -> Result<Expr, Memory>
    ensures { IfOk result (λ e. numbered_expr e ≡ expression_of (scope naming.now) (formula_tree (names_of naming.now) formula.now)) }
{
    renamed(&formula.expr, naming)
}
