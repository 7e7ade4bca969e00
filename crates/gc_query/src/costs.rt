ghost use Rattle.std.specs.Prelude.{◌≡◌, ◌++◌, map, IfOk, OnOk};
ghost use Rattle.std.specs.Option.{option_copied};
ghost use Rattle.gc_ast.specs.PatternViews.{body_by, located_tree, named_if, pattern_tree};
ghost use Rattle.gc_ast.specs.QueryViews.{basic_tree};
ghost use Rattle.gc_ast.specs.Trees.{row};
ghost use Rattle.gc_expr.specs.Views.{name_of};
ghost use Rattle.gc_lower.specs.Namings.{scope_of};
ghost use Rattle.gc_query.specs.Costs.{body_costs, chain_costs, cost_if, costs_of, first_past, is_past, located_costs, past_from, pattern_costs};

use gc_ast::{Basic, Located, PathBody, Pattern};
use gc_base::{Memory, NameAt, Sym};
use gc_lower::variable;
use gc_rows::{Datum, Table};
use gc_sorts::Checked;
use std::alloc::Global;

/// A variable behind COST, and its token.
#[derive(Clone, Copy, Drop)]
pub(crate) struct CostAt {
    pub var: Sym,
    pub token: u32,
}

/// A cost that is past the range on a row: its token, and the number of the row.
#[derive(Clone, Copy, Drop)]
pub(crate) struct PastAt {
    pub token: u32,
    pub row: u64,
}

/// The variables behind COST of a MATCH with its OPTIONAL blocks, in the order of the text.
pub(crate) fn costs_of(
    alloc: Global,
    checked: &Checked,
    basic: &Basic,
) -> Result<Vec<CostAt>, Memory>
    ensures { IfOk result (λ costs. costs.items ≡ costs_of (scope_of checked.now 0) (basic_tree checked.now.file.names basic.now)) }
{
    let mut costs = Vec::new(alloc);
    push_located(&mut costs, checked, basic.main.patterns.as_slice())?;
    for optional in &basic.optionals {
        push_located(&mut costs, checked, optional.block.patterns.as_slice())?;
    }
    Ok(costs)
}

// Those of the chains of a block.
fn push_located(
    costs: &mut Vec<CostAt>,
    checked: &Checked,
    patterns: &[Located],
) -> Result<(), Memory>
    ensures { OnOk result (costs.new.items ≡ costs.old.items
        ++ located_costs (scope_of checked.now 0) (row (map (located_tree checked.now.file.names) patterns.now))) }
{
    for located in patterns {
        push_chain(costs, checked, located.chain.parts.as_slice())?;
    }
    Ok(())
}

fn push_chain(costs: &mut Vec<CostAt>, checked: &Checked, parts: &[Pattern]) -> Result<(), Memory>
    ensures { OnOk result (costs.new.items ≡ costs.old.items
        ++ chain_costs (scope_of checked.now 0) (row (map (pattern_tree checked.now.file.names) parts.now))) }
{
    for part in parts {
        push_pattern(costs, checked, part)?;
    }
    Ok(())
}

fn push_pattern(costs: &mut Vec<CostAt>, checked: &Checked, pattern: &Pattern) -> Result<(), Memory>
    ensures { OnOk result (costs.new.items ≡ costs.old.items
        ++ pattern_costs (scope_of checked.now 0) (pattern_tree checked.now.file.names pattern.now)) }
{
    match pattern {
        Pattern::Node(_) => Ok(()),
        Pattern::Edge { .. } => Ok(()),
        Pattern::Path { body, .. } => push_body(costs, checked, body),
    }
}

fn push_body(costs: &mut Vec<CostAt>, checked: &Checked, body: &PathBody) -> Result<(), Memory>
    ensures { OnOk result (costs.new.items ≡ costs.old.items
        ++ body_costs (scope_of checked.now 0) (body_by (name_of checked.now.file.names) body.now)) }
{
    match body {
        PathBody::Found { cost, .. } => push_cost(costs, checked, *cost),
        PathBody::Reach { .. } => Ok(()),
        PathBody::All { .. } => Ok(()),
        PathBody::Stored { .. } => Ok(()),
    }
}

#[tactic(auto, unfolding(gc_lower::specs::Namings::scope_in))]
fn push_cost(costs: &mut Vec<CostAt>, checked: &Checked, cost: Option<NameAt>) -> Result<(), Memory>
    ensures { OnOk result (costs.new.items ≡ costs.old.items ++ cost_if (scope_of checked.now 0) (named_if checked.now.file.names cost)) }
{
    let Some(cost) = cost else {
        return Ok(());
    };
    costs.push(CostAt {
        var: variable(&checked.file().names, cost.sym),
        token: cost.token,
    })?;
    Ok(())
}

/// The first of some variables that is past the range on a row of a table, on the first such row.
pub(crate) fn first_past(costs: &[CostAt], table: &Table) -> Option<PastAt>
    ensures { result ≡ first_past costs.now table.now.rows }
{
    for cost in costs {
        if let Some(row) = past_row(cost.var, table) {
            return Some(PastAt {
                token: cost.token,
                row,
            });
        }
    }
    None
}

// The number of the first row on which a variable is past the range.
fn past_row(x: Sym, table: &Table) -> Option<u64>
    ensures { result ≡ past_from 0 x table.now.rows }
{
    for number in 0..table.len() {
        let row = table.row(number);
        if is_past(row.get(x)) {
            return Some(number as u64);
        }
    }
    None
}

fn is_past(datum: Option<&Datum>) -> bool
    ensures { result ≡ is_past (option_copied datum.entry) }
{
    match datum {
        Some(Datum::PastRange) => true,
        _ => false,
    }
}
