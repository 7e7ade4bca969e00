ghost use Rattle.std.specs.Prelude.{◌≡◌, map, take, drop, IfOk, OnOk};
ghost use Rattle.gc_expr.specs.Trees.{renamed};
ghost use Rattle.gc_expr.specs.Views.{numbered_expr};
ghost use Rattle.gc_alg.specs.Trees.{ConjunctOf, row};
ghost use Rattle.gc_alg.specs.Views.{conjunct_tree, exists_tree};
ghost use Rattle.gc_lower.specs.Conditions.{and_parts, dealt, moved};
ghost use Rattle.gc_lower.specs.Namings.{variable_in};

use crate::counting::{exists_count, sum};
use crate::naming::Naming;
use crate::renumbering::renumbered;
use gc_alg::{Conjunct, ConjunctList, ExistsList};
use gc_base::Memory;
use gc_expr::{Expr, ExprNode};
use std::alloc::Global;
use std::slice::from_ref;

/// The conjuncts of a condition, to which its EXISTS queries are dealt out in order.
#[tactic(auto, unfolding(gc_expr::specs::Trees::renamed, gc_expr::specs::Views::numbered_expr, gc_expr::specs::Views::numbered_node))]
pub(crate) fn conjuncts_of(
    alloc: Global,
    naming: &Naming<'_>,
    condition: &Expr,
    queries: ExistsList,
) -> Result<ConjunctList, Memory>
    ensures { IfOk result (λ list. map conjunct_tree list.items ≡ dealt 0 (and_parts (renamed (variable_in naming.now) (numbered_expr condition.now)))
        (map exists_tree queries.items)) }
{
    match &condition.node {
        ExprNode::And(parts) => each(alloc, naming, parts, queries),
        _ => each(alloc, naming, from_ref(condition), queries),
    }
}

// Conditions as conjuncts, to which EXISTS queries are dealt out in order.
fn each(
    alloc: Global,
    naming: &Naming<'_>,
    parts: &[Expr],
    queries: ExistsList,
) -> Result<ConjunctList, Memory>
    ensures { IfOk result (λ list. map conjunct_tree list.items ≡ dealt 0 (map (λ e. renamed (variable_in naming.now) (numbered_expr e)) parts.now)
        (map exists_tree queries.items)) }
{
    let mut conjuncts = Vec::with_capacity(alloc, parts.len())?;
    let mut before = 0;
    let mut left = queries;
    for part in parts {
        let count = exists_count(part)?;
        let later = rest_of(alloc, &mut left, count)?;
        conjuncts.push(conjunct(naming, part, before, left)?)?;
        left = later;
        before = sum(before, count)?;
    }
    Ok(conjuncts)
}

// A condition with its EXISTS queries, behind so many other EXISTS.
fn conjunct(
    naming: &Naming<'_>,
    part: &Expr,
    before: u32,
    queries: ExistsList,
) -> Result<Conjunct, Memory>
    ensures { IfOk result (λ made. conjunct_tree made ≡ ConjunctOf (moved (variable_in naming.now) before (numbered_expr part.now))
        (row (map exists_tree queries.items))) }
{
    let condition = renumbered(part, naming, before)?;
    Ok(Conjunct::new(condition, queries))
}

// Takes all queries but the first ones off a list.
fn rest_of(alloc: Global, queries: &mut ExistsList, count: u32) -> Result<ExistsList, Memory>
    ensures kept { OnOk result (queries.new.items ≡ take count queries.old.items) }
    ensures rest { IfOk result (λ rest. rest.items ≡ drop count queries.old.items) }
{
    let count = count as usize;
    if count < queries.len() {
        Ok(queries.split_off(count)?)
    } else {
        Ok(Vec::new(alloc))
    }
}
