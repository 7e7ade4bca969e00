ghost use Rattle.std.specs.Prelude.{◌≡◌, ◌++◌, map, IfOk, OnOk};
ghost use Rattle.gc_ast.specs.QueryViews.{file_trees, head_tree, next_term_tree, query_tree, statement_tree, term_tree};
ghost use Rattle.gc_ast.specs.Trees.{row};
ghost use Rattle.gc_expr.specs.Views.{Names};
ghost use Rattle.gc_lower.specs.PathHeads.{path_heads};

use gc_ast::{File, Head, NextTerm, Query, Statement, Term};
use gc_base::Memory;
use std::alloc::Global;

/// The PATH heads of a query file in the order of the text, by which views are numbered.
#[tactic(auto, unfolding(gc_lower::specs::PathHeads::path_heads))]
pub(crate) fn path_heads<'a>(alloc: Global, file: &'a File) -> Result<Vec<&'a Head>, Memory>
    ensures { IfOk result (λ heads. map (λ h. head_tree file.now.names h.now) heads.items ≡ path_heads (row (file_trees file.now))) }
{
    let mut heads = Vec::new(alloc);
    for statement in &file.statements {
        push_statement(&mut heads, statement)?;
    }
    Ok(heads)
}

#[tactic(auto, unfolding(gc_lower::specs::PathHeads::path_heads))]
fn push_statement<'a>(heads: &mut Vec<&'a Head>, statement: &'a Statement) -> Result<(), Memory>
    ensures { OnOk result ((names : Names) → map (λ h. head_tree names h.now) heads.new.items
        ≡ map (λ h. head_tree names h.now) heads.old.items ++ path_heads (statement_tree names statement.now)) }
{
    match statement {
        Statement::Ask(query) => push_query(heads, query),
        Statement::View { name: _, query } => push_query(heads, query),
    }
}

#[tactic(auto, unfolding(gc_lower::specs::PathHeads::path_heads))]
#[cycle(heads)]
fn push_query<'a>(heads: &mut Vec<&'a Head>, query: &'a Query) -> Result<(), Memory>
    ensures { OnOk result ((names : Names) → map (λ h. head_tree names h.now) heads.new.items
        ≡ map (λ h. head_tree names h.now) heads.old.items ++ path_heads (query_tree names query.now)) }
{
    push_heads(heads, &query.heads)?;
    push_term(heads, &query.first)?;
    push_rest(heads, &query.rest)
}

#[tactic(auto, unfolding(gc_lower::specs::PathHeads::path_heads))]
#[cycle(heads)]
fn push_heads<'a>(heads: &mut Vec<&'a Head>, more: &'a [Head]) -> Result<(), Memory>
    ensures { OnOk result ((names : Names) → map (λ h. head_tree names h.now) heads.new.items
        ≡ map (λ h. head_tree names h.now) heads.old.items ++ path_heads (row (map (head_tree names) more.now))) }
{
    for head in more {
        push_head(heads, head)?;
    }
    Ok(())
}

#[tactic(auto, unfolding(gc_lower::specs::PathHeads::path_heads))]
#[cycle(heads)]
fn push_head<'a>(heads: &mut Vec<&'a Head>, head: &'a Head) -> Result<(), Memory>
    ensures { OnOk result ((names : Names) → map (λ h. head_tree names h.now) heads.new.items
        ≡ map (λ h. head_tree names h.now) heads.old.items ++ path_heads (head_tree names head.now)) }
{
    match head {
        Head::Path { .. } => {
            heads.push(head)?;
            Ok(())
        }
        Head::Graph { name: _, query } => push_query(heads, query),
    }
}

#[tactic(auto, unfolding(gc_lower::specs::PathHeads::path_heads))]
#[cycle(heads)]
fn push_term<'a>(heads: &mut Vec<&'a Head>, term: &'a Term) -> Result<(), Memory>
    ensures { OnOk result ((names : Names) → map (λ h. head_tree names h.now) heads.new.items
        ≡ map (λ h. head_tree names h.now) heads.old.items ++ path_heads (term_tree names term.now)) }
{
    match term {
        Term::Basic(_) => Ok(()),
        Term::Graph(_) => Ok(()),
        Term::Query(query) => push_query(heads, query),
    }
}

#[tactic(auto, unfolding(gc_lower::specs::PathHeads::path_heads))]
#[cycle(heads)]
fn push_rest<'a>(heads: &mut Vec<&'a Head>, rest: &'a [NextTerm]) -> Result<(), Memory>
    ensures { OnOk result ((names : Names) → map (λ h. head_tree names h.now) heads.new.items
        ≡ map (λ h. head_tree names h.now) heads.old.items ++ path_heads (row (map (next_term_tree names) rest.now))) }
{
    for next in rest {
        push_term(heads, &next.term)?;
    }
    Ok(())
}
