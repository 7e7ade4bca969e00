ghost use Rattle.std.specs.Prelude.{◌≡◌, ◌++◌, ◌∷◌, [], map, IfOk, OnOk};
ghost use Rattle.gc_expr.specs.Views.{Names};
ghost use Rattle.gc_ast.specs.QueryViews.{basic_tree, block_tree, file_trees, head_tree, next_term_tree, optional_tree, query_tree, statement_tree, term_tree};
ghost use Rattle.gc_ast.specs.Trees.{row};
ghost use Rattle.gc_sorts.specs.Ways.{basic_ways, exists_ways, file_ways, head_ways, later_ways, of_head, optional_ways, part_ways, query_ways, statement_ways, term_ways, with_ways, asked};
ghost use Rattle.gc_sorts.specs.declared.step.Step.TheVariants as to;

use crate::step::Step;
use crate::way_walk::{WayList, WayWalk};
use gc_ast::{
    Basic, File, Head, HeadList, MatchBlock, NextTermList, OptionalList, Query, QueryList,
    Statement, StatementList, Term,
};
use gc_base::Memory;
use std::alloc::Global;

// A number in a way. One that does not fit is want of memory.
fn number(place: usize) -> Result<u32, Memory>
    ensures { IfOk result (λ n. n ≡ place) }
{
    if place > u32::MAX as usize {
        return Err(Memory);
    }
    Ok(place as u32)
}

#[tactic(auto, unfolding(crate::specs::Ways::query_ways))]
#[cycle(blocking)]
fn query(walk: &mut WayWalk, query: &Query) -> Result<(), Memory>
    ensures here { OnOk result (walk.new.here ≡ walk.old.here) }
    ensures ways { OnOk result ((names : Names) → walk.new.ways ≡ with_ways walk.old.ways (query_ways walk.old.here (query_tree names query.now))) }
{
    heads(walk, &query.heads)?;
    term_at(walk, 0, &query.first)?;
    rest(walk, &query.rest)
}

#[tactic(auto, unfolding(crate::specs::Ways::query_ways))]
#[cycle(blocking)]
fn heads(walk: &mut WayWalk, heads: &HeadList) -> Result<(), Memory>
    ensures here { OnOk result (walk.new.here ≡ walk.old.here) }
    ensures ways { OnOk result ((names : Names) → walk.new.ways ≡ with_ways walk.old.ways (head_ways walk.old.here 0 (row (map (head_tree names) heads.now.items)))) }
{
    let depth = walk.depth();
    for (i, one) in heads.iter().enumerate() {
        walk.go(Step::Head(number(i)?))?;
        head(walk, one)?;
        walk.back_to(depth);
    }
    Ok(())
}

#[tactic(auto, unfolding(crate::specs::Ways::query_ways, gc_ast::specs::QueryViews::head_by, gc_ast::specs::QueryViews::query_by, gc_ast::specs::QueryViews::formula_by))]
#[cycle(blocking)]
fn head(walk: &mut WayWalk, head: &Head) -> Result<(), Memory>
    ensures here { OnOk result (walk.new.here ≡ walk.old.here) }
    ensures ways { OnOk result ((names : Names) → walk.new.ways ≡ with_ways walk.old.ways (of_head walk.old.here (head_tree names head.now))) }
{
    match head {
        Head::Graph {
            query: declared,
            ..
        } => query(walk, declared),
        Head::Path { .. } => walk.arrive(),
    }
}

#[tactic(auto, unfolding(crate::specs::Ways::query_ways, gc_ast::specs::QueryViews::next_term_by, gc_ast::specs::QueryViews::term_by))]
#[cycle(blocking)]
fn rest(walk: &mut WayWalk, rest: &NextTermList) -> Result<(), Memory>
    ensures here { OnOk result (walk.new.here ≡ walk.old.here) }
    ensures ways { OnOk result ((names : Names) → walk.new.ways ≡ with_ways walk.old.ways (later_ways walk.old.here 1 (row (map (next_term_tree names) rest.now.items)))) }
{
    for (i, next) in rest.iter().enumerate() {
        term_at(walk, number(i + 1)?, &next.term)?;
    }
    Ok(())
}

// A term of a number.
#[cycle(blocking)]
fn term_at(walk: &mut WayWalk, number: u32, one: &Term) -> Result<(), Memory>
    ensures here { OnOk result (walk.new.here ≡ walk.old.here) }
    ensures ways { OnOk result ((names : Names) → walk.new.ways
        ≡ with_ways walk.old.ways (term_ways (walk.old.here ++ to.Term number ∷ []) (term_tree names one.now))) }
{
    let depth = walk.depth();
    walk.go(Step::Term(number))?;
    term(walk, one)?;
    walk.back_to(depth);
    Ok(())
}

#[tactic(auto, unfolding(crate::specs::Ways::query_ways, gc_ast::specs::QueryViews::term_by, gc_ast::specs::QueryViews::basic_by, gc_ast::specs::QueryViews::query_by))]
#[cycle(blocking)]
fn term(walk: &mut WayWalk, term: &Term) -> Result<(), Memory>
    ensures here { OnOk result (walk.new.here ≡ walk.old.here) }
    ensures ways { OnOk result ((names : Names) → walk.new.ways ≡ with_ways walk.old.ways (term_ways walk.old.here (term_tree names term.now))) }
{
    match term {
        Term::Basic(one) => basic(walk, one),
        Term::Graph(_) => Ok(()),
        Term::Query(inner) => query(walk, inner),
    }
}

#[tactic(auto, unfolding(crate::specs::Ways::query_ways))]
#[cycle(blocking)]
fn basic(walk: &mut WayWalk, basic: &Basic) -> Result<(), Memory>
    ensures here { OnOk result (walk.new.here ≡ walk.old.here) }
    ensures ways { OnOk result ((names : Names) → walk.new.ways ≡ with_ways walk.old.ways (basic_ways walk.old.here (basic_tree names basic.now))) }
{
    walk.arrive()?;
    part(walk, 0, &basic.main)?;
    optionals(walk, &basic.optionals)
}

#[tactic(auto, unfolding(crate::specs::Ways::query_ways, gc_ast::specs::QueryViews::optional_by, gc_ast::specs::QueryViews::block_by))]
#[cycle(blocking)]
fn optionals(walk: &mut WayWalk, optionals: &OptionalList) -> Result<(), Memory>
    ensures here { OnOk result (walk.new.here ≡ walk.old.here) }
    ensures ways { OnOk result ((names : Names) → walk.new.ways
        ≡ with_ways walk.old.ways (optional_ways walk.old.here 1 (row (map (optional_tree names) optionals.now.items)))) }
{
    for (i, one) in optionals.iter().enumerate() {
        part(walk, number(i + 1)?, &one.block)?;
    }
    Ok(())
}

#[tactic(auto, unfolding(crate::specs::Ways::query_ways))]
#[cycle(blocking)]
fn part(walk: &mut WayWalk, part: u32, block: &MatchBlock) -> Result<(), Memory>
    ensures here { OnOk result (walk.new.here ≡ walk.old.here) }
    ensures ways { OnOk result ((names : Names) → walk.new.ways ≡ with_ways walk.old.ways (part_ways walk.old.here part (block_tree names block.now))) }
{
    match &block.filter {
        None => Ok(()),
        Some(formula) => queries(walk, part, &formula.exists),
    }
}

#[tactic(auto, unfolding(crate::specs::Ways::query_ways))]
#[cycle(blocking)]
fn queries(walk: &mut WayWalk, part: u32, queries: &QueryList) -> Result<(), Memory>
    ensures here { OnOk result (walk.new.here ≡ walk.old.here) }
    ensures ways { OnOk result ((names : Names) → walk.new.ways
        ≡ with_ways walk.old.ways (exists_ways walk.old.here part 0 (row (map (query_tree names) queries.now.items)))) }
{
    let depth = walk.depth();
    for (i, one) in queries.iter().enumerate() {
        walk.go(Step::Exists {
            part,
            query: number(i)?,
        })?;
        query(walk, one)?;
        walk.back_to(depth);
    }
    Ok(())
}

fn statement(walk: &mut WayWalk, statement: &Statement) -> Result<(), Memory>
    ensures here { OnOk result (walk.new.here ≡ walk.old.here) }
    ensures ways { OnOk result ((names : Names) → walk.new.ways ≡ with_ways walk.old.ways (query_ways walk.old.here (asked (statement_tree names statement.now)))) }
{
    match statement {
        Statement::View {
            query: declared,
            ..
        } => query(walk, declared),
        Statement::Ask(asked) => query(walk, asked),
    }
}

#[tactic(auto, unfolding(crate::specs::Ways::statement_ways))]
fn statements(walk: &mut WayWalk, all: &StatementList) -> Result<(), Memory>
    requires { walk.old.here ≡ [] }
    ensures { OnOk result ((names : Names) → walk.new.ways ≡ with_ways walk.old.ways (statement_ways 0 (row (map (statement_tree names) all.now.items)))) }
{
    for (i, one) in all.iter().enumerate() {
        walk.go(Step::Statement(number(i)?))?;
        statement(walk, one)?;
        walk.back_to(0);
    }
    Ok(())
}

/// The ways to the blocks of a file.
pub(crate) fn ways_in(alloc: Global, file: &File) -> Result<WayList, Memory>
    ensures { IfOk result (λ ways. map (λ way. way.items) ways ≡ file_ways (row (file_trees file.now))) }
{
    let mut walk = WayWalk::new(alloc);
    statements(&mut walk, &file.statements)?;
    Ok(walk.ways())
}
