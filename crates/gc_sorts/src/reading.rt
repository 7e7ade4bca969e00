ghost use Rattle.std.specs.Prelude.{◌≡◌, length, map, IfOk, OnOk};
ghost use Rattle.std.specs.Option.{option_map};
ghost use Rattle.gc_ast.specs.QueryViews.{query_tree, head_tree, term_tree, next_term_tree, basic_tree, block_tree, optional_tree, formula_tree, statement_tree, file_trees};
ghost use Rattle.gc_ast.specs.Trees.{row, maybe};
ghost use Rattle.gc_sorts.specs.Collected.{collect, nothing, read_in, scope_behind};
ghost use Rattle.gc_sorts.specs.Occurrences.{file_occurrences};

use crate::found::Found;
use crate::occurring::{chains, items, patterns};
use crate::sight::Sight;
use gc_ast::{
    Basic, File, Formula, Head, HeadList, MatchBlock, NextTerm, NextTermList, OptionalBlock,
    OptionalList, Query, QueryList, Statement, StatementList, Term,
};
use gc_base::{Memory, NameList};
use std::alloc::Global;

#[tactic(auto, unfolding(crate::specs::Scopes::behind, crate::specs::Occurrences::occurrences))]
#[cycle(reading)]
fn query(found: &mut Found, sight: &mut Sight, query: &Query) -> Result<(), Memory>
    ensures sight { OnOk result (sight.new ≡ scope_behind sight.old (λ n. query_tree n query.now)) }
    ensures found { OnOk result (found.new ≡ read_in found.old sight.old (λ n. query_tree n query.now)) }
{
    let counts = sight.counts();
    heads(found, sight, &query.heads)?;
    term(found, sight, &query.first)?;
    rest(found, sight, &query.rest)?;
    sight.restore(counts);
    Ok(())
}

#[tactic(auto, unfolding(crate::specs::Scopes::behind, crate::specs::Occurrences::occurrences))]
#[cycle(reading)]
fn heads(found: &mut Found, sight: &mut Sight, heads: &HeadList) -> Result<(), Memory>
    ensures sight { OnOk result (sight.new ≡ scope_behind sight.old (λ n. row (map (head_tree n) heads.now.items))) }
    ensures found { OnOk result (found.new ≡ read_in found.old sight.old (λ n. row (map (head_tree n) heads.now.items))) }
{
    for one in heads {
        head(found, sight, one)?;
    }
    Ok(())
}

#[tactic(auto, unfolding(gc_ast::specs::QueryViews::head_by, gc_ast::specs::QueryViews::query_by, gc_ast::specs::QueryViews::formula_by, crate::specs::Scopes::behind, crate::specs::Occurrences::occurrences))]
#[cycle(reading)]
fn head(found: &mut Found, sight: &mut Sight, head: &Head) -> Result<(), Memory>
    ensures sight { OnOk result (sight.new ≡ scope_behind sight.old (λ n. head_tree n head.now)) }
    ensures found { OnOk result (found.new ≡ read_in found.old sight.old (λ n. head_tree n head.now)) }
{
    match head {
        Head::Graph {
            name,
            query: declared,
        } => {
            query(found, sight, declared)?;
            sight.declare_graph(*name)
        }
        Head::Path {
            name,
            chains: all,
            ..
        } => {
            chains(found, sight, all)?;
            sight.declare_view(*name)
        }
    }
}

#[tactic(auto, unfolding(crate::specs::Scopes::behind, crate::specs::Occurrences::occurrences))]
#[cycle(reading)]
fn rest(found: &mut Found, sight: &mut Sight, rest: &NextTermList) -> Result<(), Memory>
    ensures sight { OnOk result (sight.new ≡ scope_behind sight.old (λ n. row (map (next_term_tree n) rest.now.items))) }
    ensures found { OnOk result (found.new ≡ read_in found.old sight.old (λ n. row (map (next_term_tree n) rest.now.items))) }
{
    for next in rest {
        next_term(found, sight, next)?;
    }
    Ok(())
}

#[tactic(auto, unfolding(gc_ast::specs::QueryViews::next_term_by, gc_ast::specs::QueryViews::term_by, crate::specs::Scopes::behind, crate::specs::Occurrences::occurrences))]
#[cycle(reading)]
fn next_term(found: &mut Found, sight: &mut Sight, next: &NextTerm) -> Result<(), Memory>
    ensures sight { OnOk result (sight.new ≡ scope_behind sight.old (λ n. next_term_tree n next.now)) }
    ensures found { OnOk result (found.new ≡ read_in found.old sight.old (λ n. next_term_tree n next.now)) }
{
    term(found, sight, &next.term)
}

#[tactic(auto, unfolding(gc_ast::specs::QueryViews::term_by, gc_ast::specs::QueryViews::basic_by, gc_ast::specs::QueryViews::query_by, crate::specs::Scopes::behind, crate::specs::Occurrences::occurrences))]
#[cycle(reading)]
fn term(found: &mut Found, sight: &mut Sight, term: &Term) -> Result<(), Memory>
    ensures sight { OnOk result (sight.new ≡ scope_behind sight.old (λ n. term_tree n term.now)) }
    ensures found { OnOk result (found.new ≡ read_in found.old sight.old (λ n. term_tree n term.now)) }
{
    match term {
        Term::Basic(one) => basic(found, sight, one),
        Term::Graph(name) => found.graph(sight, *name),
        Term::Query(inner) => query(found, sight, inner),
    }
}

#[tactic(auto, unfolding(crate::specs::Scopes::behind, crate::specs::Occurrences::occurrences))]
#[cycle(reading)]
fn basic(found: &mut Found, sight: &mut Sight, basic: &Basic) -> Result<(), Memory>
    ensures sight { OnOk result (sight.new ≡ scope_behind sight.old (λ n. basic_tree n basic.now)) }
    ensures found { OnOk result (found.new ≡ read_in found.old sight.old (λ n. basic_tree n basic.now)) }
{
    items(found, sight, &basic.items)?;
    block(found, sight, &basic.main)?;
    optionals(found, sight, &basic.optionals)
}

#[tactic(auto, unfolding(crate::specs::Scopes::behind, crate::specs::Occurrences::occurrences))]
#[cycle(reading)]
fn optionals(found: &mut Found, sight: &mut Sight, optionals: &OptionalList) -> Result<(), Memory>
    ensures sight { OnOk result (sight.new ≡ scope_behind sight.old (λ n. row (map (optional_tree n) optionals.now.items))) }
    ensures found { OnOk result (found.new ≡ read_in found.old sight.old (λ n. row (map (optional_tree n) optionals.now.items))) }
{
    for one in optionals {
        optional(found, sight, one)?;
    }
    Ok(())
}

#[tactic(auto, unfolding(gc_ast::specs::QueryViews::optional_by, gc_ast::specs::QueryViews::block_by, crate::specs::Scopes::behind, crate::specs::Occurrences::occurrences))]
#[cycle(reading)]
fn optional(found: &mut Found, sight: &mut Sight, optional: &OptionalBlock) -> Result<(), Memory>
    ensures sight { OnOk result (sight.new ≡ scope_behind sight.old (λ n. optional_tree n optional.now)) }
    ensures found { OnOk result (found.new ≡ read_in found.old sight.old (λ n. optional_tree n optional.now)) }
{
    block(found, sight, &optional.block)
}

#[tactic(auto, unfolding(crate::specs::Scopes::behind, crate::specs::Occurrences::occurrences))]
#[cycle(reading)]
fn block(found: &mut Found, sight: &mut Sight, block: &MatchBlock) -> Result<(), Memory>
    ensures sight { OnOk result (sight.new ≡ scope_behind sight.old (λ n. block_tree n block.now)) }
    ensures found { OnOk result (found.new ≡ read_in found.old sight.old (λ n. block_tree n block.now)) }
{
    patterns(found, sight, &block.patterns)?;
    filter(found, sight, &block.filter)
}

#[tactic(auto, unfolding(gc_ast::specs::QueryViews::formula_by, gc_ast::specs::QueryViews::query_by, crate::specs::Scopes::behind, crate::specs::Occurrences::occurrences))]
#[cycle(reading)]
fn filter(found: &mut Found, sight: &mut Sight, filter: &Option<Formula>) -> Result<(), Memory>
    ensures sight { OnOk result (sight.new ≡ scope_behind sight.old (λ n. maybe (option_map (formula_tree n) filter.now))) }
    ensures found { OnOk result (found.new ≡ read_in found.old sight.old (λ n. maybe (option_map (formula_tree n) filter.now))) }
{
    match filter {
        None => Ok(()),
        Some(formula) => queries(found, sight, &formula.exists),
    }
}

#[tactic(auto, unfolding(crate::specs::Scopes::behind, crate::specs::Occurrences::occurrences))]
#[cycle(reading)]
fn queries(found: &mut Found, sight: &mut Sight, queries: &QueryList) -> Result<(), Memory>
    ensures sight { OnOk result (sight.new ≡ scope_behind sight.old (λ n. row (map (query_tree n) queries.now.items))) }
    ensures found { OnOk result (found.new ≡ read_in found.old sight.old (λ n. row (map (query_tree n) queries.now.items))) }
{
    for one in queries {
        query(found, sight, one)?;
    }
    Ok(())
}

#[tactic(auto, unfolding(crate::specs::Scopes::behind, crate::specs::Occurrences::occurrences))]
fn statement(found: &mut Found, sight: &mut Sight, statement: &Statement) -> Result<(), Memory>
    ensures sight { OnOk result (sight.new ≡ scope_behind sight.old (λ n. statement_tree n statement.now)) }
    ensures found { OnOk result (found.new ≡ read_in found.old sight.old (λ n. statement_tree n statement.now)) }
{
    match statement {
        Statement::View {
            name,
            query: declared,
        } => {
            query(found, sight, declared)?;
            sight.declare_graph(*name)
        }
        Statement::Ask(asked) => query(found, sight, asked),
    }
}

#[tactic(auto, unfolding(crate::specs::Scopes::behind, crate::specs::Occurrences::occurrences))]
fn statements(found: &mut Found, sight: &mut Sight, all: &StatementList) -> Result<(), Memory>
    ensures { OnOk result (found.new ≡ read_in found.old sight.old (λ n. row (map (statement_tree n) all.now.items))) }
{
    for one in all {
        statement(found, sight, one)?;
    }
    Ok(())
}

/// What stands at the tokens of a file over graphs of these names.
pub(crate) fn found_in(alloc: Global, file: &File, graphs: &NameList) -> Result<Found, Memory>
    ensures { IfOk result (λ found. found ≡ collect (nothing (length file.now.names)) (file_occurrences graphs.now (row (file_trees file.now)))) }
{
    let mut found = Found::new(alloc, file.names.len());
    let mut sight = Sight::of(alloc, &file.names, graphs)?;
    statements(&mut found, &mut sight, &file.statements)?;
    Ok(found)
}
