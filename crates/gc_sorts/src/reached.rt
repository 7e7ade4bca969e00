ghost use Rattle.std.specs.Prelude.{◌≡◌, map, Some};
ghost use Rattle.std.specs.Option.{option_map};
ghost use Rattle.gc_expr.specs.Views.{Names};
ghost use Rattle.gc_ast.specs.QueryViews.{basic_tree, block_tree, head_tree, query_tree, statement_tree, term_tree};
ghost use Rattle.gc_ast.specs.Trees.{row};
ghost use Rattle.gc_sorts.specs.Blocks.{part_of};
ghost use Rattle.gc_sorts.specs.FileBlocks.{block_by, node_by};
ghost use Rattle.gc_sorts.specs.Ways.{AtBlock, AtQuery, AtStatements, asked, declared, from_term, next, query_in};
ghost use Rattle.gc_sorts.specs.declared.step.Step.TheVariants as to;

use crate::file_block::{FileBlock, part_of};
use crate::step::Step;
use gc_ast::{Basic, Head, MatchBlock, Query, Statement, Term};

/// What a way over a file has reached.
#[derive(Clone, Copy)]
pub(crate) enum Reached<'a> {
    Statements(&'a [Statement]),
    Query(&'a Query),
    Block(FileBlock<'a>),
}

/// What is reached by one step on, if the step can be taken.
pub(crate) fn next<'a>(from: Reached<'a>, step: Step) -> Option<Reached<'a>>
    ensures { (names : Names) → option_map (node_by names) result ≡ next (node_by names from.entry) step }
{
    match from {
        Reached::Statements(all) => from_statements(all, step),
        Reached::Query(query) => from_query(query, step),
        Reached::Block(block) => from_block(block, step),
    }
}

fn from_statements<'a>(all: &'a [Statement], step: Step) -> Option<Reached<'a>>
    ensures { (names : Names) → option_map (node_by names) result ≡ next (AtStatements (row (map (statement_tree names) all.now))) step }
{
    match step {
        Step::Statement(number) => match all.get(number as usize) {
            None => None,
            Some(statement) => Some(Reached::Query(asked(statement))),
        },
        _ => None,
    }
}

// The query of a statement.
fn asked(statement: &Statement) -> &Query
    ensures { (names : Names) → query_tree names result.now ≡ asked (statement_tree names statement.now) }
{
    match statement {
        Statement::View { query, .. } => query,
        Statement::Ask(query) => query,
    }
}

fn from_query<'a>(query: &'a Query, step: Step) -> Option<Reached<'a>>
    ensures { (names : Names) → option_map (node_by names) result ≡ next (AtQuery (query_tree names query.now)) step }
{
    match step {
        Step::Head(number) => from_head(query, number),
        Step::Term(number) => from_term(query, number),
        _ => None,
    }
}

// What the head of a number declares.
#[tactic(auto, unfolding(gc_ast::specs::QueryViews::query_by, gc_ast::specs::QueryViews::head_by))]
fn from_head<'a>(query: &'a Query, number: u32) -> Option<Reached<'a>>
    ensures { (names : Names) → option_map (node_by names) result ≡ next (AtQuery (query_tree names query.now)) (to.Head number) }
{
    match query.heads.get(number as usize) {
        None => None,
        Some(head) => Some(declared(head)),
    }
}

#[tactic(auto, unfolding(gc_ast::specs::QueryViews::head_by, gc_ast::specs::QueryViews::query_by, gc_ast::specs::QueryViews::formula_by))]
fn declared(head: &Head) -> Reached<'_>
    ensures { (names : Names) → node_by names result ≡ declared (head_tree names head.now) }
{
    match head {
        Head::Path {
            name,
            chains,
            filter,
            ..
        } => Reached::Block(FileBlock::View {
            name: *name,
            chains,
            filter,
        }),
        Head::Graph { query, .. } => Reached::Query(query),
    }
}

// Where the term of a number leads.
#[tactic(auto, unfolding(gc_ast::specs::QueryViews::query_by, gc_ast::specs::QueryViews::term_by, gc_ast::specs::QueryViews::next_term_by))]
fn from_term<'a>(query: &'a Query, number: u32) -> Option<Reached<'a>>
    ensures { (names : Names) → option_map (node_by names) result ≡ next (AtQuery (query_tree names query.now)) (to.Term number) }
{
    if number == 0 {
        return of_term(&query.first);
    }
    match query.rest.get((number - 1) as usize) {
        None => None,
        Some(later) => of_term(&later.term),
    }
}

#[tactic(auto, unfolding(gc_ast::specs::QueryViews::term_by, gc_ast::specs::QueryViews::basic_by, gc_ast::specs::QueryViews::query_by))]
fn of_term(term: &Term) -> Option<Reached<'_>>
    ensures { (names : Names) → option_map (node_by names) result ≡ from_term (Some (term_tree names term.now)) }
{
    match term {
        Term::Basic(basic) => Some(Reached::Block(FileBlock::Match(basic))),
        Term::Graph(_) => None,
        Term::Query(query) => Some(Reached::Query(query)),
    }
}

fn from_block<'a>(block: FileBlock<'a>, step: Step) -> Option<Reached<'a>>
    ensures { (names : Names) → option_map (node_by names) result ≡ next (AtBlock (block_by names block.entry)) step }
{
    match block {
        FileBlock::Match(basic) => match step {
            Step::Exists { part, query } => from_part(basic, part, query),
            _ => None,
        },
        FileBlock::View { .. } => None,
    }
}

// The EXISTS query of a number in the WHERE of a part.
fn from_part<'a>(basic: &'a Basic, part: u32, number: u32) -> Option<Reached<'a>>
    ensures { (names : Names) → option_map (node_by names) result ≡ option_map AtQuery (query_in (part_of (basic_tree names basic.now) part) number) }
{
    match part_of(basic, part) {
        None => None,
        Some(block) => exists_in(block, number),
    }
}

#[tactic(auto, unfolding(gc_ast::specs::QueryViews::block_by, gc_ast::specs::QueryViews::formula_by, gc_ast::specs::QueryViews::query_by))]
fn exists_in<'a>(block: &'a MatchBlock, number: u32) -> Option<Reached<'a>>
    ensures { (names : Names) → option_map (node_by names) result ≡ option_map AtQuery (query_in (Some (block_tree names block.now)) number) }
{
    match &block.filter {
        None => None,
        Some(formula) => match formula.exists.get(number as usize) {
            None => None,
            Some(query) => Some(Reached::Query(query)),
        },
    }
}
