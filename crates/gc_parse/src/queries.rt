ghost use Rattle.std.specs.Prelude.{◌≡◌, ◌-◌, ◌<◌, ◌∷◌, [], drop, map, codes, IfOk};
ghost use Rattle.gc_ast.specs.PatternViews.{named};
ghost use Rattle.gc_ast.specs.QueryViews.{head_tree, next_term_tree, query_tree, term_tree};
ghost use Rattle.gc_expr.specs.Views.{Names};
ghost use Rattle.gc_parse_readers.specs.Kinds.{begins, word_kind};
ghost use Rattle.gc_grammar.specs.Queries.{as_query, as_term};
ghost use Rattle.gc_parse_readers.specs.Readers.{read_many};
ghost use Rattle.gc_parse_readers.specs.ExpressionReaders.{read_in_parentheses};
ghost use Rattle.gc_parse_readers.specs.QueryReaders.{nested, read_head, read_named_query, read_next_term, read_query, read_set_op, read_term, set_op_kinds};
ghost use Rattle.gc_parse_source.specs.Results.{Gives};
ghost use Rattle.gc_parse_readers.specs.Points.{bare};
ghost use Rattle.gc_parse.specs.TermParts.{term_of_parts};

use crate::blocks::basic;
use crate::path_heads::path_head;
use gc_ast::{Head, HeadList, NextTerm, NextTermList, Query, SetOp, Term};
use gc_base::{Memory, NameAt};
use gc_lex::Mark;
use gc_parse_source::{Refusal, Source};
use std::alloc::Global;

#[tactic(auto, using(gc_parse_readers::proofs::NestedRooms::query_with_room, gc_parse_readers::proofs::NestedRooms::query_without_room))]
#[cycle(query)]
// A query between brackets, over at most so many tokens.
pub(crate) fn inner_query(source: &Source, room: u64, at: u32) -> Result<(Query, u32), Refusal>
    ensures { Gives (query_tree source.now.names) source.now.tokens result ((nested room).query (bare at) (drop at source.now.tokens)) }
{
    if room == 0 {
        return Err(Refusal::Syntax(at));
    }
    query(source, room, at)
}

#[tactic(auto, unfolding(gc_parse_readers::specs::QueryReaders::read_query))]
#[cycle(query)]
// query = { head } term { (`UNION` | `INTERSECT` | `MINUS`) term }
pub(crate) fn query(source: &Source, room: u64, at: u32) -> Result<(Query, u32), Refusal>
    requires { 0 < room }
    ensures { Gives (query_tree source.now.names) source.now.tokens result (read_query room (nested (room - 1)) (bare at) (drop at source.now.tokens)) }
{
    let (heads, at) = heads(source, room, at)?;
    let (first, at) = term(source, room, at)?;
    let (rest, at) = next_terms(source, room, at)?;
    Ok((unwrapped(heads, first, rest), at))
}

#[tactic(auto, unfolding(gc_ast::specs::QueryViews::term_by, gc_ast::specs::QueryViews::query_by))]
// A query without heads whose only term is a query in parentheses is that query.
fn unwrapped(heads: HeadList, first: Term, rest: NextTermList) -> Query
    ensures { (names : Names) → query_tree names result ≡ as_query (map (head_tree names) heads.items) (term_tree names first)
        (map (next_term_tree names) rest.items) }
{
    if !heads.is_empty() || !rest.is_empty() {
        return Query::of(heads, first, rest);
    }
    match first {
        Term::Query(query) => Box::into_inner(query),
        Term::Basic(basic) => Query::of(heads, Term::Basic(basic), rest),
        Term::Graph(name) => Query::of(heads, Term::Graph(name), rest),
    }
}

// { head }
#[cycle(query)]
fn heads(source: &Source, room: u64, from: u32) -> Result<(HeadList, u32), Refusal>
    requires { 0 < room }
    ensures { Gives (λ heads. map (head_tree source.now.names) heads.items) source.now.tokens result
        (read_many (word_kind (codes "PATH") ∷ word_kind (codes "GRAPH") ∷ []) (read_head room (nested (room - 1))) room (bare from)
        (drop from source.now.tokens)) }
{
    let mut heads = Vec::new(source.alloc());
    let mut at = from;
    for _ in 0..room {
        if !is_head_at(source, at) {
            return Ok((heads, at));
        }
        let (head, next) = head(source, room, at)?;
        heads.push(head)?;
        at = next;
    }
    Ok((heads, at))
}

// Whether `PATH` or `GRAPH` stands at a place.
fn is_head_at(source: &Source, at: u32) -> bool
    ensures { result ≡ begins (word_kind (codes "PATH") ∷ word_kind (codes "GRAPH") ∷ []) (drop at source.now.tokens) }
{
    source.is_word_at(at, "PATH") || source.is_word_at(at, "GRAPH")
}

#[tactic(auto, unfolding(gc_parse_readers::specs::QueryReaders::read_head))]
#[cycle(query)]
// head = `PATH` name `=` vchain { `,` vchain } [ `WHERE` expr ] [ `COST` expr ]
//     | `GRAPH` name `AS` `(` query `)`
fn head(source: &Source, room: u64, at: u32) -> Result<(Head, u32), Refusal>
    requires { 0 < room }
    ensures { Gives (head_tree source.now.names) source.now.tokens result (read_head room (nested (room - 1)) (bare at) (drop at source.now.tokens)) }
{
    if source.is_word_at(at, "PATH") {
        return path_head(source, room, at);
    }
    let at = source.the_word(at, "GRAPH")?;
    let ((name, query), at) = named_query(source, room, at)?;
    Ok((Head::graph(name, query), at))
}

#[tactic(auto, unfolding(gc_parse_readers::specs::QueryReaders::read_named_query))]
#[cycle(query)]
// name `AS` `(` query `)`
pub(crate) fn named_query(
    source: &Source,
    room: u64,
    at: u32,
) -> Result<((NameAt, Query), u32), Refusal>
    requires { 0 < room }
    ensures { Gives (λ found. (named source.now.names found.0, query_tree source.now.names found.1)) source.now.tokens result
        (read_named_query (nested (room - 1)) (bare at) (drop at source.now.tokens)) }
{
    let (name, at) = source.name(at)?;
    let at = source.the_word(at, "AS")?;
    let (query, at) = bracketed_query(source, room, at)?;
    Ok(((name, query), at))
}

#[tactic(auto, unfolding(gc_parse_readers::specs::ExpressionReaders::read_in_parentheses))]
#[cycle(query)]
// `(` query `)`
fn bracketed_query(source: &Source, room: u64, at: u32) -> Result<(Query, u32), Refusal>
    requires { 0 < room }
    ensures { Gives (query_tree source.now.names) source.now.tokens result
        (read_in_parentheses (nested (room - 1)).query (bare at) (drop at source.now.tokens)) }
{
    let at = source.mark(at, Mark::OpenParenthesis)?;
    let (query, at) = inner_query(source, room - 1, at)?;
    let at = source.mark(at, Mark::CloseParenthesis)?;
    Ok((query, at))
}

#[tactic(auto, unfolding(gc_parse_readers::specs::QueryReaders::read_term))]
#[cycle(query)]
// term = basic | name | `(` query `)`
fn term(source: &Source, room: u64, at: u32) -> Result<(Term, u32), Refusal>
    requires { 0 < room }
    ensures { Gives (term_tree source.now.names) source.now.tokens result (read_term room (nested (room - 1)) (bare at) (drop at source.now.tokens)) }
{
    if source.is_word_at(at, "CONSTRUCT") {
        let (basic, at) = basic(source, room, at)?;
        return Ok((Term::basic(source.alloc(), basic)?, at));
    }
    if source.is_name_at(at) {
        let (name, at) = source.name(at)?;
        return Ok((Term::graph(name), at));
    }
    let (query, at) = bracketed_query(source, room, at)?;
    Ok((wrapped(source.alloc(), query)?, at))
}

#[tactic(auto, unfolding(gc_ast::specs::QueryViews::query_by, gc_ast::specs::QueryViews::head_by, gc_ast::specs::QueryViews::term_by, gc_ast::specs::QueryViews::next_term_by))]
// A query in parentheses as a term; without heads and of one term it is that term.
fn wrapped(alloc: Global, query: Query) -> Result<Term, Memory>
    ensures { IfOk result (λ term. (names : Names) → term_tree names term ≡ as_term (query_tree names query)) }
{
    let Query { heads, first, rest } = query;
    wrapped_parts(alloc, heads, first, rest)
}

// The same of a query's parts.
fn wrapped_parts(
    alloc: Global,
    heads: HeadList,
    first: Term,
    rest: NextTermList,
) -> Result<Term, Memory>
    ensures { IfOk result (λ term. (names : Names) → term_tree names term ≡ term_of_parts (map (head_tree names) heads.items) (term_tree names first)
        (map (next_term_tree names) rest.items)) }
{
    if !heads.is_empty() || !rest.is_empty() {
        let term = Term::query(alloc, Query::of(heads, first, rest))?;
        return Ok(term);
    }
    Ok(first)
}

// { (`UNION` | `INTERSECT` | `MINUS`) term }
#[cycle(query)]
fn next_terms(source: &Source, room: u64, from: u32) -> Result<(NextTermList, u32), Refusal>
    requires { 0 < room }
    ensures { Gives (λ terms. map (next_term_tree source.now.names) terms.items) source.now.tokens result
        (read_many set_op_kinds (read_next_term room (nested (room - 1))) room (bare from) (drop from source.now.tokens)) }
{
    let mut terms = Vec::new(source.alloc());
    let mut at = from;
    for _ in 0..room {
        if !is_set_op_at(source, at) {
            return Ok((terms, at));
        }
        let (term, next) = next_term(source, room, at)?;
        terms.push(term)?;
        at = next;
    }
    Ok((terms, at))
}

#[tactic(auto, unfolding(gc_parse_readers::specs::QueryReaders::read_next_term))]
#[cycle(query)]
// (`UNION` | `INTERSECT` | `MINUS`) term
fn next_term(source: &Source, room: u64, at: u32) -> Result<(NextTerm, u32), Refusal>
    requires { 0 < room }
    ensures { Gives (next_term_tree source.now.names) source.now.tokens result
        (read_next_term room (nested (room - 1)) (bare at) (drop at source.now.tokens)) }
{
    let (op, at) = set_op(source, at)?;
    let (term, at) = term(source, room, at)?;
    Ok((NextTerm::of(op, term), at))
}

#[tactic(auto, unfolding(gc_parse_readers::specs::QueryReaders::read_set_op))]
// `UNION` | `INTERSECT` | `MINUS`
fn set_op(source: &Source, at: u32) -> Result<(SetOp, u32), Refusal>
    ensures { Gives (λ op. op) source.now.tokens result (read_set_op (bare at) (drop at source.now.tokens)) }
{
    if source.is_word_at(at, "UNION") {
        Ok((SetOp::Union, source.the_word(at, "UNION")?))
    } else if source.is_word_at(at, "INTERSECT") {
        Ok((SetOp::Intersect, source.the_word(at, "INTERSECT")?))
    } else {
        Ok((SetOp::Minus, source.the_word(at, "MINUS")?))
    }
}

// Whether a set operation stands at a place.
fn is_set_op_at(source: &Source, at: u32) -> bool
    ensures { result ≡ begins set_op_kinds (drop at source.now.tokens) }
{
    source.is_word_at(at, "UNION")
        || source.is_word_at(at, "INTERSECT")
        || source.is_word_at(at, "MINUS")
}
