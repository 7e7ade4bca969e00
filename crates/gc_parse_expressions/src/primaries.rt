ghost use Rattle.std.specs.Prelude.{◌-◌, ◌<◌, codes, drop};
ghost use Rattle.gc_expr.specs.Trees as tree;
ghost use Rattle.gc_expr.specs.Views.{expr_tree};
ghost use Rattle.gc_parse_readers.specs.Readers.{read_before, read_behind, read_mark};
ghost use Rattle.gc_lex.specs.declared.token.Mark.TheVariants as mark;
ghost use Rattle.gc_parse_readers.specs.ExpressionReaders.{read_aggregate, read_call, read_exists, read_in_parentheses, read_indexed, read_literal, read_neg, read_post, read_prim, read_suffix};
ghost use Rattle.gc_ast.specs.QueryViews.{query_tree};
ghost use Rattle.gc_parse_readers.specs.QueryReaders.{nested};
ghost use Rattle.gc_parse_expressions.specs.Inner.{ReadsQueries};
ghost use Rattle.gc_parse_source.specs.Results.{Gives, ReadsWith};
ghost use Rattle.gc_parse_readers.specs.Points.{bare};

use crate::expressions::expression;
use crate::literals::{length_of, no, number, rows, text, variable, yes};
use crate::operators::folding;
use crate::queries::QueryRead;
use gc_ast::QueryList;
use gc_expr::Expr;
use gc_lex::Mark;
use gc_parse_source::{Refusal, Source, is_count_of_rows_at};

#[tactic(auto, unfolding(gc_parse_readers::specs::ExpressionReaders::read_neg))]
#[cycle(expression)]
// neg = [ `-` ] post
pub(crate) fn negative<Q: Fn(u64, u32) -> QueryRead>(
    source: &Source,
    room: u64,
    at: u32,
    exists: &mut QueryList,
    queries: &Q,
) -> Result<(Expr, u32), Refusal>
    requires room { 0 < room }
    requires queries { ReadsQueries source.now room (Q.pre queries.now) (Q.post queries.now) }
    ensures { ReadsWith (expr_tree source.now.names) source.now at exists.old.items exists.new.items result (read_neg (nested (room - 1))) }
{
    let token = at;
    if !source.is_at(at, Mark::Minus) {
        return postfix(source, room, at, exists, queries);
    }
    let at = source.mark(at, Mark::Minus)?;
    let (operand, at) = postfix(source, room, at, exists, queries)?;
    Ok((Expr::negate(source.alloc(), token, operand)?, at))
}

#[tactic(auto, unfolding(gc_parse_readers::specs::ExpressionReaders::read_post, gc_parse_readers::specs::ExpressionReaders::read_suffix))]
#[cycle(expression)]
// post = prim [ `.` word | `:` word ]
fn postfix<Q: Fn(u64, u32) -> QueryRead>(
    source: &Source,
    room: u64,
    at: u32,
    exists: &mut QueryList,
    queries: &Q,
) -> Result<(Expr, u32), Refusal>
    requires room { 0 < room }
    requires queries { ReadsQueries source.now room (Q.pre queries.now) (Q.post queries.now) }
    ensures { ReadsWith (expr_tree source.now.names) source.now at exists.old.items exists.new.items result (read_post (nested (room - 1))) }
{
    let token = at;
    let (of, at) = primary(source, room, at, exists, queries)?;
    if source.is_at(at, Mark::Dot) {
        let at = source.mark(at, Mark::Dot)?;
        let (name, at) = source.word(at)?;
        Ok((Expr::property(source.alloc(), token, of, name)?, at))
    } else if source.is_at(at, Mark::Colon) {
        let at = source.mark(at, Mark::Colon)?;
        let (label, at) = source.word(at)?;
        Ok((Expr::labelled(source.alloc(), token, of, label)?, at))
    } else {
        Ok((of, at))
    }
}

#[tactic(auto, unfolding(gc_parse_readers::specs::ExpressionReaders::read_prim, gc_parse_readers::specs::ExpressionReaders::read_literal))]
#[cycle(expression)]
// prim = number | text | `TRUE` | `FALSE` | name | what has parentheses
fn primary<Q: Fn(u64, u32) -> QueryRead>(
    source: &Source,
    room: u64,
    at: u32,
    exists: &mut QueryList,
    queries: &Q,
) -> Result<(Expr, u32), Refusal>
    requires room { 0 < room }
    requires queries { ReadsQueries source.now room (Q.pre queries.now) (Q.post queries.now) }
    ensures { ReadsWith (expr_tree source.now.names) source.now at exists.old.items exists.new.items result (read_prim (nested (room - 1))) }
{
    if source.is_number_at(at) {
        number(source, at)
    } else if source.is_text_at(at) {
        text(source, at)
    } else if source.is_word_at(at, "TRUE") {
        yes(source, at)
    } else if source.is_word_at(at, "FALSE") {
        no(source, at)
    } else if source.is_name_at(at) {
        variable(source, at)
    } else {
        call(source, room, at, exists, queries)
    }
}

#[cycle(expression)]
// `(` expr `)` | `EXISTS` `(` query `)` | (`nodes` | `edges`) `(` name `)` `[` expr `]`
// | `length` `(` name `)` | an aggregate
fn call<Q: Fn(u64, u32) -> QueryRead>(
    source: &Source,
    room: u64,
    at: u32,
    exists: &mut QueryList,
    queries: &Q,
) -> Result<(Expr, u32), Refusal>
    requires room { 0 < room }
    requires queries { ReadsQueries source.now room (Q.pre queries.now) (Q.post queries.now) }
    ensures { ReadsWith (expr_tree source.now.names) source.now at exists.old.items exists.new.items result (read_call (nested (room - 1))) }
{
    if source.is_at(at, Mark::OpenParenthesis) {
        in_parentheses(source, room, at, exists, queries)
    } else if source.is_word_at(at, "EXISTS") {
        exists_query(source, room, at, exists, queries)
    } else if source.is_word_at(at, "nodes") {
        node_at(source, room, at, exists, queries)
    } else if source.is_word_at(at, "edges") {
        edge_at(source, room, at, exists, queries)
    } else if source.is_word_at(at, "length") {
        length_of(source, at)
    } else if is_count_of_rows_at(source, at) {
        rows(source, at)
    } else {
        aggregate(source, room, at, exists, queries)
    }
}

#[tactic(auto, unfolding(gc_parse_readers::specs::ExpressionReaders::read_in_parentheses))]
#[cycle(expression)]
// `(` expr `)`
fn in_parentheses<Q: Fn(u64, u32) -> QueryRead>(
    source: &Source,
    room: u64,
    at: u32,
    exists: &mut QueryList,
    queries: &Q,
) -> Result<(Expr, u32), Refusal>
    requires room { 0 < room }
    requires queries { ReadsQueries source.now room (Q.pre queries.now) (Q.post queries.now) }
    ensures { ReadsWith (expr_tree source.now.names) source.now at exists.old.items exists.new.items result (read_in_parentheses (nested (room - 1)).expr) }
{
    let at = source.mark(at, Mark::OpenParenthesis)?;
    let (expr, at) = inner_expression(source, room, at, exists, queries)?;
    let at = source.mark(at, Mark::CloseParenthesis)?;
    Ok((expr, at))
}

#[tactic(auto, using(gc_parse_readers::proofs::NestedRooms::expression_with_room, gc_parse_readers::proofs::NestedRooms::expression_without_room, crate::proofs::Inner::with_less_room))]
#[cycle(expression)]
// An expression between brackets, which has one less room.
fn inner_expression<Q: Fn(u64, u32) -> QueryRead>(
    source: &Source,
    room: u64,
    at: u32,
    exists: &mut QueryList,
    queries: &Q,
) -> Result<(Expr, u32), Refusal>
    requires room { 0 < room }
    requires queries { ReadsQueries source.now room (Q.pre queries.now) (Q.post queries.now) }
    ensures { ReadsWith (expr_tree source.now.names) source.now at exists.old.items exists.new.items result (nested (room - 1)).expr }
{
    let within = room - 1;
    if within == 0 {
        return Err(Refusal::Syntax(at));
    }
    expression(source, within, at, exists, queries)
}

// A query between brackets, which has one less room.
fn inner_query<Q: Fn(u64, u32) -> QueryRead>(
    source: &Source,
    room: u64,
    at: u32,
    queries: &Q,
) -> QueryRead
    requires room { 0 < room }
    requires queries { ReadsQueries source.now room (Q.pre queries.now) (Q.post queries.now) }
    ensures { Gives (query_tree source.now.names) source.now.tokens result ((nested (room - 1)).query (bare at) (drop at source.now.tokens)) }
{
    queries(room - 1, at)
}

#[tactic(auto, unfolding(gc_parse_readers::specs::ExpressionReaders::read_exists, gc_parse_readers::specs::ExpressionReaders::read_in_parentheses))]
// `EXISTS` `(` query `)`
fn exists_query<Q: Fn(u64, u32) -> QueryRead>(
    source: &Source,
    room: u64,
    at: u32,
    exists: &mut QueryList,
    queries: &Q,
) -> Result<(Expr, u32), Refusal>
    requires room { 0 < room }
    requires queries { ReadsQueries source.now room (Q.pre queries.now) (Q.post queries.now) }
    ensures { ReadsWith (expr_tree source.now.names) source.now at exists.old.items exists.new.items result (read_exists (nested (room - 1))) }
{
    let token = at;
    let at = source.the_word(at, "EXISTS")?;
    let at = source.mark(at, Mark::OpenParenthesis)?;
    let (query, at) = inner_query(source, room, at, queries)?;
    let number = exists.len();
    if number > u32::MAX as usize {
        return Err(Refusal::Memory);
    }
    exists.push(query)?;
    let at = source.mark(at, Mark::CloseParenthesis)?;
    Ok((Expr::exists(token, number as u32), at))
}

#[tactic(auto, unfolding(gc_parse_readers::specs::ExpressionReaders::read_indexed, gc_parse_readers::specs::ExpressionReaders::read_in_parentheses))]
#[cycle(expression)]
// `nodes` `(` name `)` `[` expr `]`
fn node_at<Q: Fn(u64, u32) -> QueryRead>(
    source: &Source,
    room: u64,
    at: u32,
    exists: &mut QueryList,
    queries: &Q,
) -> Result<(Expr, u32), Refusal>
    requires room { 0 < room }
    requires queries { ReadsQueries source.now room (Q.pre queries.now) (Q.post queries.now) }
    ensures { ReadsWith (expr_tree source.now.names) source.now at exists.old.items exists.new.items result
        (read_indexed (codes "nodes") tree.NodeAt (nested (room - 1))) }
{
    let token = at;
    let at = source.the_word(at, "nodes")?;
    let at = source.mark(at, Mark::OpenParenthesis)?;
    let (path, at) = source.name(at)?;
    let at = source.mark(at, Mark::CloseParenthesis)?;
    let (index, at) = index(source, room, at, exists, queries)?;
    Ok((Expr::node_at(source.alloc(), token, path.sym, index)?, at))
}

#[tactic(auto, unfolding(gc_parse_readers::specs::ExpressionReaders::read_indexed, gc_parse_readers::specs::ExpressionReaders::read_in_parentheses))]
#[cycle(expression)]
// `edges` `(` name `)` `[` expr `]`
fn edge_at<Q: Fn(u64, u32) -> QueryRead>(
    source: &Source,
    room: u64,
    at: u32,
    exists: &mut QueryList,
    queries: &Q,
) -> Result<(Expr, u32), Refusal>
    requires room { 0 < room }
    requires queries { ReadsQueries source.now room (Q.pre queries.now) (Q.post queries.now) }
    ensures { ReadsWith (expr_tree source.now.names) source.now at exists.old.items exists.new.items result
        (read_indexed (codes "edges") tree.EdgeAt (nested (room - 1))) }
{
    let token = at;
    let at = source.the_word(at, "edges")?;
    let at = source.mark(at, Mark::OpenParenthesis)?;
    let (path, at) = source.name(at)?;
    let at = source.mark(at, Mark::CloseParenthesis)?;
    let (index, at) = index(source, room, at, exists, queries)?;
    Ok((Expr::edge_at(source.alloc(), token, path.sym, index)?, at))
}

#[cycle(expression)]
// `[` expr `]`
fn index<Q: Fn(u64, u32) -> QueryRead>(
    source: &Source,
    room: u64,
    at: u32,
    exists: &mut QueryList,
    queries: &Q,
) -> Result<(Expr, u32), Refusal>
    requires room { 0 < room }
    requires queries { ReadsQueries source.now room (Q.pre queries.now) (Q.post queries.now) }
    ensures { ReadsWith (expr_tree source.now.names) source.now at exists.old.items exists.new.items result
        (read_before (read_behind (read_mark mark.OpenBracket) (nested (room - 1)).expr) (read_mark mark.CloseBracket)) }
{
    let at = source.mark(at, Mark::OpenBracket)?;
    let (expr, at) = inner_expression(source, room, at, exists, queries)?;
    let at = source.mark(at, Mark::CloseBracket)?;
    Ok((expr, at))
}

#[tactic(auto, unfolding(gc_parse_readers::specs::ExpressionReaders::read_aggregate))]
#[cycle(expression)]
// (`COUNT` | `SUM` | `MIN` | `MAX` | `COLLECT`) `(` expr `)`
fn aggregate<Q: Fn(u64, u32) -> QueryRead>(
    source: &Source,
    room: u64,
    at: u32,
    exists: &mut QueryList,
    queries: &Q,
) -> Result<(Expr, u32), Refusal>
    requires room { 0 < room }
    requires queries { ReadsQueries source.now room (Q.pre queries.now) (Q.post queries.now) }
    ensures { ReadsWith (expr_tree source.now.names) source.now at exists.old.items exists.new.items result (read_aggregate (nested (room - 1))) }
{
    let token = at;
    let (fold, at) = folding(source, at)?;
    let (operand, at) = in_parentheses(source, room, at, exists, queries)?;
    Ok((Expr::aggregate(source.alloc(), token, fold, operand)?, at))
}
