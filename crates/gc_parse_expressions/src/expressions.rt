ghost use Rattle.std.specs.Prelude.{◌-◌, ◌<◌, ◌∷◌, [], codes, map};
ghost use Rattle.gc_expr.specs.Views.{expr_tree, sum_part_tree, product_part_tree};
ghost use Rattle.gc_lex.specs.declared.token.Mark.TheVariants as mark;
ghost use Rattle.gc_parse_readers.specs.Kinds.{begins, mark_kind, word_kind};
ghost use Rattle.gc_parse_readers.specs.Readers.{in_front, read_many, read_behind, read_the_word};
ghost use Rattle.gc_parse_readers.specs.ExpressionReaders.{product_kinds, read_and, read_cmp, read_expr, read_not, read_prod, read_product_part, read_sum, read_sum_part};
ghost use Rattle.gc_parse_readers.specs.QueryReaders.{nested};
ghost use Rattle.gc_parse_expressions.specs.Inner.{ReadsQueries};
ghost use Rattle.gc_parse_source.specs.Results.{ReadsWith};

use crate::chains::{all_of, any_of, multiplied, product_part, sum_part, summed};
use crate::operators::{
    comparison, is_comparison_at, is_product_op_at, is_sign_at, product_op, sign,
};
use crate::primaries::negative;
use crate::queries::QueryRead;
use gc_ast::QueryList;
use gc_expr::{Expr, ExprList, ProductPart, ProductPartList, SumPart, SumPartList};
use gc_parse_source::{Refusal, Source, one};

#[tactic(auto, unfolding(gc_parse_readers::specs::ExpressionReaders::read_expr))]
#[cycle(expression)]
/// expr = and { `OR` and }, where `queries` reads the queries of EXISTS: at a room and a place, the query that
/// begins there, for fewer tokens than the room. Those that were met are put behind the ones before.
pub fn expression<Q: Fn(u64, u32) -> QueryRead>(
    source: &Source,
    room: u64,
    at: u32,
    exists: &mut QueryList,
    queries: &Q,
) -> Result<(Expr, u32), Refusal>
    requires room { 0 < room }
    requires queries { ReadsQueries source.now room (Q.pre queries.now) (Q.post queries.now) }
    ensures { ReadsWith (expr_tree source.now.names) source.now at exists.old.items exists.new.items result (read_expr room (nested (room - 1))) }
{
    let token = at;
    let (first, at) = conjunction(source, room, at, exists, queries)?;
    let (parts, at) = later_alternatives(source, room, at, first, exists, queries)?;
    Ok((any_of(token, parts), at))
}

#[cycle(expression)]
// { `OR` and } behind a first part
fn later_alternatives<Q: Fn(u64, u32) -> QueryRead>(
    source: &Source,
    room: u64,
    from: u32,
    first: Expr,
    exists: &mut QueryList,
    queries: &Q,
) -> Result<(ExprList, u32), Refusal>
    requires room { 0 < room }
    requires queries { ReadsQueries source.now room (Q.pre queries.now) (Q.post queries.now) }
    ensures { ReadsWith (λ parts. map (expr_tree source.now.names) parts.items) source.now from exists.old.items exists.new.items result
        (λ start ts. in_front (expr_tree source.now.names first ∷ []) (read_many (word_kind (codes "OR") ∷ [])
        (read_behind (read_the_word (codes "OR")) (read_and room (nested (room - 1)))) room start ts)) }
{
    let mut parts = one(source.alloc(), first)?;
    let mut at = from;
    for _ in 0..room {
        if !source.is_word_at(at, "OR") {
            return Ok((parts, at));
        }
        let (part, next) = later_alternative(source, room, at, exists, queries)?;
        parts.push(part)?;
        at = next;
    }
    Ok((parts, at))
}

#[cycle(expression)]
// `OR` and
fn later_alternative<Q: Fn(u64, u32) -> QueryRead>(
    source: &Source,
    room: u64,
    at: u32,
    exists: &mut QueryList,
    queries: &Q,
) -> Result<(Expr, u32), Refusal>
    requires room { 0 < room }
    requires queries { ReadsQueries source.now room (Q.pre queries.now) (Q.post queries.now) }
    ensures { ReadsWith (expr_tree source.now.names) source.now at exists.old.items exists.new.items result
        (read_behind (read_the_word (codes "OR")) (read_and room (nested (room - 1)))) }
{
    let at = source.the_word(at, "OR")?;
    conjunction(source, room, at, exists, queries)
}

#[tactic(auto, unfolding(gc_parse_readers::specs::ExpressionReaders::read_and))]
#[cycle(expression)]
// and = not { `AND` not }
fn conjunction<Q: Fn(u64, u32) -> QueryRead>(
    source: &Source,
    room: u64,
    at: u32,
    exists: &mut QueryList,
    queries: &Q,
) -> Result<(Expr, u32), Refusal>
    requires room { 0 < room }
    requires queries { ReadsQueries source.now room (Q.pre queries.now) (Q.post queries.now) }
    ensures { ReadsWith (expr_tree source.now.names) source.now at exists.old.items exists.new.items result (read_and room (nested (room - 1))) }
{
    let token = at;
    let (first, at) = negation(source, room, at, exists, queries)?;
    let (parts, at) = later_conditions(source, room, at, first, exists, queries)?;
    Ok((all_of(token, parts), at))
}

#[cycle(expression)]
// { `AND` not } behind a first part
fn later_conditions<Q: Fn(u64, u32) -> QueryRead>(
    source: &Source,
    room: u64,
    from: u32,
    first: Expr,
    exists: &mut QueryList,
    queries: &Q,
) -> Result<(ExprList, u32), Refusal>
    requires room { 0 < room }
    requires queries { ReadsQueries source.now room (Q.pre queries.now) (Q.post queries.now) }
    ensures { ReadsWith (λ parts. map (expr_tree source.now.names) parts.items) source.now from exists.old.items exists.new.items result
        (λ start ts. in_front (expr_tree source.now.names first ∷ []) (read_many (word_kind (codes "AND") ∷ [])
        (read_behind (read_the_word (codes "AND")) (read_not room (nested (room - 1)))) room start ts)) }
{
    let mut parts = one(source.alloc(), first)?;
    let mut at = from;
    for _ in 0..room {
        if !source.is_word_at(at, "AND") {
            return Ok((parts, at));
        }
        let (part, next) = later_condition(source, room, at, exists, queries)?;
        parts.push(part)?;
        at = next;
    }
    Ok((parts, at))
}

#[cycle(expression)]
// `AND` not
fn later_condition<Q: Fn(u64, u32) -> QueryRead>(
    source: &Source,
    room: u64,
    at: u32,
    exists: &mut QueryList,
    queries: &Q,
) -> Result<(Expr, u32), Refusal>
    requires room { 0 < room }
    requires queries { ReadsQueries source.now room (Q.pre queries.now) (Q.post queries.now) }
    ensures { ReadsWith (expr_tree source.now.names) source.now at exists.old.items exists.new.items result
        (read_behind (read_the_word (codes "AND")) (read_not room (nested (room - 1)))) }
{
    let at = source.the_word(at, "AND")?;
    negation(source, room, at, exists, queries)
}

#[tactic(auto, unfolding(gc_parse_readers::specs::ExpressionReaders::read_not))]
#[cycle(expression)]
// not = [ `NOT` ] cmp
fn negation<Q: Fn(u64, u32) -> QueryRead>(
    source: &Source,
    room: u64,
    at: u32,
    exists: &mut QueryList,
    queries: &Q,
) -> Result<(Expr, u32), Refusal>
    requires room { 0 < room }
    requires queries { ReadsQueries source.now room (Q.pre queries.now) (Q.post queries.now) }
    ensures { ReadsWith (expr_tree source.now.names) source.now at exists.old.items exists.new.items result (read_not room (nested (room - 1))) }
{
    let token = at;
    if !source.is_word_at(at, "NOT") {
        return compared(source, room, at, exists, queries);
    }
    let at = source.the_word(at, "NOT")?;
    let (operand, at) = compared(source, room, at, exists, queries)?;
    Ok((Expr::negation(source.alloc(), token, operand)?, at))
}

#[tactic(auto, unfolding(gc_parse_readers::specs::ExpressionReaders::read_cmp))]
#[cycle(expression)]
// cmp = sum [ (`=` | `<>` | `<` | `<=` | `>` | `>=` | `IN` | `SUBSET`) sum ]
fn compared<Q: Fn(u64, u32) -> QueryRead>(
    source: &Source,
    room: u64,
    at: u32,
    exists: &mut QueryList,
    queries: &Q,
) -> Result<(Expr, u32), Refusal>
    requires room { 0 < room }
    requires queries { ReadsQueries source.now room (Q.pre queries.now) (Q.post queries.now) }
    ensures { ReadsWith (expr_tree source.now.names) source.now at exists.old.items exists.new.items result (read_cmp room (nested (room - 1))) }
{
    let token = at;
    let (left, at) = sum(source, room, at, exists, queries)?;
    if !is_comparison_at(source, at) {
        return Ok((left, at));
    }
    let (how, at) = comparison(source, at)?;
    let (right, at) = sum(source, room, at, exists, queries)?;
    Ok((Expr::compare(source.alloc(), token, how, left, right)?, at))
}

#[tactic(auto, unfolding(gc_parse_readers::specs::ExpressionReaders::read_sum))]
#[cycle(expression)]
// sum = prod { (`+` | `-`) prod }
fn sum<Q: Fn(u64, u32) -> QueryRead>(
    source: &Source,
    room: u64,
    at: u32,
    exists: &mut QueryList,
    queries: &Q,
) -> Result<(Expr, u32), Refusal>
    requires room { 0 < room }
    requires queries { ReadsQueries source.now room (Q.pre queries.now) (Q.post queries.now) }
    ensures { ReadsWith (expr_tree source.now.names) source.now at exists.old.items exists.new.items result (read_sum room (nested (room - 1))) }
{
    let token = at;
    let (first, at) = product(source, room, at, exists, queries)?;
    let (rest, at) = later_sum_parts(source, room, at, exists, queries)?;
    Ok((summed(source.alloc(), token, first, rest)?, at))
}

#[cycle(expression)]
// { (`+` | `-`) prod }
fn later_sum_parts<Q: Fn(u64, u32) -> QueryRead>(
    source: &Source,
    room: u64,
    from: u32,
    exists: &mut QueryList,
    queries: &Q,
) -> Result<(SumPartList, u32), Refusal>
    requires room { 0 < room }
    requires queries { ReadsQueries source.now room (Q.pre queries.now) (Q.post queries.now) }
    ensures { ReadsWith (λ parts. map (sum_part_tree source.now.names) parts.items) source.now from exists.old.items exists.new.items result
        (λ start ts. in_front [] (read_many (mark_kind mark.Plus ∷ mark_kind mark.Minus ∷ []) (read_sum_part room (nested (room - 1))) room start ts)) }
{
    let mut parts = Vec::new(source.alloc());
    let mut at = from;
    for _ in 0..room {
        if !is_sign_at(source, at) {
            return Ok((parts, at));
        }
        let (part, next) = later_sum_part(source, room, at, exists, queries)?;
        parts.push(part)?;
        at = next;
    }
    Ok((parts, at))
}

#[tactic(auto, unfolding(gc_parse_readers::specs::ExpressionReaders::read_sum_part))]
#[cycle(expression)]
// (`+` | `-`) prod
fn later_sum_part<Q: Fn(u64, u32) -> QueryRead>(
    source: &Source,
    room: u64,
    at: u32,
    exists: &mut QueryList,
    queries: &Q,
) -> Result<(SumPart, u32), Refusal>
    requires room { 0 < room }
    requires queries { ReadsQueries source.now room (Q.pre queries.now) (Q.post queries.now) }
    ensures { ReadsWith (sum_part_tree source.now.names) source.now at exists.old.items exists.new.items result (read_sum_part room (nested (room - 1))) }
{
    let (minus, at) = sign(source, at)?;
    let (part, at) = product(source, room, at, exists, queries)?;
    Ok((sum_part(minus, part), at))
}

#[tactic(auto, unfolding(gc_parse_readers::specs::ExpressionReaders::read_prod))]
#[cycle(expression)]
// prod = neg { (`*` | `/` | `%`) neg }
fn product<Q: Fn(u64, u32) -> QueryRead>(
    source: &Source,
    room: u64,
    at: u32,
    exists: &mut QueryList,
    queries: &Q,
) -> Result<(Expr, u32), Refusal>
    requires room { 0 < room }
    requires queries { ReadsQueries source.now room (Q.pre queries.now) (Q.post queries.now) }
    ensures { ReadsWith (expr_tree source.now.names) source.now at exists.old.items exists.new.items result (read_prod room (nested (room - 1))) }
{
    let token = at;
    let (first, at) = negative(source, room, at, exists, queries)?;
    let (rest, at) = later_product_parts(source, room, at, exists, queries)?;
    Ok((multiplied(source.alloc(), token, first, rest)?, at))
}

#[cycle(expression)]
// { (`*` | `/` | `%`) neg }
fn later_product_parts<Q: Fn(u64, u32) -> QueryRead>(
    source: &Source,
    room: u64,
    from: u32,
    exists: &mut QueryList,
    queries: &Q,
) -> Result<(ProductPartList, u32), Refusal>
    requires room { 0 < room }
    requires queries { ReadsQueries source.now room (Q.pre queries.now) (Q.post queries.now) }
    ensures { ReadsWith (λ parts. map (product_part_tree source.now.names) parts.items) source.now from exists.old.items exists.new.items result
        (λ start ts. in_front [] (read_many product_kinds (read_product_part (nested (room - 1))) room start ts)) }
{
    let mut parts = Vec::new(source.alloc());
    let mut at = from;
    for _ in 0..room {
        if !is_product_op_at(source, at) {
            return Ok((parts, at));
        }
        let (part, next) = later_product_part(source, room, at, exists, queries)?;
        parts.push(part)?;
        at = next;
    }
    Ok((parts, at))
}

#[tactic(auto, unfolding(gc_parse_readers::specs::ExpressionReaders::read_product_part))]
#[cycle(expression)]
// (`*` | `/` | `%`) neg
fn later_product_part<Q: Fn(u64, u32) -> QueryRead>(
    source: &Source,
    room: u64,
    at: u32,
    exists: &mut QueryList,
    queries: &Q,
) -> Result<(ProductPart, u32), Refusal>
    requires room { 0 < room }
    requires queries { ReadsQueries source.now room (Q.pre queries.now) (Q.post queries.now) }
    ensures { ReadsWith (product_part_tree source.now.names) source.now at exists.old.items exists.new.items result (read_product_part (nested (room - 1))) }
{
    let (op, at) = product_op(source, at)?;
    let (part, at) = negative(source, room, at, exists, queries)?;
    Ok((product_part(op, part), at))
}
