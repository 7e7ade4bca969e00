ghost use Rattle.std.specs.Prelude.{List, drop, codes, true, false};
ghost use Rattle.gc_ast.specs.Trees.{Tree, AQuery};
ghost use Rattle.gc_expr.specs.Trees as tree;
ghost use Rattle.gc_expr.specs.Trees.{At};
ghost use Rattle.gc_expr.specs.Views.{expr_tree};
ghost use Rattle.gc_parse_readers.specs.Readers.{read_made, read_number, read_text, read_name, read_the_word};
ghost use Rattle.gc_parse_readers.specs.ExpressionReaders.{read_length, read_rows};
ghost use Rattle.gc_parse_source.specs.Results.{GivesWith};
ghost use Rattle.gc_parse_readers.specs.Points.{point};

use gc_expr::Expr;
use gc_lex::Mark;
use gc_parse_source::{Refusal, Source};

// A number.
pub(crate) fn number(source: &Source, at: u32) -> Result<(Expr, u32), Refusal>
    ensures { (queries : List (Tree AQuery)) → GivesWith (expr_tree source.now.names) queries source.now.tokens result
        (read_made read_number (λ n v. At n (tree.Number v)) (point at queries) (drop at source.now.tokens)) }
{
    let (number, next) = source.number(at)?;
    Ok((Expr::number(at, number), next))
}

// A text.
pub(crate) fn text(source: &Source, at: u32) -> Result<(Expr, u32), Refusal>
    ensures { (queries : List (Tree AQuery)) → GivesWith (expr_tree source.now.names) queries source.now.tokens result
        (read_made read_text (λ n v. At n (tree.Text v)) (point at queries) (drop at source.now.tokens)) }
{
    let (text, next) = source.text(at)?;
    Ok((Expr::text(at, text), next))
}

// `TRUE`
pub(crate) fn yes(source: &Source, at: u32) -> Result<(Expr, u32), Refusal>
    ensures { (queries : List (Tree AQuery)) → GivesWith (expr_tree source.now.names) queries source.now.tokens result
        (read_made (read_the_word (codes "TRUE")) (λ n v. At n (tree.Truth true)) (point at queries) (drop at source.now.tokens)) }
{
    let next = source.the_word(at, "TRUE")?;
    Ok((Expr::truth(at, true), next))
}

// `FALSE`
pub(crate) fn no(source: &Source, at: u32) -> Result<(Expr, u32), Refusal>
    ensures { (queries : List (Tree AQuery)) → GivesWith (expr_tree source.now.names) queries source.now.tokens result
        (read_made (read_the_word (codes "FALSE")) (λ n v. At n (tree.Truth false)) (point at queries) (drop at source.now.tokens)) }
{
    let next = source.the_word(at, "FALSE")?;
    Ok((Expr::truth(at, false), next))
}

// A variable.
pub(crate) fn variable(source: &Source, at: u32) -> Result<(Expr, u32), Refusal>
    ensures { (queries : List (Tree AQuery)) → GivesWith (expr_tree source.now.names) queries source.now.tokens result
        (read_made read_name (λ n v. At n (tree.Var v.name)) (point at queries) (drop at source.now.tokens)) }
{
    let (name, next) = source.name(at)?;
    Ok((Expr::var(at, name.sym), next))
}

#[tactic(auto, unfolding(gc_parse_readers::specs::ExpressionReaders::read_length, gc_parse_readers::specs::ExpressionReaders::read_in_parentheses))]
// `length` `(` name `)`
pub(crate) fn length_of(source: &Source, at: u32) -> Result<(Expr, u32), Refusal>
    ensures { (queries : List (Tree AQuery)) → GivesWith (expr_tree source.now.names) queries source.now.tokens result
        (read_length (point at queries) (drop at source.now.tokens)) }
{
    let token = at;
    let at = source.the_word(at, "length")?;
    let at = source.mark(at, Mark::OpenParenthesis)?;
    let (path, at) = source.name(at)?;
    let at = source.mark(at, Mark::CloseParenthesis)?;
    Ok((Expr::length(token, path.sym), at))
}

#[tactic(auto, unfolding(gc_parse_readers::specs::ExpressionReaders::read_rows, gc_parse_readers::specs::ExpressionReaders::read_in_parentheses))]
// `COUNT` `(` `*` `)`
pub(crate) fn rows(source: &Source, at: u32) -> Result<(Expr, u32), Refusal>
    ensures { (queries : List (Tree AQuery)) → GivesWith (expr_tree source.now.names) queries source.now.tokens result
        (read_rows (point at queries) (drop at source.now.tokens)) }
{
    let token = at;
    let at = source.the_word(at, "COUNT")?;
    let at = source.mark(at, Mark::OpenParenthesis)?;
    let at = source.mark(at, Mark::Star)?;
    let at = source.mark(at, Mark::CloseParenthesis)?;
    Ok((Expr::rows(token), at))
}
