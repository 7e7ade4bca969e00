//! Writing queries.
ghost use Rattle.std.specs.Prelude.{◌≡◌, ◌+◌, ◌∷◌, ◌++◌, [], OnOk, IfOk, map, codes};
ghost use Rattle.std.specs.List.{flat_map};
ghost use Rattle.std.specs.Option.{option_map};
ghost use Rattle.gc_ast.specs.Trees.{maybe};
ghost use Rattle.gc_ast.specs.PatternViews.{named};
ghost use Rattle.gc_ast.specs.QueryViews.{basic_tree, block_tree, formula_tree, head_tree, next_term_tree, optional_tree, query_tree, term_tree};
ghost use Rattle.gc_print_query.specs.Pieces.{Blank, Line, written};
ghost use Rattle.gc_print_query.specs.ExpressionPieces.{word};
ghost use Rattle.gc_print_query.specs.QueryPieces.{clause, enclosed, named_query, op_word, pieces_of};

use crate::constructs::write_items;
use crate::expressions::{Asked, write_expr};
use crate::lists::{deeper, write_located_list, write_path};
use crate::names::write_name;
use crate::pieces::{write_blank, write_line, write_mark, write_word};
use gc_ast::{
    Basic, Formula, Head, HeadList, MatchBlock, NameTable, NextTerm, NextTermList, OptionalBlock,
    OptionalList, Query, QueryList, SetOp, Term,
};
use gc_base::{Bytes, Memory, NameAt};
use gc_lex::Mark;

#[cycle(queries)]
/// A query whose clauses stand on lines of this depth.
pub(crate) fn write_query(
    text: &mut Vec<u8>,
    names: &NameTable,
    depth: usize,
    query: &Query,
) -> Result<(), Memory>
    ensures { OnOk result (text.new.items ≡ written text.old.items (pieces_of depth (query_tree names.now query.now))) }
{
    write_heads(text, names, depth, &query.heads)?;
    write_term(text, names, depth, &query.first)?;
    write_rest(text, names, depth, &query.rest)
}

#[cycle(queries)]
// What a query declares.
fn write_heads(
    text: &mut Vec<u8>,
    names: &NameTable,
    depth: usize,
    heads: &HeadList,
) -> Result<(), Memory>
    ensures { OnOk result (text.new.items ≡ written text.old.items (flat_map (λ h. pieces_of depth (head_tree names.now h)) heads.now.items)) }
{
    for head in heads {
        write_head(text, names, depth, head)?;
    }
    Ok(())
}

#[tactic(auto, unfolding(gc_ast::specs::QueryViews::head_by, gc_ast::specs::QueryViews::query_by, crate::specs::QueryPieces::pieces_of))]
#[cycle(queries)]
// A view or a named graph.
fn write_head(
    text: &mut Vec<u8>,
    names: &NameTable,
    depth: usize,
    head: &Head,
) -> Result<(), Memory>
    ensures { OnOk result (text.new.items ≡ written text.old.items (pieces_of depth (head_tree names.now head.now))) }
{
    match head {
        Head::Path {
            name,
            chains,
            filter,
            cost,
        } => {
            let next = deeper(depth)?;
            write_path(text, names, next, name, chains.as_slice())?;
            write_clause(text, names, next, depth, b"WHERE", filter)?;
            write_clause(text, names, next, depth, b"COST", cost)?;
            write_line(text, depth)
        }
        Head::Graph { name, query } => {
            write_word(text, b"GRAPH")?;
            write_blank(text)?;
            write_named_query(text, names, depth, name, query)?;
            write_line(text, depth)
        }
    }
}

#[cycle(queries)]
/// `g AS (q)`
pub(crate) fn write_named_query(
    text: &mut Vec<u8>,
    names: &NameTable,
    depth: usize,
    name: &NameAt,
    query: &Query,
) -> Result<(), Memory>
    ensures { OnOk result (text.new.items ≡ written text.old.items
        (named_query depth (named names.now name.now) (pieces_of (depth + 1) (query_tree names.now query.now)))) }
{
    write_name(text, names, name.sym)?;
    write_blank(text)?;
    write_word(text, b"AS")?;
    write_blank(text)?;
    write_enclosed(text, names, depth, query)
}

#[cycle(queries)]
// A query in parentheses, on lines of its own.
fn write_enclosed(
    text: &mut Vec<u8>,
    names: &NameTable,
    depth: usize,
    query: &Query,
) -> Result<(), Memory>
    ensures { OnOk result (text.new.items ≡ written text.old.items (enclosed depth (pieces_of (depth + 1) (query_tree names.now query.now)))) }
{
    let next = deeper(depth)?;
    write_mark(text, Mark::OpenParenthesis)?;
    write_line(text, next)?;
    write_query(text, names, next, query)?;
    write_line(text, depth)?;
    write_mark(text, Mark::CloseParenthesis)
}

#[tactic(auto, unfolding(gc_ast::specs::QueryViews::term_by, gc_ast::specs::QueryViews::basic_by, gc_ast::specs::QueryViews::query_by, crate::specs::QueryPieces::pieces_of))]
#[cycle(queries)]
// A term of a query.
fn write_term(
    text: &mut Vec<u8>,
    names: &NameTable,
    depth: usize,
    term: &Term,
) -> Result<(), Memory>
    ensures { OnOk result (text.new.items ≡ written text.old.items (pieces_of depth (term_tree names.now term.now))) }
{
    match term {
        Term::Basic(basic) => write_basic(text, names, depth, basic),
        Term::Graph(name) => write_name(text, names, name.sym),
        Term::Query(query) => write_enclosed(text, names, depth, query),
    }
}

#[cycle(queries)]
// The later terms of a query.
fn write_rest(
    text: &mut Vec<u8>,
    names: &NameTable,
    depth: usize,
    rest: &NextTermList,
) -> Result<(), Memory>
    ensures { OnOk result (text.new.items ≡ written text.old.items (flat_map (λ t. pieces_of depth (next_term_tree names.now t)) rest.now.items)) }
{
    for next in rest {
        write_next(text, names, depth, next)?;
    }
    Ok(())
}

#[tactic(auto, unfolding(gc_ast::specs::QueryViews::next_term_by, gc_ast::specs::QueryViews::term_by, crate::specs::QueryPieces::pieces_of))]
#[cycle(queries)]
// A later term of a query.
fn write_next(
    text: &mut Vec<u8>,
    names: &NameTable,
    depth: usize,
    next: &NextTerm,
) -> Result<(), Memory>
    ensures { OnOk result (text.new.items ≡ written text.old.items (pieces_of depth (next_term_tree names.now next.now))) }
{
    write_line(text, depth)?;
    write_word(text, op_word(next.op))?;
    write_blank(text)?;
    write_term(text, names, depth, &next.term)
}

fn op_word(op: SetOp) -> &'static [u8]
    ensures { result.now ≡ op_word op }
{
    match op {
        SetOp::Union => b"UNION",
        SetOp::Intersect => b"INTERSECT",
        SetOp::Minus => b"MINUS",
    }
}

#[cycle(queries)]
// A CONSTRUCT with its MATCH.
fn write_basic(
    text: &mut Vec<u8>,
    names: &NameTable,
    depth: usize,
    basic: &Basic,
) -> Result<(), Memory>
    ensures { OnOk result (text.new.items ≡ written text.old.items (pieces_of depth (basic_tree names.now basic.now))) }
{
    write_construct(text)?;
    write_items(text, names, depth, &basic.items)?;
    write_match(text, depth)?;
    write_block(text, names, depth, &basic.main)?;
    write_optionals(text, names, depth, &basic.optionals)
}

fn write_construct(text: &mut Vec<u8>) -> Result<(), Memory>
    ensures { OnOk result (text.new.items ≡ written text.old.items (word (codes "CONSTRUCT") ∷ Blank ∷ [])) }
{
    write_word(text, b"CONSTRUCT")?;
    write_blank(text)
}

fn write_match(text: &mut Vec<u8>, depth: usize) -> Result<(), Memory>
    ensures { OnOk result (text.new.items ≡ written text.old.items (Line depth ∷ word (codes "MATCH") ∷ Blank ∷ [])) }
{
    write_line(text, depth)?;
    write_word(text, b"MATCH")?;
    write_blank(text)
}

#[cycle(queries)]
// The patterns of a MATCH and their condition.
fn write_block(
    text: &mut Vec<u8>,
    names: &NameTable,
    depth: usize,
    block: &MatchBlock,
) -> Result<(), Memory>
    ensures { OnOk result (text.new.items ≡ written text.old.items (pieces_of depth (block_tree names.now block.now))) }
{
    let next = deeper(depth)?;
    write_located_list(text, names, next, block.patterns.as_slice())?;
    write_clause(text, names, depth, depth, b"WHERE", &block.filter)
}

#[cycle(queries)]
// OPTIONAL blocks, each on lines of its own.
fn write_optionals(
    text: &mut Vec<u8>,
    names: &NameTable,
    depth: usize,
    optionals: &OptionalList,
) -> Result<(), Memory>
    ensures { OnOk result (text.new.items ≡ written text.old.items
        (flat_map (λ o. Line depth ∷ pieces_of depth (optional_tree names.now o)) optionals.now.items)) }
{
    for optional in optionals {
        write_optional(text, names, depth, optional)?;
    }
    Ok(())
}

#[tactic(auto, unfolding(gc_ast::specs::QueryViews::optional_by, gc_ast::specs::QueryViews::block_by, crate::specs::QueryPieces::pieces_of))]
#[cycle(queries)]
// A line with an OPTIONAL block.
fn write_optional(
    text: &mut Vec<u8>,
    names: &NameTable,
    depth: usize,
    optional: &OptionalBlock,
) -> Result<(), Memory>
    ensures { OnOk result (text.new.items ≡ written text.old.items (Line depth ∷ pieces_of depth (optional_tree names.now optional.now))) }
{
    write_line(text, depth)?;
    write_word(text, b"OPTIONAL")?;
    write_blank(text)?;
    write_block(text, names, depth, &optional.block)
}

#[tactic(auto, unfolding(crate::specs::QueryPieces::pieces_of))]
#[cycle(queries)]
/// An expression on a line of its own, behind a word, if there is one.
pub(crate) fn write_clause(
    text: &mut Vec<u8>,
    names: &NameTable,
    line: usize,
    depth: usize,
    bytes: &[u8],
    formula: &Option<Formula>,
) -> Result<(), Memory>
    ensures { OnOk result (text.new.items ≡ written text.old.items
        (clause line bytes.now (pieces_of depth (maybe (option_map (formula_tree names.now) formula.now))))) }
{
    match formula {
        None => Ok(()),
        Some(formula) => {
            write_line(text, line)?;
            write_word(text, bytes)?;
            write_blank(text)?;
            write_formula(text, names, depth, formula)
        }
    }
}

#[cycle(queries)]
/// An expression with its EXISTS queries.
pub(crate) fn write_formula(
    text: &mut Vec<u8>,
    names: &NameTable,
    depth: usize,
    formula: &Formula,
) -> Result<(), Memory>
    ensures { OnOk result (text.new.items ≡ written text.old.items (pieces_of depth (formula_tree names.now formula.now))) }
{
    let texts = enclosed_texts(text, names, depth, &formula.exists)?;
    let asked = Asked {
        names,
        depth,
        queries: &formula.exists,
        texts: &texts,
    };
    write_expr(text, &asked, &formula.expr)
}

#[cycle(queries)]
// The texts of EXISTS queries.
fn enclosed_texts(
    text: &Vec<u8>,
    names: &NameTable,
    depth: usize,
    queries: &QueryList,
) -> Result<Vec<Bytes>, Memory>
    ensures { IfOk result (λ texts.
        texts.items ≡ map (written []) (map (λ query. enclosed depth (pieces_of (depth + 1) (query_tree names.now query))) queries.now.items)) }
{
    let mut texts = Vec::new(*text.allocator());
    for query in queries {
        let mut own = Vec::new(*text.allocator());
        write_enclosed(&mut own, names, depth, query)?;
        texts.push(Bytes::from_vec(own))?;
    }
    Ok(texts)
}
