//! Writing expressions.
ghost use Rattle.std.specs.Prelude.{◌≡◌, ◌∷◌, ◌++◌, [], OnOk, map, codes, List, ℕ, slice_index_or};
ghost use Rattle.std.specs.List.{flat_map};
ghost use Rattle.gc_expr.specs.Trees.{renamed};
ghost use Rattle.gc_expr.specs.Views.{Names, name_of, numbered_expr, numbered_node, numbered_product_part, numbered_sum_part};
ghost use Rattle.gc_lex.specs.declared.token.Mark.TheVariants as mark;
ghost use Rattle.gc_print_query.specs.AskedQueries.{HasTexts, asked_pieces};
ghost use Rattle.gc_print_query.specs.Pieces.{Piece, Blank, before_list, joined, written};
ghost use Rattle.gc_print_query.specs.ExpressionPieces.{between, closed, comparison_piece, fold_word, indexed, mark_piece, parenthesized, parts_of, product_piece, sign_piece, truth_word, word};

use crate::names::write_name;
use crate::pieces::{write_blank, write_mark, write_number, write_text, write_word};
use gc_ast::{NameTable, QueryList};
use gc_base::{Bytes, Memory, Name, Sym};
use gc_expr::{
    Comparison, Expr, ExprList, ExprNode, Fold, ProductOp, ProductPartList, SumPartList,
};
use gc_lex::Mark;

/// What the expressions of a query speak of: names, and the queries of EXISTS, whose texts are
/// written already.
#[derive(Drop)]
pub(crate) struct Asked<'a> {
    pub names: &'a NameTable,
    pub depth: usize,
    pub queries: &'a QueryList,
    pub texts: &'a [Bytes],
}

/// How loosely expressions hold together, the tightest first.
const PRIMARY: u8 = 0;

const POSTFIX: u8 = 1;

const SIGNED: u8 = 2;

const PRODUCT: u8 = 3;

const SUM: u8 = 4;

const COMPARISON: u8 = 5;

const NEGATION: u8 = 6;

const CONJUNCTION: u8 = 7;

const DISJUNCTION: u8 = 8;

#[tactic(auto, unfolding(gc_expr::specs::Views::numbered_node, gc_expr::specs::Trees::renamed, crate::specs::ExpressionPieces::parts_of))]
// How loosely an expression holds together.
fn rank(node: &ExprNode) -> u8
    ensures { (exists : List (List Piece)) (names : Names) → result ≡ (parts_of exists (renamed (name_of names) (numbered_node node.now))).rank }
{
    match node {
        ExprNode::Property(_, _) => POSTFIX,
        ExprNode::Labelled(_, _) => POSTFIX,
        ExprNode::Negate(_) => SIGNED,
        ExprNode::Product(_, _) => PRODUCT,
        ExprNode::Sum(_, _) => SUM,
        ExprNode::Compare(_, _, _) => COMPARISON,
        ExprNode::Not(_) => NEGATION,
        ExprNode::And(_) => CONJUNCTION,
        ExprNode::Or(_) => DISJUNCTION,
        _ => PRIMARY,
    }
}

#[tactic(auto, unfolding(gc_expr::specs::Views::numbered_expr, gc_expr::specs::Views::numbered_node, gc_expr::specs::Trees::renamed, crate::specs::ExpressionPieces::parts_of))]
#[cycle(expressions)]
/// An expression.
pub(crate) fn write_expr(text: &mut Vec<u8>, asked: &Asked<'_>, expr: &Expr) -> Result<(), Memory>
    requires { HasTexts asked.now }
    ensures { OnOk result (text.new.items ≡ written text.old.items
        (parts_of (asked_pieces asked.now) (renamed (name_of asked.now.names.now) (numbered_expr expr.now))).pieces) }
{
    write_node(text, asked, &expr.node)
}

#[tactic(auto, unfolding(gc_expr::specs::Views::numbered_expr, gc_expr::specs::Views::numbered_node, gc_expr::specs::Trees::renamed, crate::specs::ExpressionPieces::parts_of))]
#[cycle(expressions)]
// An operand, in parentheses where it is looser than allowed.
fn write_closed(text: &mut Vec<u8>, asked: &Asked<'_>, expr: &Expr, most: u8) -> Result<(), Memory>
    requires { HasTexts asked.now }
    ensures { OnOk result (text.new.items ≡ written text.old.items
        (closed most (parts_of (asked_pieces asked.now) (renamed (name_of asked.now.names.now) (numbered_expr expr.now))))) }
{
    if rank(&expr.node) <= most {
        return write_node(text, asked, &expr.node);
    }
    write_mark(text, Mark::OpenParenthesis)?;
    write_node(text, asked, &expr.node)?;
    write_mark(text, Mark::CloseParenthesis)
}

#[tactic(auto, unfolding(gc_expr::specs::Views::numbered_expr, gc_expr::specs::Views::numbered_node, gc_expr::specs::Views::numbered_sum_part, gc_expr::specs::Views::numbered_product_part, gc_expr::specs::Trees::renamed, crate::specs::ExpressionPieces::parts_of))]
#[cycle(expressions)]
// What an expression is.
fn write_node(text: &mut Vec<u8>, asked: &Asked<'_>, node: &ExprNode) -> Result<(), Memory>
    requires { HasTexts asked.now }
    ensures { OnOk result (text.new.items ≡ written text.old.items
        (parts_of (asked_pieces asked.now) (renamed (name_of asked.now.names.now) (numbered_node node.now))).pieces) }
{
    match node {
        ExprNode::Number(number) => write_number(text, *number),
        ExprNode::Text(contents) => write_text(text, contents.text()),
        ExprNode::Truth(truth) => write_word(text, truth_word(*truth)),
        ExprNode::Var(name) => write_name(text, asked.names, *name),
        ExprNode::Property(of, key) => write_suffixed(text, asked, of, Mark::Dot, key),
        ExprNode::Labelled(of, label) => write_suffixed(text, asked, of, Mark::Colon, label),
        ExprNode::NodeAt(path, at) => write_indexed(text, asked, b"nodes", *path, at),
        ExprNode::EdgeAt(path, at) => write_indexed(text, asked, b"edges", *path, at),
        ExprNode::Length(path) => write_length(text, asked.names, *path),
        ExprNode::Aggregate(fold, None) => write_rows(text, *fold),
        ExprNode::Aggregate(fold, Some(of)) => write_fold(text, asked, *fold, of),
        ExprNode::Negate(of) => write_negated(text, asked, of),
        ExprNode::Sum(first, rest) => {
            write_closed(text, asked, first, PRODUCT)?;
            write_sum_parts(text, asked, rest)
        }
        ExprNode::Product(first, rest) => {
            write_closed(text, asked, first, SIGNED)?;
            write_product_parts(text, asked, rest)
        }
        ExprNode::Compare(how, left, right) => {
            write_closed(text, asked, left, SUM)?;
            write_comparison(text, *how)?;
            write_closed(text, asked, right, SUM)
        }
        ExprNode::Not(of) => write_not(text, asked, of),
        ExprNode::And(parts) => write_parts(text, asked, parts, b"AND", NEGATION),
        ExprNode::Or(parts) => write_parts(text, asked, parts, b"OR", CONJUNCTION),
        ExprNode::Exists(number) => write_exists(text, asked, *number),
    }
}

fn truth_word(truth: bool) -> &'static [u8]
    ensures { result.now ≡ truth_word truth }
{
    if truth { b"TRUE" } else { b"FALSE" }
}

#[tactic(auto, using(crate::proofs::WrittenPieces::written_append))]
#[cycle(expressions)]
// A primary with `.` or `:` and a word behind it.
fn write_suffixed(
    text: &mut Vec<u8>,
    asked: &Asked<'_>,
    of: &Expr,
    mark: Mark,
    name: &Name,
) -> Result<(), Memory>
    requires { HasTexts asked.now }
    ensures { OnOk result (text.new.items ≡ written text.old.items
        (closed 0 (parts_of (asked_pieces asked.now) (renamed (name_of asked.now.names.now) (numbered_expr of.now)))
        ++ mark_piece mark ∷ word name.now ∷ [])) }
{
    write_closed(text, asked, of, PRIMARY)?;
    write_mark(text, mark)?;
    write_word(text, name.bytes())
}

#[tactic(auto, using(crate::proofs::WrittenPieces::written_append))]
#[cycle(expressions)]
// `nodes(p)[i]` and its kin.
fn write_indexed(
    text: &mut Vec<u8>,
    asked: &Asked<'_>,
    what: &[u8],
    path: Sym,
    at: &Expr,
) -> Result<(), Memory>
    requires { HasTexts asked.now }
    ensures { OnOk result (text.new.items ≡ written text.old.items (indexed what.now (name_of asked.now.names.now path)
        (parts_of (asked_pieces asked.now) (renamed (name_of asked.now.names.now) (numbered_expr at.now))).pieces)) }
{
    write_word(text, what)?;
    write_mark(text, Mark::OpenParenthesis)?;
    write_name(text, asked.names, path)?;
    write_mark(text, Mark::CloseParenthesis)?;
    write_mark(text, Mark::OpenBracket)?;
    write_expr(text, asked, at)?;
    write_mark(text, Mark::CloseBracket)
}

// `length(p)`
fn write_length(text: &mut Vec<u8>, names: &NameTable, path: Sym) -> Result<(), Memory>
    ensures { OnOk result (text.new.items ≡ written text.old.items (word (codes "length") ∷ parenthesized (word (name_of names.now path) ∷ []))) }
{
    write_word(text, b"length")?;
    write_mark(text, Mark::OpenParenthesis)?;
    write_name(text, names, path)?;
    write_mark(text, Mark::CloseParenthesis)
}

fn fold_word(fold: Fold) -> &'static [u8]
    ensures { result.now ≡ fold_word fold }
{
    match fold {
        Fold::Rows => b"COUNT",
        Fold::Count => b"COUNT",
        Fold::Sum => b"SUM",
        Fold::Min => b"MIN",
        Fold::Max => b"MAX",
        Fold::Collect => b"COLLECT",
    }
}

// `COUNT(*)`
fn write_rows(text: &mut Vec<u8>, fold: Fold) -> Result<(), Memory>
    ensures { OnOk result (text.new.items ≡ written text.old.items (word (fold_word fold) ∷ parenthesized (mark_piece mark.Star ∷ []))) }
{
    write_word(text, fold_word(fold))?;
    write_mark(text, Mark::OpenParenthesis)?;
    write_mark(text, Mark::Star)?;
    write_mark(text, Mark::CloseParenthesis)
}

#[tactic(auto, using(crate::proofs::WrittenPieces::written_append))]
#[cycle(expressions)]
// What folds the values of an operand.
fn write_fold(text: &mut Vec<u8>, asked: &Asked<'_>, fold: Fold, of: &Expr) -> Result<(), Memory>
    requires { HasTexts asked.now }
    ensures { OnOk result (text.new.items ≡ written text.old.items (word (fold_word fold)
        ∷ parenthesized (parts_of (asked_pieces asked.now) (renamed (name_of asked.now.names.now) (numbered_expr of.now))).pieces)) }
{
    write_word(text, fold_word(fold))?;
    write_mark(text, Mark::OpenParenthesis)?;
    write_expr(text, asked, of)?;
    write_mark(text, Mark::CloseParenthesis)
}

#[cycle(expressions)]
// `-` and an operand.
fn write_negated(text: &mut Vec<u8>, asked: &Asked<'_>, of: &Expr) -> Result<(), Memory>
    requires { HasTexts asked.now }
    ensures { OnOk result (text.new.items ≡ written text.old.items (mark_piece mark.Minus
        ∷ closed 1 (parts_of (asked_pieces asked.now) (renamed (name_of asked.now.names.now) (numbered_expr of.now))))) }
{
    write_mark(text, Mark::Minus)?;
    write_closed(text, asked, of, POSTFIX)
}

#[cycle(expressions)]
// NOT and an operand.
fn write_not(text: &mut Vec<u8>, asked: &Asked<'_>, of: &Expr) -> Result<(), Memory>
    requires { HasTexts asked.now }
    ensures { OnOk result (text.new.items ≡ written text.old.items (word (codes "NOT") ∷ Blank
        ∷ closed 5 (parts_of (asked_pieces asked.now) (renamed (name_of asked.now.names.now) (numbered_expr of.now))))) }
{
    write_word(text, b"NOT")?;
    write_blank(text)?;
    write_closed(text, asked, of, COMPARISON)
}

fn write_operator(text: &mut Vec<u8>, how: Comparison) -> Result<(), Memory>
    ensures { OnOk result (text.new.items ≡ written text.old.items (comparison_piece how ∷ [])) }
{
    match how {
        Comparison::Equal => write_mark(text, Mark::Equals),
        Comparison::Unequal => write_mark(text, Mark::Differs),
        Comparison::Less => write_mark(text, Mark::Less),
        Comparison::LessEqual => write_mark(text, Mark::AtMost),
        Comparison::Greater => write_mark(text, Mark::Greater),
        Comparison::GreaterEqual => write_mark(text, Mark::AtLeast),
        Comparison::Member => write_word(text, b"IN"),
        Comparison::Included => write_word(text, b"SUBSET"),
    }
}

// A comparison between spaces.
fn write_comparison(text: &mut Vec<u8>, how: Comparison) -> Result<(), Memory>
    ensures { OnOk result (text.new.items ≡ written text.old.items (Blank ∷ comparison_piece how ∷ Blank ∷ [])) }
{
    write_blank(text)?;
    write_operator(text, how)?;
    write_blank(text)
}

#[cycle(expressions)]
// The later parts of a sum.
fn write_sum_parts(text: &mut Vec<u8>, asked: &Asked<'_>, rest: &SumPartList) -> Result<(), Memory>
    requires { HasTexts asked.now }
    ensures { OnOk result (text.new.items ≡ written text.old.items
        (flat_map (λ part. parts_of (asked_pieces asked.now) (renamed (name_of asked.now.names.now) (numbered_sum_part part))) rest.now.items)) }
{
    for part in rest {
        write_sum_part(text, asked, part.minus, &part.part)?;
    }
    Ok(())
}

#[cycle(expressions)]
// A later part of a sum.
fn write_sum_part(
    text: &mut Vec<u8>,
    asked: &Asked<'_>,
    minus: bool,
    part: &Expr,
) -> Result<(), Memory>
    requires { HasTexts asked.now }
    ensures { OnOk result (text.new.items ≡ written text.old.items (Blank ∷ sign_piece minus ∷ Blank
        ∷ closed 3 (parts_of (asked_pieces asked.now) (renamed (name_of asked.now.names.now) (numbered_expr part.now))))) }
{
    write_blank(text)?;
    write_mark(text, if minus { Mark::Minus } else { Mark::Plus })?;
    write_blank(text)?;
    write_closed(text, asked, part, PRODUCT)
}

#[cycle(expressions)]
// The later parts of a product.
fn write_product_parts(
    text: &mut Vec<u8>,
    asked: &Asked<'_>,
    rest: &ProductPartList,
) -> Result<(), Memory>
    requires { HasTexts asked.now }
    ensures { OnOk result (text.new.items ≡ written text.old.items
        (flat_map (λ part. parts_of (asked_pieces asked.now) (renamed (name_of asked.now.names.now) (numbered_product_part part))) rest.now.items)) }
{
    for part in rest {
        write_product_part(text, asked, part.op, &part.part)?;
    }
    Ok(())
}

fn product_mark(op: ProductOp) -> Mark
    ensures { mark_piece result ≡ product_piece op }
{
    match op {
        ProductOp::Times => Mark::Star,
        ProductOp::Divided => Mark::Slash,
        ProductOp::Remainder => Mark::Percent,
    }
}

#[cycle(expressions)]
// A later part of a product.
fn write_product_part(
    text: &mut Vec<u8>,
    asked: &Asked<'_>,
    op: ProductOp,
    part: &Expr,
) -> Result<(), Memory>
    requires { HasTexts asked.now }
    ensures { OnOk result (text.new.items ≡ written text.old.items (Blank ∷ product_piece op ∷ Blank
        ∷ closed 2 (parts_of (asked_pieces asked.now) (renamed (name_of asked.now.names.now) (numbered_expr part.now))))) }
{
    write_blank(text)?;
    write_mark(text, product_mark(op))?;
    write_blank(text)?;
    write_closed(text, asked, part, SIGNED)
}

// A word between spaces, but not before the first of a list.
fn write_between(text: &mut Vec<u8>, i: usize, bytes: &[u8]) -> Result<(), Memory>
    ensures { OnOk result (text.new.items ≡ written text.old.items (before_list i (between bytes.now))) }
{
    if i > 0 {
        write_blank(text)?;
        write_word(text, bytes)?;
        write_blank(text)?;
    }
    Ok(())
}

#[cycle(expressions)]
// Expressions with a word between them.
fn write_parts(
    text: &mut Vec<u8>,
    asked: &Asked<'_>,
    parts: &ExprList,
    bytes: &[u8],
    most: u8,
) -> Result<(), Memory>
    requires { HasTexts asked.now }
    ensures { OnOk result (text.new.items ≡ written text.old.items (joined (between bytes.now)
        (map (λ part. closed most (parts_of (asked_pieces asked.now) (renamed (name_of asked.now.names.now) (numbered_expr part)))) parts.now.items))) }
{
    for (i, part) in parts.iter().enumerate() {
        write_between(text, i, bytes)?;
        write_closed(text, asked, part, most)?;
    }
    Ok(())
}

// The query of an EXISTS, whose text is there already.
fn write_asked(text: &mut Vec<u8>, asked: &Asked<'_>, number: u32) -> Result<(), Memory>
    requires { HasTexts asked.now }
    ensures { OnOk result (text.new.items ≡ written text.old.items (slice_index_or (asked_pieces asked.now) number [])) }
{
    let at = number as usize;
    if at >= asked.texts.len() {
        return Ok(());
    }
    text.extend_from_slice(asked.texts[at].as_slice())?;
    Ok(())
}

// EXISTS and its query.
fn write_exists(text: &mut Vec<u8>, asked: &Asked<'_>, number: u32) -> Result<(), Memory>
    requires { HasTexts asked.now }
    ensures { OnOk result (text.new.items ≡ written text.old.items (word (codes "EXISTS") ∷ Blank ∷ slice_index_or (asked_pieces asked.now) number [])) }
{
    write_word(text, b"EXISTS")?;
    write_blank(text)?;
    write_asked(text, asked, number)
}
