ghost use Rattle.std.specs.Prelude.{◌≡◌, ◌<◌, ◌^◌, ℕ, map};
ghost use Rattle.gc_expr.specs.Trees.{renamed, row};
ghost use Rattle.gc_expr.specs.Views.{name_of, numbered_expr, numbered_node, numbered_sum_part, numbered_product_part};
ghost use Rattle.gc_sorts.specs.declared.form.Takes.TheVariants as takes;
ghost use Rattle.gc_sorts.specs.Breaches.{first_among};
ghost use Rattle.gc_sorts.specs.Expressions.{form, node_form, misfit, unknown_if, is_taken, is_comparable, left_takes, right_takes, fold_takes, name_breaches, expression_breaches};

use crate::breach::{Breach, SortRule, noted, noted_if};
use crate::form::{Form, Takes};
use crate::standing::Place;
use gc_base::Sym;
use gc_expr::{Comparison, Expr, ExprList, ExprNode, Fold, ProductPartList, SumPartList};

// What is known of an expression.
#[tactic(auto, unfolding(gc_expr::specs::Trees::renamed, gc_expr::specs::Views::numbered_expr, gc_expr::specs::Views::numbered_node))]
fn form(place: &Place, expr: &Expr) -> Form
    ensures { result ≡ form place.now.at (renamed (name_of place.now.names) (numbered_expr expr.now)) }
{
    node_form(place, &expr.node)
}

#[tactic(auto, unfolding(gc_expr::specs::Trees::renamed, gc_expr::specs::Views::numbered_expr, gc_expr::specs::Views::numbered_node))]
fn node_form(place: &Place, node: &ExprNode) -> Form
    ensures { result ≡ node_form place.now.at (renamed (name_of place.now.names) (numbered_node node.now)) }
{
    match node {
        ExprNode::Var(name) => place.form_of(*name),
        ExprNode::NodeAt(_, _) => Form::Node,
        ExprNode::EdgeAt(_, _) => Form::Edge,
        ExprNode::Labelled(_, _)
        | ExprNode::Compare(_, _, _)
        | ExprNode::Not(_)
        | ExprNode::And(_)
        | ExprNode::Or(_)
        | ExprNode::Exists(_) => Form::Condition,
        _ => Form::Value,
    }
}

// Whether two operands of `=` may be compared.
fn is_comparable(left: Form, right: Form) -> bool
    ensures { result ≡ is_comparable left right }
{
    match left {
        Form::Value => right == Form::Value,
        Form::Node => right == Form::Node,
        Form::Edge => right == Form::Edge,
        Form::Stored => right == Form::Stored,
        _ => false,
    }
}

// Whether a place takes what is known.
fn is_taken(takes: Takes, form: Form) -> bool
    ensures { result ≡ is_taken takes form }
{
    match takes {
        Takes::Anything => true,
        Takes::Condition => form == Form::Condition,
        Takes::Value => form == Form::Value,
        Takes::Described => matches!(form, Form::Node | Form::Edge | Form::Stored | Form::Kept),
        Takes::Counted => form != Form::Condition,
        Takes::Walked => matches!(form, Form::Stored | Form::Found | Form::Kept),
        Takes::Like(Form::Unknown) => true,
        Takes::Like(other) => is_comparable(other, form),
    }
}

/// The first breach of those so far and of what stands at a token where a place takes some forms.
pub(crate) fn misfit(found: Option<Breach>, takes: Takes, form: Form, token: u64) -> Option<Breach>
    ensures { result ≡ first_among found (misfit takes form token) }
{
    match form {
        Form::Unknown => found,
        Form::All => noted(found, SortRule::AllNotProjected, token),
        _ => noted_if(found, !is_taken(takes, form), SortRule::SortClash, token),
    }
}

/// The first breach of those so far and of a name that is not in scope.
pub(crate) fn unknown_if(found: Option<Breach>, form: Form, token: u64) -> Option<Breach>
    ensures { result ≡ first_among found (unknown_if form token) }
{
    match form {
        Form::Unknown => noted(found, SortRule::UnknownName, token),
        _ => found,
    }
}

/// The first breach of those so far and of a name at a token where a place takes some forms.
pub(crate) fn name_at(
    found: Option<Breach>,
    place: &Place,
    takes: Takes,
    name: Sym,
    token: u64,
) -> Option<Breach>
    ensures { result ≡ first_among found (name_breaches place.now.at takes (name_of place.now.names name) token) }
{
    let form = place.form_of(name);
    let found = unknown_if(found, form, token);
    misfit(found, takes, form, token)
}

fn left_takes(how: Comparison) -> Takes
    ensures { result ≡ left_takes how }
{
    match how {
        Comparison::Equal | Comparison::Unequal => Takes::Anything,
        _ => Takes::Value,
    }
}

fn right_takes(how: Comparison, left: Form) -> Takes
    ensures { result ≡ right_takes how left }
{
    match how {
        Comparison::Equal | Comparison::Unequal => Takes::Like(left),
        _ => Takes::Value,
    }
}

fn fold_takes(fold: Fold) -> Takes
    ensures { result ≡ fold_takes fold }
{
    match fold {
        Fold::Rows | Fold::Count => Takes::Counted,
        _ => Takes::Value,
    }
}

/// The first breach of those so far and of an expression in a place that takes some forms, where
/// aggregates may stand or not.
#[tactic(auto, unfolding(gc_expr::specs::Trees::renamed, gc_expr::specs::Views::numbered_expr, gc_expr::specs::Views::numbered_node, crate::specs::Expressions::expression_breaches))]
#[cycle(expression)]
pub(crate) fn expression(
    found: Option<Breach>,
    place: &Place,
    folds: bool,
    takes: Takes,
    expr: &Expr,
) -> Option<Breach>
    ensures { (at : ℕ) → result ≡ first_among found (expression_breaches place.now.at folds takes at
        (renamed (name_of place.now.names) (numbered_expr expr.now))) }
{
    let token = expr.token as u64;
    let found = misfit(found, takes, node_form(place, &expr.node), token);
    node(found, place, folds, takes, token, &expr.node)
}

#[tactic(auto, unfolding(gc_expr::specs::Trees::renamed, gc_expr::specs::Views::numbered_expr, gc_expr::specs::Views::numbered_node, gc_expr::specs::Views::numbered_sum_part, gc_expr::specs::Views::numbered_product_part, crate::specs::Expressions::expression_breaches))]
#[cycle(expression)]
fn node(
    found: Option<Breach>,
    place: &Place,
    folds: bool,
    takes: Takes,
    at: u64,
    node: &ExprNode,
) -> Option<Breach>
    requires { at < 2 ^ 32 }
    ensures { result ≡ first_among found (expression_breaches place.now.at folds takes at (renamed (name_of place.now.names) (numbered_node node.now))) }
{
    match node {
        ExprNode::Number(_) | ExprNode::Text(_) | ExprNode::Truth(_) => found,
        ExprNode::Var(name) => unknown_if(found, place.form_of(*name), at),
        ExprNode::Property(of, _) | ExprNode::Labelled(of, _) => {
            expression(found, place, folds, Takes::Described, of)
        }
        ExprNode::NodeAt(path, index) | ExprNode::EdgeAt(path, index) => {
            let found = name_at(found, place, Takes::Walked, *path, at + 2);
            expression(found, place, folds, Takes::Value, index)
        }
        ExprNode::Length(path) => name_at(found, place, Takes::Walked, *path, at + 2),
        ExprNode::Aggregate(fold, operand) => {
            let found = noted_if(found, !folds, SortRule::AggregateHere, at);
            match operand {
                None => found,
                Some(of) => expression(found, place, false, fold_takes(*fold), of),
            }
        }
        ExprNode::Negate(of) => expression(found, place, folds, Takes::Value, of),
        ExprNode::Sum(first, rest) => {
            let found = expression(found, place, folds, Takes::Value, first);
            sum_parts(found, place, folds, rest)
        }
        ExprNode::Product(first, rest) => {
            let found = expression(found, place, folds, Takes::Value, first);
            product_parts(found, place, folds, rest)
        }
        ExprNode::Compare(how, left, right) => {
            let found = expression(found, place, folds, left_takes(*how), left);
            let takes = right_takes(*how, form(place, left));
            expression(found, place, folds, takes, right)
        }
        ExprNode::Not(of) => expression(found, place, folds, Takes::Condition, of),
        ExprNode::And(parts) | ExprNode::Or(parts) => conditions(found, place, folds, parts),
        ExprNode::Exists(number) => {
            noted_if(found, !place.may_ask(*number), SortRule::ExistsForm, at)
        }
    }
}

#[tactic(auto, unfolding(gc_expr::specs::Trees::renamed, gc_expr::specs::Views::numbered_expr, crate::specs::Expressions::expression_breaches))]
#[cycle(expression)]
fn conditions(found: Option<Breach>, place: &Place, folds: bool, parts: &ExprList) -> Option<Breach>
    ensures { (at : ℕ) → result ≡ first_among found (expression_breaches place.now.at folds takes.Condition at
        (renamed (name_of place.now.names) (row (map numbered_expr parts.now.items)))) }
{
    let mut found = found;
    for part in parts {
        found = expression(found, place, folds, Takes::Condition, part);
    }
    found
}

#[tactic(auto, unfolding(gc_expr::specs::Trees::renamed, gc_expr::specs::Views::numbered_expr, gc_expr::specs::Views::numbered_sum_part, crate::specs::Expressions::expression_breaches))]
#[cycle(expression)]
fn sum_parts(
    found: Option<Breach>,
    place: &Place,
    folds: bool,
    parts: &SumPartList,
) -> Option<Breach>
    ensures { (at : ℕ) → result ≡ first_among found (expression_breaches place.now.at folds takes.Value at
        (renamed (name_of place.now.names) (row (map numbered_sum_part parts.now.items)))) }
{
    let mut found = found;
    for part in parts {
        found = expression(found, place, folds, Takes::Value, &part.part);
    }
    found
}

#[tactic(auto, unfolding(gc_expr::specs::Trees::renamed, gc_expr::specs::Views::numbered_expr, gc_expr::specs::Views::numbered_product_part, crate::specs::Expressions::expression_breaches))]
#[cycle(expression)]
fn product_parts(
    found: Option<Breach>,
    place: &Place,
    folds: bool,
    parts: &ProductPartList,
) -> Option<Breach>
    ensures { (at : ℕ) → result ≡ first_among found (expression_breaches place.now.at folds takes.Value at
        (renamed (name_of place.now.names) (row (map numbered_product_part parts.now.items)))) }
{
    let mut found = found;
    for part in parts {
        found = expression(found, place, folds, Takes::Value, &part.part);
    }
    found
}
