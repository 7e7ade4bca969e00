#![tactic(auto, unfolding(gc_expr::specs::Views::numbered_expr, gc_expr::specs::Views::numbered_node, gc_expr::specs::Views::numbered_sum_part, gc_expr::specs::Views::numbered_product_part, crate::specs::Names::names_in))]

ghost use Rattle.std.specs.Prelude.{◌≡◌, ◌++◌, ◌∷◌, [], map, IfOk, OnOk};
ghost use Rattle.gc_build.specs.Names.{names_in};
ghost use Rattle.gc_expr.specs.Trees.{maybe, row};
ghost use Rattle.gc_expr.specs.Views.{unboxed, numbered_expr, numbered_sum_part, numbered_product_part};

use gc_base::{Memory, Sym};
use gc_expr::{Expr, ExprNode, ProductPart, SumPart};
use std::alloc::Global;

/// The variables that occur in an expression, in the order of the text.
pub(crate) fn names_in(alloc: Global, expr: &Expr) -> Result<Vec<Sym>, Memory>
    ensures { IfOk result (λ names. names.items ≡ names_in (numbered_expr expr.now)) }
{
    let mut names = Vec::new(alloc);
    add(&mut names, expr)?;
    Ok(names)
}

// Adds the variables of an expression.
#[cycle(names)]
fn add(names: &mut Vec<Sym>, expr: &Expr) -> Result<(), Memory>
    ensures { OnOk result (names.new.items ≡ names.old.items ++ names_in (numbered_expr expr.now)) }
{
    match &expr.node {
        ExprNode::Var(name) => add_one(names, *name),
        ExprNode::Property(of, _) => add(names, of),
        ExprNode::Labelled(of, _) => add(names, of),
        ExprNode::NodeAt(path, at) => {
            add_one(names, *path)?;
            add(names, at)
        }
        ExprNode::EdgeAt(path, at) => {
            add_one(names, *path)?;
            add(names, at)
        }
        ExprNode::Length(path) => add_one(names, *path),
        ExprNode::Aggregate(_, operand) => add_if(names, operand),
        ExprNode::Negate(of) => add(names, of),
        ExprNode::Sum(first, rest) => {
            add(names, first)?;
            add_sum(names, rest)
        }
        ExprNode::Product(first, rest) => {
            add(names, first)?;
            add_product(names, rest)
        }
        ExprNode::Compare(_, left, right) => {
            add(names, left)?;
            add(names, right)
        }
        ExprNode::Not(of) => add(names, of),
        ExprNode::And(parts) => add_parts(names, parts),
        ExprNode::Or(parts) => add_parts(names, parts),
        ExprNode::Number(_) | ExprNode::Text(_) | ExprNode::Truth(_) | ExprNode::Exists(_) => Ok(
            (),
        ),
    }
}

// Adds the variables of the operand of an aggregate, if it has one.
#[cycle(names)]
fn add_if(names: &mut Vec<Sym>, operand: &Option<Box<Expr>>) -> Result<(), Memory>
    ensures { OnOk result (names.new.items ≡ names.old.items ++ names_in (maybe (unboxed (λ e. numbered_expr e.value) operand.now))) }
{
    match operand {
        None => Ok(()),
        Some(of) => add(names, of),
    }
}

// Adds the variables of several expressions.
#[cycle(names)]
fn add_parts(names: &mut Vec<Sym>, parts: &[Expr]) -> Result<(), Memory>
    ensures { OnOk result (names.new.items ≡ names.old.items ++ names_in (row (map numbered_expr parts.now))) }
{
    for part in parts {
        add(names, part)?;
    }
    Ok(())
}

// Adds the variables of the later parts of a sum.
#[cycle(names)]
fn add_sum(names: &mut Vec<Sym>, parts: &[SumPart]) -> Result<(), Memory>
    ensures { OnOk result (names.new.items ≡ names.old.items ++ names_in (row (map numbered_sum_part parts.now))) }
{
    for part in parts {
        add(names, &part.part)?;
    }
    Ok(())
}

// Adds the variables of the later parts of a product.
#[cycle(names)]
fn add_product(names: &mut Vec<Sym>, parts: &[ProductPart]) -> Result<(), Memory>
    ensures { OnOk result (names.new.items ≡ names.old.items ++ names_in (row (map numbered_product_part parts.now))) }
{
    for part in parts {
        add(names, &part.part)?;
    }
    Ok(())
}

// Adds a variable.
fn add_one(names: &mut Vec<Sym>, name: Sym) -> Result<(), Memory>
    ensures { OnOk result (names.new.items ≡ names.old.items ++ name ∷ []) }
{
    names.push(name)?;
    Ok(())
}
