ghost use Rattle.std.specs.Prelude.{◌≡◌, IfOk};
ghost use Rattle.gc_ast.specs.PatternViews.{group_term_tree};
ghost use Rattle.gc_ast.specs.QueryViews.{assign_tree, formula_tree};
ghost use Rattle.gc_expr.specs.Views.{numbered_expr};
ghost use Rattle.gc_build_reading.specs.Items.{assignment_of, expression_of, term_of};
ghost use Rattle.gc_build_reading.specs.Namings.{names_of, scope};

use crate::naming::Naming;
use crate::renaming::renamed;
use crate::varying::property_if;
use gc_ast::{Assign, Formula, GroupTerm};
use gc_base::{Duplicate, Memory, Sym};
use gc_build_recipe::{Assignment, Term};
use gc_expr::Expr;

/// An expression over variables.
pub(crate) fn expression(naming: &Naming<'_>, formula: &Formula) -> Result<Expr, Memory>
    ensures { IfOk result (λ e. numbered_expr e ≡ expression_of (scope naming.now) (formula_tree (names_of naming.now) formula.now)) }
{
    renamed(&formula.expr, naming)
}

/// A property that a variable is given.
#[tactic(auto, unfolding(gc_ast::specs::QueryViews::assign_by, gc_ast::specs::QueryViews::formula_by))]
pub(crate) fn assignment(
    naming: &Naming<'_>,
    var: Sym,
    assign: &Assign,
) -> Result<Assignment, Memory>
    ensures { IfOk result (λ a. a ≡ assignment_of (scope naming.now) var (assign_tree (names_of naming.now) assign.now)) }
{
    let property = assign.property.copy()?;
    let value = expression(naming, &assign.value)?;
    Ok(Assignment {
        var,
        token: assign.token,
        property,
        value,
    })
}

/// A term to group by.
pub(crate) fn term(naming: &Naming<'_>, term: &GroupTerm) -> Result<Term, Memory>
    ensures { IfOk result (λ made. made ≡ term_of (scope naming.now) (group_term_tree (names_of naming.now) term.now)) }
{
    let property = property_if(&term.property)?;
    Ok(Term {
        var: naming.named(term.name.sym),
        property,
    })
}
