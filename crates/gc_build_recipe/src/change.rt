use crate::by_variable::OfVariable;
use gc_base::{Name, Sequence, Sym};
use gc_expr::Expr;
use std::marker::Model;

/// A property that a variable is given. Its token is the property's word.
#[derive(Debug, Drop)]
pub struct Assignment {
    pub var: Sym,
    pub token: u32,
    pub property: Name,
    pub value: Expr,
}

impl Model for Assignment {
    ghost use Rattle.gc_expr.specs.Views.{numbered_expr};
    ghost use Rattle.gc_build_recipe.specs.Recipes.{Assignment, assignment_code};

    ghost Value = { Assignment };

    ghost coded = { assignment_code };

    ghost view = { λ a. record { var = a.var; token = a.token; property = a.property; value = numbered_expr a.value } };
}

impl OfVariable for Assignment {
    ghost var_of = { λ a. a.var };

    fn var(&self) -> Sym {
        self.var
    }
}

/// A label of a variable.
#[derive(Debug, Drop)]
pub struct LabelOf {
    pub var: Sym,
    pub label: Name,
}

impl OfVariable for LabelOf {
    ghost var_of = { λ l. l.var };

    fn var(&self) -> Sym {
        self.var
    }
}

/// A property of a variable.
#[derive(Debug, Drop)]
pub struct PropertyOf {
    pub var: Sym,
    pub property: Name,
}

impl OfVariable for PropertyOf {
    ghost var_of = { λ p. p.var };

    fn var(&self) -> Sym {
        self.var
    }
}

/// Assignments, in the order of the text.
pub type AssignmentList = Vec<Assignment>;

/// Labels of variables.
pub type LabelOfList = Sequence<LabelOf>;

/// Properties of variables.
pub type PropertyOfList = Sequence<PropertyOf>;
