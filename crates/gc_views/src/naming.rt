ghost use Rattle.std.specs.Prelude.{◌≡◌};

use gc_ast::{Element, Pattern};
use gc_base::Sym;
use gc_lower::variable;
use gc_sorts::Checked;

/// What the names and the tokens of a checked file stand for, on the graph of a number.
#[derive(Drop)]
pub(crate) struct Naming<'a> {
    pub checked: &'a Checked,
    pub on: u32,
}

#[tactic(auto, unfolding(gc_lower::specs::Namings::scope_in))]
impl Naming<'_> {
    ghost use Rattle.gc_ast.specs.PatternViews.{element_by, pattern_tree};
    ghost use Rattle.gc_expr.specs.Views.{name_of};
    ghost use Rattle.gc_lower.specs.Chains.{element_variable, node_variable};
    ghost use Rattle.gc_lower.specs.Scopes.{number_at};
    ghost use Rattle.gc_views.specs.Namings.{names_of, scope, variable_in};
    ghost use Rattle.gc_views.specs.Views.{edge_variable};

    // The hidden variable of the unnamed element at a token.
    fn hidden(&self, token: u32) -> Sym
        ensures { result.0 ≡ number_at (scope self.now).hidden_at token }
    {
        match self.checked.hidden_at(token) {
            None => Sym(0),
            Some(sym) => sym,
        }
    }

    /// The variable of a name of the file, by its number.
    pub(crate) fn named(&self, sym: Sym) -> Sym
        ensures { result ≡ variable_in self.now sym }
    {
        variable(&self.checked.file().names, sym)
    }

    // The variable of an element: its name's, or a hidden one.
    fn variable(&self, element: &Element) -> Sym
        ensures { result ≡ element_variable (scope self.now) (element_by (name_of (names_of self.now)) element.now) }
    {
        match element.name {
            None => self.hidden(element.token),
            Some(name) => self.named(name.sym),
        }
    }

    /// The variable of a part of a chain, if that is a node.
    pub(crate) fn node_variable(&self, part: &Pattern) -> Option<Sym>
        ensures { result ≡ node_variable (scope self.now) (pattern_tree (names_of self.now) part.now) }
    {
        match part {
            Pattern::Node(element) => Some(self.variable(element)),
            _ => None,
        }
    }

    /// The same of an edge.
    pub(crate) fn edge_variable(&self, part: &Pattern) -> Option<Sym>
        ensures { result ≡ edge_variable (scope self.now) (pattern_tree (names_of self.now) part.now) }
    {
        match part {
            Pattern::Edge { way: _, element } => Some(self.variable(element)),
            _ => None,
        }
    }
}
