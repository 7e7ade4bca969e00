ghost use Rattle.std.specs.Prelude.{◌≡◌, IfOk};

use crate::variables::variable;
use gc_alg::ViewUse;
use gc_ast::{Element, Pattern};
use gc_base::{Duplicate, Memory, NameAt, Sym, ViewNo};
use gc_sorts::Checked;

/// What the names and the tokens of a checked file stand for, for chains of which those without ON stand
/// on the graph of a number.
#[derive(Drop)]
pub(crate) struct Naming<'a> {
    pub checked: &'a Checked,
    pub on: u32,
}

#[tactic(auto, unfolding(crate::specs::Namings::scope_in))]
impl Naming<'_> {
    ghost use Rattle.std.specs.Prelude.{map, unwrap_or};
    ghost use Rattle.gc_ast.specs.PatternViews.{element_by, named_by, named_if_by, pattern_tree};
    ghost use Rattle.gc_expr.specs.Views.{name_of};
    ghost use Rattle.gc_ast.specs.Trees.{row};
    ghost use Rattle.gc_lower.specs.Chains.{element_variable, next_variable, node_variable};
    ghost use Rattle.gc_lower.specs.Namings.{names_of, scope, variable_in};
    ghost use Rattle.gc_lower.specs.Scopes.{graph_of, number_at, view_use};

    /// The number of the graph that a chain stands on.
    pub(crate) fn graph_of(&self, on: &Option<NameAt>) -> u32
        ensures { result ≡ graph_of (scope self.now) (named_if_by (name_of (names_of self.now)) on.now) }
    {
        match on {
            None => self.on,
            Some(name) => self.checked.graph_at(name.token).unwrap_or(0),
        }
    }

    // The hidden variable of the unnamed element at a token.
    fn hidden(&self, token: u32) -> Sym
        ensures { result.0 ≡ number_at (scope self.now).hidden_at token }
    {
        match self.checked.hidden_at(token) {
            None => Sym(0),
            Some(sym) => sym,
        }
    }

    // The view whose name stands at a token.
    fn view(&self, token: u32) -> ViewNo
        ensures { result.0 ≡ number_at (scope self.now).view_at token }
    {
        match self.checked.view_at(token) {
            None => ViewNo(0),
            Some(view) => view,
        }
    }

    /// The view that a name in an expression means. A name that the file lacks is want of memory.
    pub(crate) fn view_use(&self, name: NameAt) -> Result<ViewUse, Memory>
        ensures { IfOk result (λ used. used ≡ view_use (scope self.now) (named_by (name_of (names_of self.now)) name)) }
    {
        let view = self.view(name.token);
        match self
            .checked
            .file()
            .names
            .as_slice()
            .get(name.sym.0 as usize)
        {
            None => Err(Memory),
            Some(found) => Ok(ViewUse {
                name: found.copy()?,
                view,
            }),
        }
    }

    /// The variable of a name of the file, by its number.
    pub(crate) fn named(&self, sym: Sym) -> Sym
        ensures { result ≡ variable_in self.now sym }
    {
        variable(&self.checked.file().names, sym)
    }

    /// The variable of an element: its name's, or a hidden one.
    pub(crate) fn variable(&self, element: &Element) -> Sym
        ensures { result ≡ element_variable (scope self.now) (element_by (name_of (names_of self.now)) element.now) }
    {
        match element.name {
            None => self.hidden(element.token),
            Some(name) => self.named(name.sym),
        }
    }

    /// The variable of a part of a chain, if that is a node.
    pub(crate) fn node_variable(&self, part: &Pattern) -> Option<Sym>
        ensures { result ≡ node_variable (scope self.now) (pattern_tree (names_of self.now) part.now) }
    {
        match part {
            Pattern::Node(element) => Some(self.variable(element)),
            _ => None,
        }
    }

    /// The variable of the first of the parts, if that is a node.
    pub(crate) fn next_variable(&self, parts: &[Pattern]) -> Option<Sym>
        ensures { result ≡ next_variable (scope self.now) (row (map (pattern_tree (names_of self.now)) parts.now)) }
    {
        match parts.first() {
            None => None,
            Some(part) => self.node_variable(part),
        }
    }
}
