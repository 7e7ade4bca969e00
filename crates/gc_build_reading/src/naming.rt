ghost use Rattle.std.specs.Prelude.{◌≡◌, Some};

use gc_ast::NewElement;
use gc_base::{BlockNo, NameAt, Sym};
use gc_lower::{is_found, variable};
use gc_sorts::Checked;

/// What the names and the tokens of a checked file stand for.
#[derive(Drop)]
pub(crate) struct Naming<'a> {
    pub checked: &'a Checked,
}

#[tactic(auto, unfolding(gc_lower::specs::Namings::scope_in))]
impl Naming<'_> {
    ghost use Rattle.gc_ast.specs.PatternViews.{named_by, named_if_by};
    ghost use Rattle.gc_expr.specs.Views.{name_of};
    ghost use Rattle.gc_lower.specs.Scopes.{graph_of, number_at, variable_or};
    ghost use Rattle.gc_ast.specs.QueryViews.{new_element_tree};
    ghost use Rattle.gc_build_reading.specs.Places.{element_variable};
    ghost use Rattle.gc_build_reading.specs.Namings.{names_of, scope, variable_in};
    ghost use Rattle.gc_build_reading.specs.Variables.{match_at};
    ghost use Rattle.gc_lower.specs.Scopes.{is_found_in};

    // The hidden variable of the unnamed element at a token.
    fn hidden(&self, token: u32) -> Sym
        ensures { result.0 ≡ number_at (scope self.now).hidden_at token }
    {
        match self.checked.hidden_at(token) {
            None => Sym(0),
            Some(sym) => sym,
        }
    }

    /// The graph whose name stands at a token.
    pub(crate) fn graph(&self, name: NameAt) -> u32
        ensures { result ≡ graph_of (scope self.now) (Some (named_by (name_of (names_of self.now)) name)) }
    {
        self.checked.graph_at(name.token).unwrap_or(0)
    }

    /// The block of the MATCH whose CONSTRUCT stands at a token.
    pub(crate) fn match_at(&self, token: u32) -> BlockNo
        ensures { result.0 ≡ match_at (scope self.now) token }
    {
        self.checked.block_at(token).unwrap_or(BlockNo(0))
    }

    /// Whether a variable of the block of a MATCH stands for a walk that is looked for.
    pub(crate) fn is_found(&self, block: BlockNo, var: Sym) -> bool
        ensures { result ≡ is_found_in (scope self.now) block.0 var }
    {
        is_found(self.checked, block, var)
    }

    /// The variable of a name of the file, by its number.
    pub(crate) fn named(&self, sym: Sym) -> Sym
        ensures { result ≡ variable_in self.now sym }
    {
        variable(&self.checked.file().names, sym)
    }

    /// The variable of an element with this name, or the hidden one of an unnamed element at a token.
    pub(crate) fn variable_or(&self, token: u32, name: &Option<NameAt>) -> Sym
        ensures { result ≡ variable_or (scope self.now) token (named_if_by (name_of (names_of self.now)) name.now) }
    {
        match name {
            None => self.hidden(token),
            Some(name) => self.named(name.sym),
        }
    }

    /// The variable of a node or an edge.
    #[tactic(auto, unfolding(gc_ast::specs::QueryViews::new_element_by, gc_ast::specs::QueryViews::assign_by))]
    pub(crate) fn element_variable(&self, element: &NewElement) -> Sym
        ensures { result ≡ element_variable (scope self.now) (new_element_tree (names_of self.now) element.now) }
    {
        self.variable_or(element.token, &element.name)
    }
}
