ghost use Rattle.std.specs.Prelude.{◌≡◌, ◌||◌, if◌then◌else◌};
ghost use Rattle.std.specs.Option.{option_map};
ghost use Rattle.gc_expr.specs.Views.{Names, name_of};
ghost use Rattle.gc_sorts.specs.Constructs.{given, when_, is_later};
ghost use Rattle.gc_sorts.specs.Graphs.{has_name};
ghost use Rattle.gc_sorts.specs.Variables.{use_by, first_use, has_use};

use crate::makes::Makes;
use crate::sort::UseAt;
use crate::standing::Place;
use crate::variables::Variables;
use gc_base::Sym;
use std::marker::Model;

/// What a CONSTRUCT sees and names: the places of the MATCH, and its own.
#[derive(Drop)]
pub(crate) struct Making<'a, 'n> {
    pub matched: &'a Variables<'n>,
    pub makes: &'a Makes<'n>,
}

impl<'a, 'n> Model for Making<'a, 'n> {
    ghost use Rattle.std.specs.Prelude.{◌≡◌};
    ghost use Rattle.gc_sorts.specs.Constructs.{making};
    ghost use Rattle.gc_sorts.specs.Holders as holders;

    ghost Value = { holders.HeldMaking };

    ghost view = { λ m. record { names = m.matched.now.names; all = making m.matched.now.uses m.makes.now.all } };

    ghost invariant = { λ m. m.makes.now.names ≡ m.matched.now.names };
}

impl<'a, 'n> Making<'a, 'n> {
    /// Whether a variable is one of the MATCH.
    pub fn is_matched(&self, name: Sym) -> bool
        ensures { result ≡ has_use self.now.all.matched (name_of self.now.names name) }
    {
        self.matched.has(name)
    }

    /// Whether a name is a node, an edge or a stored path of the CONSTRUCT.
    pub fn is_target(&self, name: Sym) -> bool
        ensures { result ≡ (has_use self.now.all.made (name_of self.now.names name) || has_name self.now.all.stored (name_of self.now.names name)) }
    {
        let makes = self.makes;
        makes.made.has(name) || makes.stored.has(name)
    }

    /// Whether the first place of an element is another one.
    pub fn is_made_before(&self, name: Sym, token: u32) -> bool
        ensures { result ≡ is_later (first_use self.now.all.made (name_of self.now.names name)) token }
    {
        let makes = self.makes;
        is_later(makes.made.first(name), token)
    }

    /// Whether the first GROUP of an element is another one.
    pub fn is_grouped_before(&self, name: Sym, token: u32) -> bool
        ensures { result ≡ is_later (first_use self.now.all.groups (name_of self.now.names name)) token }
    {
        let makes = self.makes;
        is_later(makes.groups.first(name), token)
    }

    /// Whether the first `=` of an element is another one.
    pub fn is_copied_before(&self, name: Sym, token: u32) -> bool
        ensures { result ≡ is_later (first_use self.now.all.copies (name_of self.now.names name)) token }
    {
        let makes = self.makes;
        is_later(makes.copies.first(name), token)
    }

    /// Where what is given stands.
    pub fn given(&self) -> Place<'a, 'n>
        ensures { result ≡ record { names = self.now.names; at = given self.now.all } }
    {
        self.place(false)
    }

    /// Where a WHEN stands.
    pub fn when(&self) -> Place<'a, 'n>
        ensures { result ≡ record { names = self.now.names; at = when_ self.now.all } }
    {
        self.place(true)
    }

    fn place(&self, is_when: bool) -> Place<'a, 'n>
        ensures { result ≡ record { names = self.now.names; at = (if is_when then when_ self.now.all else given self.now.all) } }
    {
        let makes = self.makes;
        Place {
            variables: self.matched,
            made: &makes.made,
            stored: &makes.stored,
            is_when,
            exists: &[],
        }
    }
}

// Whether the first of some places is another one.
fn is_later(first: Option<UseAt>, token: u32) -> bool
    ensures { (names : Names) → result ≡ is_later (option_map (use_by names) first) token }
{
    match first {
        None => false,
        Some(first) => first.token != token,
    }
}
