ghost use Rattle.std.specs.Prelude.{◌≡◌};
ghost use Rattle.std.specs.Option.{option_map};
ghost use Rattle.gc_base.specs.declared.place.Sym.{Sym as Number};
ghost use Rattle.gc_expr.specs.Views.{Names, name_of};
ghost use Rattle.gc_ast.specs.PatternViews.{named_if};
ghost use Rattle.gc_sorts.specs.LinkKeys.{turned_link, key_between};
ghost use Rattle.gc_sorts.specs.Links.{turned, name_if};

use gc_base::{Direction, NameAt, Sym};

/// A link of a named variable between its neighbours, which may have no name.
#[derive(Clone, Copy, Debug, PartialEq, Eq)]
pub struct LinkAt {
    pub name: Sym,
    pub left: Option<Sym>,
    pub right: Option<Sym>,
    pub way: Direction,
}

/// The slots of a link's name and of its neighbours, along its arrow, if it has one.
#[derive(Clone, Copy, Debug, PartialEq, Eq, Hash)]
pub struct LinkKey {
    pub name: usize,
    pub from: usize,
    pub to: usize,
    pub has_arrow: bool,
}

/// The number of a name that may be absent.
pub(crate) fn sym_if(name: &Option<NameAt>) -> Option<Sym>
    ensures { (names : Names) → option_map (name_of names) result ≡ name_if (named_if names name.now) }
{
    match name {
        None => None,
        Some(name) => Some(name.sym),
    }
}

fn turned(way: Direction) -> Direction
    ensures { result ≡ turned way }
{
    match way {
        Direction::Forward => Direction::Backward,
        Direction::Backward => Direction::Forward,
        Direction::Either => Direction::Either,
    }
}

impl LinkAt {
    /// The link from the other side.
    pub fn turned(self) -> LinkAt
        ensures { result ≡ turned_link self }
    {
        LinkAt {
            name: self.name,
            left: self.right,
            right: self.left,
            way: turned(self.way),
        }
    }
}

impl LinkKey {
    /// The key of a link between its neighbours, by their slots.
    pub fn between(name: usize, left: usize, right: usize, way: Direction) -> LinkKey
        ensures { result ≡ key_between name left right way }
    {
        let (from, to) = match way {
            Direction::Backward => (right, left),
            _ => (left, right),
        };
        LinkKey {
            name,
            from,
            to,
            has_arrow: way != Direction::Either,
        }
    }
}
