use gc_base::{Sequence, Sym};
use gc_build_recipe::{ByVariable, OfVariable};
use gc_group::Group;

/// An element that rows make: their group, and its number. The number of a bound element is its
/// identity; new elements are numbered from 0 on, through all variables of the CONSTRUCT.
#[derive(Debug, Drop)]
pub struct Element {
    pub number: u64,
    pub group: Group,
}

/// A variable of a CONSTRUCT with its elements, by ascending keys.
#[derive(Debug, Drop)]
pub struct Numbered {
    pub var: Sym,
    pub elements: ElementList,
    /// For each row of the table, in order, which of the elements it makes, if it makes one.
    pub which: RowElements,
}

impl Numbered {
    ghost use Rattle.std.specs.Prelude.{◌≡◌};
    ghost use Rattle.gc_build_numbers.specs.Keys.{number_in, which_of};

    /// Which of its elements the row at a place of the table makes, if it makes one.
    pub fn which_of(&self, place: usize) -> Option<usize>
        ensures { result ≡ which_of place self.now }
    {
        match self.which.as_slice().get(place) {
            None => None,
            Some(which) => *which,
        }
    }

    /// The number of that element.
    pub fn number_in(&self, place: usize) -> Option<u64>
        ensures { result ≡ number_in place self.now }
    {
        match self.which_of(place) {
            None => None,
            Some(which) => match self.elements.as_slice().get(which) {
                None => None,
                Some(element) => Some(element.number),
            },
        }
    }
}

impl OfVariable for Numbered {
    ghost var_of = { λ v. v.var };

    fn var(&self) -> Sym {
        self.var
    }
}

/// The variables of a CONSTRUCT in their order.
#[derive(Debug, Drop)]
pub struct Numbering {
    /// How many new elements there are.
    pub next: u64,
    pub variables: NumberedList,
}

/// Elements of a variable.
pub type ElementList = Sequence<Element>;

/// Places of elements in their list, or `None` where a row makes none.
pub type RowElements = Sequence<Option<usize>>;

/// Variables that are numbered.
pub type NumberedList = ByVariable<Numbered>;
