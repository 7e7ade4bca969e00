use crate::by_variable::{ByVariable, OfVariable};
use gc_base::{Name, Sequence, Sym};
use gc_ppg::Kind;

/// A variable of a CONSTRUCT: a named element, or an unnamed place.
#[derive(Debug, Drop)]
pub struct Variable {
    pub var: Sym,
    pub kind: Kind,
    pub grouping: Grouping,
    /// The variable of the MATCH with whose labels and properties it starts: itself where it is bound,
    /// or the one that it copies.
    pub start: Option<Sym>,
}

impl OfVariable for Variable {
    ghost var_of = { λ v. v.var };

    fn var(&self) -> Sym {
        self.var
    }
}

/// By what the rows are grouped that make one element.
#[derive(Debug, Drop)]
pub enum Grouping {
    /// By the element that the MATCH bound the variable to.
    Bound,
    /// By the whole row.
    EachRow,
    /// By the walk that the MATCH found for the variable.
    Walk,
    /// By terms, of which the variable that is copied is the last.
    Terms(TermList),
    /// By the source and the target of an edge, and then by terms.
    Link {
        source: Sym,
        target: Sym,
        terms: TermList,
    },
}

/// A variable of the MATCH, or a property of it.
#[derive(Debug, Drop)]
pub struct Term {
    pub var: Sym,
    pub property: Option<Name>,
}

/// Terms to group by, in the order of the text.
pub type TermList = Sequence<Term>;

/// The variables of a CONSTRUCT: nodes, then edges, then paths, each kind in the order in which they
/// come first in the text.
pub type VariableList = ByVariable<Variable>;
