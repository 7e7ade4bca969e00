use gc_base::{Sequence, Sym};
use gc_build_recipe::Term;

/// A term by which a variable is grouped.
#[derive(Drop)]
pub(crate) struct TermOf {
    pub var: Sym,
    pub term: Term,
}

/// A variable, and the one of the MATCH that it copies.
#[derive(Clone, Copy)]
pub(crate) struct CopyOf {
    pub var: Sym,
    pub copied: Sym,
}

/// Terms of variables, in the order of the text.
pub(crate) type TermOfList = Sequence<TermOf>;

/// Copies, in the order of the text.
pub(crate) type CopyOfList = Sequence<CopyOf>;
