use gc_base::Sym;
use gc_ppg::Kind;

/// A place of a variable in a CONSTRUCT: a node, an edge with its ends, or a path that is stored.
#[derive(Clone, Copy)]
pub(crate) struct Place {
    pub var: Sym,
    pub kind: Kind,
    pub ends: Option<Ends>,
}

/// The nodes that an edge leads from and to.
#[derive(Clone, Copy)]
pub(crate) struct Ends {
    pub source: Sym,
    pub target: Sym,
}
