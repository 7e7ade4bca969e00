use gc_ast::{AssignList, GroupTermList};
use gc_base::{NameAt, NameList};

/// What a node or edge of a CONSTRUCT has between its brackets.
#[derive(Drop)]
pub(crate) struct NewPlainElement {
    pub name: Option<NameAt>,
    pub copy: Option<NameAt>,
    pub group: GroupTermList,
    pub labels: NameList,
    pub assigns: AssignList,
}
