use gc_ast::PropertyUseList;
use gc_base::{LabelGroupList, NameAt};

/// What a node or edge pattern has between its brackets.
#[derive(Drop)]
pub(crate) struct PlainElement {
    pub name: Option<NameAt>,
    pub labels: LabelGroupList,
    pub properties: PropertyUseList,
}
