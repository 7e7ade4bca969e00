use gc_alg::Block;
use gc_base::Name;

/// A view on a graph, as it is explained.
#[derive(Drop)]
pub struct ExplainedView {
    pub name: Name,
    pub graph: Name,
    pub block: Block,
}
