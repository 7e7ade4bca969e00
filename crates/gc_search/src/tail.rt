ghost use Rattle.std.specs.Prelude.{◌≡◌, ◌<◌, ◌^◌, length, slice_get, Some};
ghost use Rattle.gc_search.specs.Tails.{edges_by};

use gc_base::Id;
use gc_prod::{By, Product};

// The beginning of a walk: a settled walk, by its number counted from 1, and so many edges of a move
// behind it. The number 0 is that of no walk, which has no edge.
#[derive(Clone, Copy)]
pub(crate) struct Tail {
    pub(crate) before: usize,
    pub(crate) by: By,
    pub(crate) left: usize,
}

// The edge of a number that a move passes.
pub(crate) fn edge_at(product: &Product, by: By, i: usize) -> Id
    requires { i < length (edges_by product.now by) }
    ensures { slice_get (edges_by product.now by) i ≡ Some result }
{
    match by {
        By::Nothing => unreachable!(),
        By::Edge(edge) => edge,
        By::Segment(number) => product.segment_steps(number)[i].edge,
    }
}

// How many edges a move passes.
pub(crate) fn edge_count(product: &Product, by: By) -> usize
    ensures exact { result ≡ length (edges_by product.now by) }
    ensures small { result < 2 ^ 63 }
{
    match by {
        By::Nothing => 0,
        By::Edge(_) => 1,
        By::Segment(number) => product.segment_steps(number).len(),
    }
}
