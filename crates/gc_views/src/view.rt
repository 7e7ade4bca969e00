use crate::trail::Trail;
use gc_base::{Memory, Walk};
use gc_expr::Expr;
use gc_ppg::GraphList;
use gc_rows::RowView;
use gc_values::Reads;
use std::alloc::Global;

/// A PATH view, as rows are asked for it: the bytes of its name, the variables along its first chain, and
/// its COST over variables with what that is read in. It carries the allocator of what is made.
#[derive(Drop)]
pub(crate) struct Viewed<'a> {
    pub alloc: Global,
    pub name: &'a [u8],
    pub trail: Option<Trail>,
    pub cost: Option<Expr>,
    pub reads: &'a Reads,
    pub graphs: &'a GraphList,
}

impl Viewed<'_> {
    ghost use Rattle.std.specs.Prelude.{◌≡◌, IfOk};
    ghost use Rattle.gc_views.specs.Namings.{view_of};
    ghost use Rattle.gc_views.specs.Segments.{walk_of};

    /// The walk of a row along the first chain, if the row has one.
    pub(crate) fn walk(&self, row: &RowView<'_>) -> Result<Option<Walk>, Memory>
        ensures { IfOk result (λ walk. walk ≡ walk_of (view_of self.now) row.now) }
    {
        match &self.trail {
            None => Ok(None),
            Some(trail) => trail.walk(self.alloc, row),
        }
    }
}
