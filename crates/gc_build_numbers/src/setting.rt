use gc_ppg::GraphList;
use gc_rows::Table;
use gc_values::Reads;
use std::alloc::Global;
use std::marker::Model;

/// What a CONSTRUCT is read on: a table, the graphs by number, and which of them each variable is read
/// in. It carries the allocator of what is made.
#[derive(Drop)]
pub struct Setting<'a> {
    pub alloc: Global,
    pub table: &'a Table,
    pub reads: &'a Reads,
    pub graphs: &'a GraphList,
}

impl<'a> Model for Setting<'a> {
    ghost use Rattle.gc_build_numbers.specs.Settings.{Setting};

    ghost Value = { Setting };

    ghost view = { λ s. record { schema = s.table.now.schema; rows = s.table.now.rows; reads = s.reads.now; graphs = s.graphs.now } };
}
