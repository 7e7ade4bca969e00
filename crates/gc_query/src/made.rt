use gc_ppg::Graph;
use std::marker::Model;

/// What a query makes: a graph, and the first identity that is free then.
#[derive(Drop)]
pub(crate) struct Made {
    pub graph: Graph,
    pub next: u64,
}

impl Model for Made {
    ghost use Rattle.gc_query.specs.Standings.{Made};

    ghost Value = { Made };

    ghost view = { λ m. record { graph = m.graph; next = m.next } };
}
