ghost use Rattle.std.specs.Prelude.{◌≡◌, ◌*◌, ◌<◌, ◌≤◌, IfOk, OnOk, true};
ghost use Rattle.gc_make.specs.MadeGraphs.{IsMade, fits, made, made_nodes, made_of, most_size, random_edge, ring_edge};

use crate::draws::{drawn_node, next_draw};
use crate::elements::{add_edge, add_node};
use gc_base::{MakeKind, Memory};
use gc_ppg::{Graph, GraphBuilder};
use std::alloc::Global;

/// The greatest start of the numbers that are drawn.
pub const MOST_START: u32 = 2_147_483_647;

/// Why no graph is made.
#[derive(Clone, Copy, Debug, PartialEq, Eq)]
pub enum MakeRefusal {
    /// The size or the start is outside its limits.
    BadSize,
    /// Want of memory.
    Memory,
}

impl From<Memory> for MakeRefusal {
    ghost use Rattle.gc_make.specs.declared.making.MakeRefusal.TheVariants.{Memory as OutOfMemory};

    ghost from_gives = { λ _ refusal. refusal ≡ OutOfMemory };

    fn from(_want: Memory) -> MakeRefusal {
        MakeRefusal::Memory
    }
}

/// How many nodes a graph of a kind may have.
pub fn most_size(kind: MakeKind) -> u32
    ensures { result ≡ most_size kind }
{
    match kind {
        MakeKind::Ring => 2_000,
        MakeKind::Random => 32_768,
    }
}

/// The graph of a kind with `size` nodes, whose edges are drawn from `start` on where its kind draws them. It is
/// refused as `BadSize` exactly where the size is none from 1 to the most of its kind, or the start is above
/// `MOST_START`.
pub fn make(alloc: Global, kind: MakeKind, size: u32, start: u32) -> Result<Graph, MakeRefusal>
    ensures { IsMade kind size start result }
{
    if !fits(kind, size, start) {
        return Err(MakeRefusal::BadSize);
    }
    let graph = made(alloc, kind, size, start)?;
    Ok(graph)
}

// Whether a size and a start are within their limits.
fn fits(kind: MakeKind, size: u32, start: u32) -> bool
    ensures { result ≡ fits kind size start }
{
    (1 <= size && size <= most_size(kind)) && start <= MOST_START
}

// The graph, whose size and start fit.
fn made(alloc: Global, kind: MakeKind, size: u32, start: u32) -> Result<Graph, Memory>
    requires { fits kind size start ≡ true }
    ensures { IfOk result (λ g. g ≡ made kind size start) }
{
    let mut builder = GraphBuilder::new(alloc);
    add_nodes(alloc, &mut builder, size)?;
    match kind {
        MakeKind::Ring => add_ring(alloc, &mut builder, size)?,
        MakeKind::Random => add_drawn(alloc, &mut builder, size, start)?,
    }
    builder.finish()
}

// Adds the nodes.
fn add_nodes(alloc: Global, builder: &mut GraphBuilder, size: u32) -> Result<(), Memory>
    requires small { size ≤ 32768 }
    requires empty { builder.old ≡ made_nodes 0 }
    ensures { OnOk result (builder.new ≡ made_nodes size) }
{
    for i in 0..size {
        add_node(alloc, builder, i)?;
    }
    Ok(())
}

// Adds the edges of a ring.
fn add_ring(alloc: Global, builder: &mut GraphBuilder, size: u32) -> Result<(), Memory>
    requires small { size ≤ 32768 }
    requires nodes { builder.old ≡ made_nodes size }
    ensures { OnOk result (builder.new ≡ made_of size (ring_edge size) size) }
{
    for j in 0..size {
        let next = (j + 1) % size;
        add_edge(alloc, builder, size + j, j, next)?;
    }
    Ok(())
}

// Adds edges whose source and target are drawn.
fn add_drawn(alloc: Global, builder: &mut GraphBuilder, size: u32, start: u32) -> Result<(), Memory>
    requires small { size ≤ 32768 }
    requires some { 1 ≤ size }
    requires below { start < 2147483648 }
    requires nodes { builder.old ≡ made_nodes size }
    ensures { OnOk result (builder.new ≡ made_of size (random_edge size start) (5 * size)) }
{
    let mut drawn = start;
    for j in 0..5 * size {
        let source = next_draw(drawn);
        let target = next_draw(source);
        add_edge(
            alloc,
            builder,
            size + j,
            drawn_node(size, source),
            drawn_node(size, target),
        )?;
        drawn = target;
    }
    Ok(())
}
