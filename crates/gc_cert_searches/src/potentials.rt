ghost use Rattle.std.specs.Prelude.{◌≡◌, ◌++◌, IfOk, OnOk};
ghost use Rattle.gc_cert_searches.specs.Readings.{potential_if, potentials_at, potentials_in};

use gc_base::{Cost, Id, Memory};
use gc_cert::{Potential, PotentialList};
use gc_search::Found;
use std::alloc::Global;

/// The least costs at which runs reach some nodes in the states below a number, by node, then by state.
pub(crate) fn potentials_in(
    alloc: Global,
    found: &Found,
    states: u32,
    nodes: &[Id],
) -> Result<PotentialList, Memory>
    ensures { IfOk result (λ potentials. potentials ≡ potentials_in found.now states nodes.now) }
{
    let mut potentials = PotentialList::new(alloc);
    for node in nodes {
        add_at(&mut potentials, found, states, *node)?;
    }
    Ok(potentials)
}

// Adds those of a node.
fn add_at(
    potentials: &mut PotentialList,
    found: &Found,
    states: u32,
    node: Id,
) -> Result<(), Memory>
    ensures { OnOk result (potentials.new ≡ potentials.old ++ potentials_at found.now states node) }
{
    for state in 0..states {
        add_if(potentials, node, state, found.potential(node, state))?;
    }
    Ok(())
}

// Adds that of a node and a state, if a run reaches them.
fn add_if(
    potentials: &mut PotentialList,
    node: Id,
    state: u32,
    known: Option<Cost>,
) -> Result<(), Memory>
    ensures { OnOk result (potentials.new ≡ potentials.old ++ potential_if node state known) }
{
    match known {
        None => Ok(()),
        Some(cost) => potentials.push(Potential { node, state, cost }),
    }
}
