ghost use Rattle.std.specs.Prelude.{◌≡◌, ◌++◌, None, map, IfOk, OnOk};
ghost use Rattle.gc_ast.specs.PatternViews.{located_tree, pattern_tree};
ghost use Rattle.gc_ast.specs.Trees.{row, rows};
ghost use Rattle.gc_lower.specs.Chains.{atoms_of, chain_atoms, joined_atoms, link_atoms, part_atoms, view_atoms};
ghost use Rattle.gc_lower.specs.Namings.{names_of, scope};

use crate::elements::{Link, add_edge, add_node};
use crate::naming::Naming;
use crate::paths::path_atom;
use gc_alg::AtomList;
use gc_ast::{ChainList, LocatedList, Pattern, PatternList};
use gc_base::{Memory, Sym};
use std::alloc::Global;

/// Where a part of a chain stands: its graph, and the nodes beside it, so far as there are any.
#[derive(Clone, Copy)]
struct Spot {
    graph: u32,
    left: Option<Sym>,
    right: Option<Sym>,
}

/// The atoms of chains, in the order of the text.
pub(crate) fn atoms_of(
    alloc: Global,
    naming: &Naming<'_>,
    chains: &LocatedList,
) -> Result<AtomList, Memory>
    ensures { IfOk result (λ atoms. atoms.items ≡ atoms_of (scope naming.now) (row (map (located_tree (names_of naming.now)) chains.now))) }
{
    let mut atoms = Vec::new(alloc);
    for located in chains.as_slice() {
        let graph = naming.graph_of(&located.on);
        add_chain(&mut atoms, naming, graph, &located.chain.parts)?;
    }
    Ok(atoms)
}

/// The atoms of the chains of a view, in the order of the text.
pub(crate) fn view_atoms(
    alloc: Global,
    naming: &Naming<'_>,
    chains: &ChainList,
) -> Result<AtomList, Memory>
    ensures { IfOk result (λ atoms. atoms.items ≡ view_atoms (scope naming.now)
        (rows (map (λ c. map (pattern_tree (names_of naming.now)) c.parts) chains.now))) }
{
    let mut atoms = Vec::new(alloc);
    let graph = naming.graph_of(&None);
    for chain in chains.as_slice() {
        add_chain(&mut atoms, naming, graph, &chain.parts)?;
    }
    Ok(atoms)
}

// Puts the atoms of the parts of a chain behind others.
fn add_chain(
    atoms: &mut AtomList,
    naming: &Naming<'_>,
    graph: u32,
    parts: &PatternList,
) -> Result<(), Memory>
    ensures { OnOk result (atoms.new.items ≡ atoms.old.items ++ chain_atoms (scope naming.now) graph None
        (row (map (pattern_tree (names_of naming.now)) parts.now))) }
{
    let parts = parts.as_slice();
    let mut left = None;
    for i in 0..parts.len() {
        let right = naming.next_variable(&parts[i + 1..]);
        add_part(atoms, naming, Spot { graph, left, right }, &parts[i])?;
        left = naming.node_variable(&parts[i]);
    }
    Ok(())
}

// Puts the atoms of a part of a chain behind others.
fn add_part(
    atoms: &mut AtomList,
    naming: &Naming<'_>,
    spot: Spot,
    part: &Pattern,
) -> Result<(), Memory>
    ensures { OnOk result (atoms.new.items ≡ atoms.old.items ++ part_atoms (scope naming.now) spot.graph spot.left spot.right
        (pattern_tree (names_of naming.now) part.now)) }
{
    match part {
        Pattern::Node(element) => add_node(atoms, naming, spot.graph, element),
        _ => add_link(atoms, naming, spot, part),
    }
}

// Puts the atoms of a link behind others. One without a node beside it asks for nothing.
fn add_link(
    atoms: &mut AtomList,
    naming: &Naming<'_>,
    spot: Spot,
    part: &Pattern,
) -> Result<(), Memory>
    ensures { OnOk result (atoms.new.items ≡ atoms.old.items ++ link_atoms (scope naming.now) spot.graph spot.left spot.right
        (pattern_tree (names_of naming.now) part.now)) }
{
    let Some(left) = spot.left else {
        return Ok(());
    };
    let Some(right) = spot.right else {
        return Ok(());
    };
    let link = Link {
        graph: spot.graph,
        left,
        right,
    };
    add_joined(atoms, naming, link, part)
}

// Puts the atoms of a part between two nodes behind others.
fn add_joined(
    atoms: &mut AtomList,
    naming: &Naming<'_>,
    link: Link,
    part: &Pattern,
) -> Result<(), Memory>
    ensures { OnOk result (atoms.new.items ≡ atoms.old.items ++ joined_atoms (scope naming.now) link.graph link.left link.right
        (pattern_tree (names_of naming.now) part.now)) }
{
    match part {
        Pattern::Node(_) => Ok(()),
        Pattern::Edge { way, element } => add_edge(atoms, naming, link, *way, element),
        Pattern::Path { body, .. } => {
            let alloc = *atoms.allocator();
            atoms.push(path_atom(alloc, naming, link, body)?)?;
            Ok(())
        }
    }
}
