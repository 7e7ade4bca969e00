ghost use Rattle.std.specs.Prelude.{◌≡◌, ◌++◌, ◌∷◌, [], map, OnOk};
ghost use Rattle.gc_ast.specs.PatternViews.{element_by, property_use_by};
ghost use Rattle.gc_expr.specs.Views.{name_of};
ghost use Rattle.gc_ast.specs.Trees.{row};
ghost use Rattle.gc_lower.specs.Chains.{edge_atoms, node_atoms, property_atom, property_atoms};
ghost use Rattle.gc_lower.specs.Namings.{names_of, scope};

use crate::naming::Naming;
use gc_alg::{Atom, AtomList, AtomWhat};
use gc_ast::{Element, PropertyUse, PropertyUseList};
use gc_base::{Direction, Duplicate, Memory, Sym};
use gc_ppg::Kind;

/// Where a link stands: its graph, and the nodes at its left and at its right.
#[derive(Clone, Copy)]
pub(crate) struct Link {
    pub graph: u32,
    pub left: Sym,
    pub right: Sym,
}

/// Puts the atoms of a node pattern behind others.
pub(crate) fn add_node(
    atoms: &mut AtomList,
    naming: &Naming<'_>,
    graph: u32,
    element: &Element,
) -> Result<(), Memory>
    ensures { OnOk result (atoms.new.items ≡ atoms.old.items ++ node_atoms (scope naming.now) graph (element_by (name_of (names_of naming.now)) element.now)) }
{
    let x = naming.variable(element);
    let labels = element.labels.copy()?;
    atoms.push(Atom {
        graph,
        what: AtomWhat::Node { x, labels },
    })?;
    add_properties(atoms, naming, graph, x, Kind::Node, &element.properties)
}

/// Puts the atoms of an edge pattern behind others.
pub(crate) fn add_edge(
    atoms: &mut AtomList,
    naming: &Naming<'_>,
    link: Link,
    way: Direction,
    element: &Element,
) -> Result<(), Memory>
    ensures { OnOk result (atoms.new.items
        ≡ atoms.old.items ++ edge_atoms (scope naming.now) link.graph link.left link.right way (element_by (name_of (names_of naming.now)) element.now)) }
{
    let e = naming.variable(element);
    let labels = element.labels.copy()?;
    atoms.push(Atom {
        graph: link.graph,
        what: AtomWhat::Edge {
            x: link.left,
            e,
            y: link.right,
            way,
            labels,
        },
    })?;
    add_properties(
        atoms,
        naming,
        link.graph,
        e,
        Kind::Edge,
        &element.properties,
    )
}

// Puts the atoms of the properties of an element behind others.
fn add_properties(
    atoms: &mut AtomList,
    naming: &Naming<'_>,
    graph: u32,
    x: Sym,
    kind: Kind,
    properties: &PropertyUseList,
) -> Result<(), Memory>
    ensures { OnOk result (atoms.new.items
        ≡ atoms.old.items ++ property_atoms (scope naming.now) graph x kind (row (map (property_use_by (name_of (names_of naming.now))) properties.now))) }
{
    for asked in properties.as_slice() {
        add_property(atoms, naming, graph, x, kind, asked)?;
    }
    Ok(())
}

// Puts the atom of a property of an element behind others.
fn add_property(
    atoms: &mut AtomList,
    naming: &Naming<'_>,
    graph: u32,
    x: Sym,
    kind: Kind,
    asked: &PropertyUse,
) -> Result<(), Memory>
    ensures { OnOk result (atoms.new.items ≡ atoms.old.items ++ property_atom (scope naming.now) graph x kind
        (property_use_by (name_of (names_of naming.now)) asked.now) ∷ []) }
{
    let name = asked.property.copy()?;
    let value = naming.named(asked.value.sym);
    atoms.push(Atom {
        graph,
        what: AtomWhat::Property {
            x,
            kind,
            name,
            value,
        },
    })?;
    Ok(())
}
