ghost use Rattle.std.specs.Prelude.{◌≡◌, false, IfOk};
ghost use Rattle.gc_spec.specs.PropertyGraph.{ids_of, is_among};
ghost use Rattle.gc_json.specs.ElementSeen.{element_seen};
ghost use Rattle.gc_json.specs.FileElements.{node_of, add_node_of};
ghost use Rattle.gc_json.specs.Reading.{Gives};

use crate::element::Element;
use crate::fault::{Failure, Fault};
use crate::parts::{described, new_id, parts_of};
use gc_base::NamePool;
use gc_ppg::{Coherence, GraphBuilder, NodeInfo, Shape};

// Adds the node that a value is.
pub(crate) fn add_node(
    names: &mut NamePool,
    builder: &mut GraphBuilder,
    seen: &Coherence,
    element: &Element,
) -> Result<(), Failure<Fault>>
    ensures { Gives (λ _. builder.new) (add_node_of seen.now builder.old (element_seen element.now)) result }
{
    let node = node_of(names, builder, element)?;
    if !seen.agrees(node.id, &Shape::Node) {
        return Err(Failure::Refused(Fault::Incoherent(node.id)));
    }
    builder.put_node(node)?;
    Ok(())
}

// The node that a value is in the graph so far.
fn node_of(
    names: &mut NamePool,
    builder: &GraphBuilder,
    element: &Element,
) -> Result<NodeInfo, Failure<Fault>>
    ensures exact { Gives (λ node. node) (node_of builder.now (element_seen element.now)) result }
    ensures fresh { IfOk result (λ node. is_among (ids_of builder.now) node.id ≡ false) }
{
    let parts = parts_of(element)?;
    let id = new_id(builder, parts.id)?;
    let (labels, properties) = described(names, &parts)?;
    Ok(NodeInfo {
        id,
        labels,
        properties,
    })
}
