ghost use Rattle.std.specs.Prelude.{◌≡◌, true, false, IfOk};
ghost use Rattle.gc_spec.specs.Coherence.{PathShape};
ghost use Rattle.gc_spec.specs.PropertyGraph.{ids_of, is_among, is_walk};
ghost use Rattle.gc_json.specs.ElementSeen.{element_seen};
ghost use Rattle.gc_json.specs.FileElements.{path_from, path_of, add_path_of, agreeing};
ghost use Rattle.gc_json.specs.PartsSeen.{parts_seen};
ghost use Rattle.gc_json.specs.Reading.{Gives};
ghost use Rattle.serde_json.specs.View.{items_view};

use crate::element::Element;
use crate::fault::{Failure, Fault};
use crate::parts::{Parts, described, new_id, parts_of};
use crate::walks::{walk_in, walk_items};
use gc_base::{Id, NamePool, Walk};
use gc_ppg::{Coherence, GraphBuilder, PathInfo, Shape};
use serde_json::Value;

// Adds the stored path that a value is.
pub(crate) fn add_path(
    names: &mut NamePool,
    builder: &mut GraphBuilder,
    seen: &Coherence,
    element: &Element,
) -> Result<(), Failure<Fault>>
    ensures { Gives (λ _. builder.new) (add_path_of seen.now builder.old (element_seen element.now)) result }
{
    let path = path_of(names, builder, element)?;
    let path = agreeing(seen, path)?;
    builder.put_path(path)?;
    Ok(())
}

// The stored path again, if its walk agrees with the earlier files.
fn agreeing(seen: &Coherence, path: PathInfo) -> Result<PathInfo, Failure<Fault>>
    ensures { Gives (λ path. path) (agreeing seen.now path.id (PathShape path.walk) path) result }
{
    let PathInfo {
        id,
        walk,
        labels,
        properties,
    } = path;
    let walk = agreeing_walk(seen, id, walk)?;
    Ok(PathInfo {
        id,
        walk,
        labels,
        properties,
    })
}

// The walk again, if it is that of the identity in the earlier files.
fn agreeing_walk(seen: &Coherence, id: Id, walk: Walk) -> Result<Walk, Failure<Fault>>
    ensures { Gives (λ walk. walk) (agreeing seen.now id (PathShape walk) walk) result }
{
    let shape = Shape::Path(walk);
    if !seen.agrees(id, &shape) {
        return Err(Failure::Refused(Fault::Incoherent(id)));
    }
    match shape {
        Shape::Path(walk) => Ok(walk),
        _ => unreachable!(),
    }
}

// The stored path that a value is in the graph so far.
fn path_of(
    names: &mut NamePool,
    builder: &GraphBuilder,
    element: &Element,
) -> Result<PathInfo, Failure<Fault>>
    ensures exact { Gives (λ path. path) (path_of builder.now (element_seen element.now)) result }
    ensures fresh { IfOk result (λ path. is_among (ids_of builder.now) path.id ≡ false) }
    ensures walk { IfOk result (λ path. is_walk builder.now.nodes builder.now.edges path.walk ≡ true) }
{
    let parts = parts_of(element)?;
    let items = walk_items(element)?;
    path_from(names, builder, &parts, items)
}

// The stored path of its parts, with the walk of an array.
fn path_from(
    names: &mut NamePool,
    builder: &GraphBuilder,
    parts: &Parts,
    items: &[Value],
) -> Result<PathInfo, Failure<Fault>>
    ensures exact { Gives (λ path. path) (path_from builder.now (parts_seen parts.now) (items_view items.now)) result }
    ensures fresh { IfOk result (λ path. is_among (ids_of builder.now) path.id ≡ false) }
    ensures walk { IfOk result (λ path. is_walk builder.now.nodes builder.now.edges path.walk ≡ true) }
{
    let id = new_id(builder, parts.id)?;
    let walk = walk_in(names.allocator(), builder, items)?;
    let (labels, properties) = described(names, parts)?;
    Ok(PathInfo {
        id,
        walk,
        labels,
        properties,
    })
}
