ghost use Rattle.std.specs.Prelude.{◌≡◌, true, false, IfOk};
ghost use Rattle.gc_spec.specs.PropertyGraph.{ids_of, node_ids, is_among};
ghost use Rattle.gc_json.specs.ElementParts.{parts_of, parts_at, new_id, end_of, described};
ghost use Rattle.gc_json.specs.ElementSeen.{element_seen};
ghost use Rattle.gc_json.specs.JsonValues.{number_in};
ghost use Rattle.gc_json.specs.PartsSeen.{members_seen, parts_seen};
ghost use Rattle.gc_json.specs.PropertyMembers.{properties_of};
ghost use Rattle.gc_json.specs.Reading.{Gives, or_refused};
ghost use Rattle.gc_json.specs.declared.fault.Fault.TheVariants as fault;
ghost use Rattle.serde_json.specs.View.{items_view, members_view};

use crate::element::Element;
use crate::fault::{Failure, Fault};
use crate::labels::labels_in;
use crate::properties::properties_of;
use crate::values::{list_in, members_in, number_in};
use gc_base::{Id, LabelSet, NamePool, Properties};
use gc_ppg::GraphBuilder;
use serde_json::{Map, Value};

// The parts of an element as they stand in the file: its number, its labels, its properties.
#[derive(Clone, Copy)]
pub(crate) struct Parts<'v> {
    pub(crate) id: u64,
    pub(crate) labels: &'v [Value],
    pub(crate) properties: Option<&'v Map<String, Value>>,
}

// The parts of an element with no key but those of its kind.
pub(crate) fn parts_of<'v>(element: &'v Element) -> Result<Parts<'v>, Failure<Fault>>
    ensures { Gives parts_seen (parts_of (element_seen element.now)) result }
{
    if !element.is_known {
        return Err(Failure::Refused(Fault::WrongShape));
    }
    parts_at(element)
}

// The parts of an element.
fn parts_at<'v>(element: &'v Element) -> Result<Parts<'v>, Failure<Fault>>
    ensures { Gives parts_seen (parts_at (element_seen element.now)) result }
{
    let id = number_in(&element.id).ok_or(Fault::WrongShape)?;
    let labels = list_in(&element.labels)?;
    let properties = members_in(&element.properties)?;
    Ok(Parts {
        id,
        labels,
        properties,
    })
}

// The identity of a number, if it is not too large and no element has it yet.
pub(crate) fn new_id(builder: &GraphBuilder, number: u64) -> Result<Id, Failure<Fault>>
    ensures exact { Gives (λ id. id) (new_id builder.now number) result }
    ensures fresh { IfOk result (λ id. is_among (ids_of builder.now) id ≡ false) }
{
    let id = Id::new(number).ok_or(Fault::IdTooLarge)?;
    if builder.is_taken(id) {
        return Err(Failure::Refused(Fault::IdTwice));
    }
    Ok(id)
}

// The node of a number.
pub(crate) fn end_of(builder: &GraphBuilder, number: u64) -> Result<Id, Failure<Fault>>
    ensures exact { Gives (λ id. id) (end_of builder.now number) result }
    ensures node { IfOk result (λ id. is_among (node_ids builder.now.nodes) id ≡ true) }
{
    let id = Id::new(number).ok_or(Fault::NoEnd)?;
    if !builder.has_node(id) {
        return Err(Failure::Refused(Fault::NoEnd));
    }
    Ok(id)
}

// The labels and the properties. All labels are tested before all properties.
pub(crate) fn described(
    names: &mut NamePool,
    parts: &Parts,
) -> Result<(LabelSet, Properties), Failure<Fault>>
    ensures { Gives (λ about. about) (described (parts_seen parts.now)) result }
{
    let labels = labels_in(names, parts.labels)?;
    let properties = properties_in(names, parts.properties)?;
    Ok((labels, properties))
}

// The properties of an object; without one there are none.
fn properties_in(
    names: &mut NamePool,
    members: Option<&Map<String, Value>>,
) -> Result<Properties, Failure<Fault>>
    ensures { Gives (λ properties. properties) (properties_of (members_seen members.entry)) result }
{
    match members {
        None => Ok(Properties::empty(names.allocator())),
        Some(members) => properties_of(names, members),
    }
}
