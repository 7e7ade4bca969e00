ghost use Rattle.std.specs.Prelude.{◌≡◌, ◌∷◌, ◌++◌};
ghost use Rattle.gc_json.specs.CanonicalText.{node_data, edge_data, path_data, walk_data, id_data, labels_data, properties_data, values_data, literal_data};
ghost use Rattle.gc_json.specs.Writing.{Adds, tokens_of, common_tokens};
ghost use Rattle.json.specs.Token.{key};

use gc_base::{Id, LabelSet, Literal, Memory, Name, Properties, Property, Step, ValueSet, Walk};
use gc_ppg::{EdgeInfo, NodeInfo, PathInfo};
use json::Writer;
use std::str;

// A node: its identity, labels and properties.
pub(crate) fn write_node(writer: &mut Writer, node: &NodeInfo) -> Result<(), Memory>
    ensures { Adds result writer.old writer.new (tokens_of (node_data node.now)) }
{
    writer.begin_object()?;
    write_common(writer, node.id, &node.labels, &node.properties)?;
    writer.end_object()?;
    Ok(())
}

// An edge, with its source and its target.
pub(crate) fn write_edge(writer: &mut Writer, edge: &EdgeInfo) -> Result<(), Memory>
    ensures { Adds result writer.old writer.new (tokens_of (edge_data edge.now)) }
{
    writer.begin_object()?;
    writer.key("from")?;
    writer.u64(edge.from.get())?;
    write_common(writer, edge.id, &edge.labels, &edge.properties)?;
    writer.key("to")?;
    writer.u64(edge.to.get())?;
    writer.end_object()?;
    Ok(())
}

// A stored path, with its walk.
pub(crate) fn write_path(writer: &mut Writer, path: &PathInfo) -> Result<(), Memory>
    ensures { Adds result writer.old writer.new (tokens_of (path_data path.now)) }
{
    writer.begin_object()?;
    write_common(writer, path.id, &path.labels, &path.properties)?;
    writer.key("walk")?;
    write_walk(writer, &path.walk)?;
    writer.end_object()?;
    Ok(())
}

// What each element has: its identity, labels and properties.
fn write_common(
    writer: &mut Writer,
    id: Id,
    labels: &LabelSet,
    properties: &Properties,
) -> Result<(), Memory>
    ensures { Adds result writer.old writer.new (common_tokens id labels.now properties.now) }
{
    writer.key("id")?;
    writer.u64(id.get())?;
    writer.key("labels")?;
    write_labels(writer, labels)?;
    writer.key("properties")?;
    write_properties(writer, properties)?;
    Ok(())
}

/// Writes a walk as the array of its nodes and edges in turn.
pub fn write_walk(writer: &mut Writer, walk: &Walk) -> Result<(), Memory>
    ensures { Adds result writer.old writer.new (tokens_of (walk_data walk.now)) }
{
    writer.begin_array()?;
    writer.u64(walk.start.get())?;
    for step in walk.steps.as_slice() {
        write_step(writer, *step)?;
    }
    writer.end_array()?;
    Ok(())
}

// The edge and the node of a step.
fn write_step(writer: &mut Writer, step: Step) -> Result<(), Memory>
    ensures { Adds result writer.old writer.new
        (tokens_of (id_data step.edge) ++ tokens_of (id_data step.node)) }
{
    writer.u64(step.edge.get())?;
    writer.u64(step.node.get())?;
    Ok(())
}

fn write_labels(writer: &mut Writer, labels: &LabelSet) -> Result<(), Memory>
    ensures { Adds result writer.old writer.new (tokens_of (labels_data labels.now)) }
{
    writer.begin_array()?;
    for label in labels.as_slice() {
        writer.string(word(label))?;
    }
    writer.end_array()?;
    Ok(())
}

fn write_properties(writer: &mut Writer, properties: &Properties) -> Result<(), Memory>
    ensures { Adds result writer.old writer.new (tokens_of (properties_data properties.now)) }
{
    writer.begin_object()?;
    for property in properties.as_slice() {
        write_property(writer, property)?;
    }
    writer.end_object()?;
    Ok(())
}

// The name with its values.
fn write_property(writer: &mut Writer, property: &Property) -> Result<(), Memory>
    ensures { Adds result writer.old writer.new (key property.now.name ∷ tokens_of (values_data property.now.values)) }
{
    writer.key(word(&property.name))?;
    write_values(writer, &property.values)
}

fn write_values(writer: &mut Writer, values: &ValueSet) -> Result<(), Memory>
    ensures { Adds result writer.old writer.new (tokens_of (values_data values.now)) }
{
    writer.begin_array()?;
    for literal in values.as_slice() {
        write_literal(writer, literal)?;
    }
    writer.end_array()?;
    Ok(())
}

fn write_literal(writer: &mut Writer, literal: &Literal) -> Result<(), Memory>
    ensures { Adds result writer.old writer.new (tokens_of (literal_data literal.now)) }
{
    match literal {
        Literal::Truth(truth) => writer.boolean(*truth)?,
        Literal::Number(number) => writer.i64(*number)?,
        Literal::Text(text) => writer.string(text.text())?,
    }
    Ok(())
}

// The text of a name. A word is ASCII.
fn word(name: &Name) -> &str
    ensures { result.now ≡ name.now }
{
    str::from_utf8(name.bytes()).unwrap()
}
