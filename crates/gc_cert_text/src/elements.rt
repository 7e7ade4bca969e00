//! Writing what stands in the lists of a search: potentials, segments, walks and the moves of their runs.
ghost use Rattle.std.specs.Prelude.{◌≡◌, ◌∷◌, ◌++◌, codes};
ghost use Rattle.gc_cert_text.specs.CertificateTexts.{cost_data, move_data, number_data, potential_data, run_move_data, segment_data, walk_doc_data};
ghost use Rattle.gc_json.specs.CanonicalText.{id_data, walk_data};
ghost use Rattle.gc_json.specs.Writing.{Adds, tokens_of};
ghost use Rattle.gc_prod.specs.declared.moves.By.TheVariants as way;
ghost use Rattle.json.specs.Token.{key};

use crate::written::{Written, write_array};
use gc_base::{Id, Memory, Name, Walk};
use gc_cert::{Potential, WalkDoc};
use gc_json::write_walk;
use gc_prod::{By, RunMove, Segment};
use json::Writer;
use std::str;

impl Written for Potential {
    ghost data_of = { potential_data };

    fn write(&self, writer: &mut Writer) -> Result<(), Memory> {
        writer.begin_array()?;
        writer.u64(self.node.get())?;
        writer.u64(u64::from(self.state))?;
        write_cost(writer, self.cost.get())?;
        writer.end_array()?;
        Ok(())
    }
}

impl Written for Segment {
    ghost data_of = { segment_data };

    fn write(&self, writer: &mut Writer) -> Result<(), Memory> {
        writer.begin_object()?;
        write_cost_of(writer, u128::from(self.cost))?;
        writer.key("view")?;
        writer.string(word(&self.view))?;
        write_walk_of(writer, &self.walk)?;
        writer.end_object()?;
        Ok(())
    }
}

impl Written for RunMove {
    ghost data_of = { run_move_data };

    fn write(&self, writer: &mut Writer) -> Result<(), Memory> {
        match self.by {
            By::Nothing => write_stay(writer, self.to),
            By::Edge(edge) => write_along(writer, edge, self.to),
            By::Segment(segment) => write_by_segment(writer, segment, self.to),
        }
    }
}

impl Written for WalkDoc {
    ghost data_of = { walk_doc_data };

    fn write(&self, writer: &mut Writer) -> Result<(), Memory> {
        writer.begin_object()?;
        write_cost_of(writer, self.cost.get())?;
        writer.key("run")?;
        write_array(writer, self.run.as_slice())?;
        write_walk_of(writer, &self.walk)?;
        writer.end_object()?;
        Ok(())
    }
}

// The text of the digits of a cost.
fn write_cost(writer: &mut Writer, cost: u128) -> Result<(), Memory>
    ensures { Adds result writer.old writer.new (tokens_of (cost_data cost)) }
{
    let mut digits = itoa::Buffer::new();
    writer.string(digits.format(cost))?;
    Ok(())
}

// The member for a cost.
fn write_cost_of(writer: &mut Writer, cost: u128) -> Result<(), Memory>
    ensures { Adds result writer.old writer.new (key (codes "cost") ∷ tokens_of (cost_data cost)) }
{
    writer.key("cost")?;
    write_cost(writer, cost)
}

// The member for a walk.
fn write_walk_of(writer: &mut Writer, walk: &Walk) -> Result<(), Memory>
    ensures { Adds result writer.old writer.new (key (codes "walk") ∷ tokens_of (walk_data walk.now)) }
{
    writer.key("walk")?;
    write_walk(writer, walk)
}

// A move that stays at its node.
fn write_stay(writer: &mut Writer, to: u32) -> Result<(), Memory>
    ensures { Adds result writer.old writer.new (tokens_of (move_data way.Nothing to)) }
{
    writer.begin_object()?;
    write_target(writer, to)?;
    writer.end_object()?;
    Ok(())
}

// A move along an edge.
fn write_along(writer: &mut Writer, edge: Id, to: u32) -> Result<(), Memory>
    ensures { Adds result writer.old writer.new (tokens_of (move_data (way.Edge edge) to)) }
{
    writer.begin_object()?;
    writer.key("edge")?;
    writer.u64(edge.get())?;
    write_target(writer, to)?;
    writer.end_object()?;
    Ok(())
}

// A move along a segment.
fn write_by_segment(writer: &mut Writer, segment: u32, to: u32) -> Result<(), Memory>
    ensures { Adds result writer.old writer.new (tokens_of (move_data (way.Segment segment) to)) }
{
    writer.begin_object()?;
    writer.key("segment")?;
    writer.u64(u64::from(segment))?;
    write_target(writer, to)?;
    writer.end_object()?;
    Ok(())
}

// The member for the state that a move goes to.
fn write_target(writer: &mut Writer, to: u32) -> Result<(), Memory>
    ensures { Adds result writer.old writer.new (key (codes "to") ∷ tokens_of (number_data to)) }
{
    writer.key("to")?;
    writer.u64(u64::from(to))?;
    Ok(())
}

// The text of a name. A word is ASCII.
fn word(name: &Name) -> &str
    ensures { result.now ≡ name.now }
{
    str::from_utf8(name.bytes()).unwrap()
}
