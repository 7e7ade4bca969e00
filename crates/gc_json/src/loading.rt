ghost use Rattle.std.specs.Prelude.{◌≡◌, true, IfOk};
ghost use Rattle.json.specs.Lex.{tokens};
ghost use Rattle.serde_json.specs.Data.{object, no_members};
ghost use Rattle.gc_ppg.specs.Shapes.{graph_agrees};
ghost use Rattle.gc_json.specs.Entries.{puts};
ghost use Rattle.gc_json.specs.Frames.{frame_of, entry_lists};
ghost use Rattle.gc_json.specs.GraphFiles.{file_graph, graph_of_data, graph_of_lists, text_graph, Loads};
ghost use Rattle.gc_json.specs.ListWalks.{OfObject};
ghost use Rattle.gc_json.specs.Reading.{Gives};

use crate::fault::Failure;
use crate::first_pass::frame_of_text;
use crate::frame::Frame;
use crate::listing::add_list;
use crate::one_pass::graph_in_one_pass;
use crate::refusal::{GraphRefusal, WHOLE};
use gc_base::NamePool;
use gc_ppg::{Coherence, Graph, GraphBuilder, Kind};
use json::Scratch;
use std::alloc::Global;

/// The most elements that a file may list.
pub(crate) const MOST_ELEMENTS: usize = 1_000_000;

/// The graph of a graph file, beside the graphs of the files before it. A file that has none is
/// refused for the first rule that it breaks: its JSON, its shape, the number of its elements, and
/// then element by element, nodes before edges before paths.
pub fn load(alloc: Global, bytes: &[u8], seen: &Coherence) -> Result<Graph, GraphRefusal>
    ensures loads { Loads (file_graph seen.now bytes.now) result }
    ensures agrees { IfOk result (λ g. graph_agrees seen.now g ≡ true) }
{
    match graph_of(alloc, bytes, seen) {
        Ok(builder) => Ok(builder.finish()?),
        Err(Failure::Refused(refusal)) => Err(refusal),
        Err(Failure::Memory) => Err(GraphRefusal::Memory),
    }
}

// The graph of a file.
fn graph_of(
    alloc: Global,
    bytes: &[u8],
    seen: &Coherence,
) -> Result<GraphBuilder, Failure<GraphRefusal>>
    ensures { Gives (λ builder. builder) (file_graph seen.now bytes.now) result }
{
    match str::from_utf8(bytes) {
        Ok(text) => graph_of_text(alloc, text, seen),
        Err(_) => Err(Failure::Refused(GraphRefusal::NotJson)),
    }
}

// The graph of a text. Most files give theirs in one pass; of all others the passes after it tell.
fn graph_of_text(
    alloc: Global,
    text: &str,
    seen: &Coherence,
) -> Result<GraphBuilder, Failure<GraphRefusal>>
    ensures { Gives (λ builder. builder) (text_graph seen.now text.now) result }
{
    let mut scratch = Scratch::new(alloc);
    if let Some(builder) = graph_in_one_pass(alloc, text, &mut scratch, seen) {
        return Ok(builder);
    }
    let frame = frame_of_text(alloc, text, &mut scratch)?;
    graph_of_frame(alloc, text, &mut scratch, &frame, seen)
}

// The graph of a text that has this frame.
fn graph_of_frame(
    alloc: Global,
    text: &str,
    scratch: &mut Scratch,
    frame: &Frame,
    seen: &Coherence,
) -> Result<GraphBuilder, Failure<GraphRefusal>>
    ensures { OfObject (tokens text.now) (λ es. frame.now ≡ frame_of es
        → Gives (λ builder. builder) (graph_of_data seen.now (object (puts no_members es))) result) }
{
    match frame.count() {
        None => Err(Failure::Refused(GraphRefusal::WrongShape(WHOLE))),
        Some(count) => if count > MOST_ELEMENTS {
            Err(Failure::Refused(GraphRefusal::TooMany))
        } else {
            graph_of_lists(alloc, text, scratch, frame, seen)
        },
    }
}

// The graph of the lists: nodes, then edges, then paths. They share one pool of names.
fn graph_of_lists(
    alloc: Global,
    text: &str,
    scratch: &mut Scratch,
    frame: &Frame,
    seen: &Coherence,
) -> Result<GraphBuilder, Failure<GraphRefusal>>
    ensures { OfObject (tokens text.now) (λ es. frame.now ≡ frame_of es
        → Gives (λ builder. builder) (graph_of_lists seen.now (entry_lists es)) result) }
{
    let names = &mut NamePool::new(alloc)?;
    let mut builder = GraphBuilder::new(alloc);
    add_list(names, text, scratch, frame, &mut builder, seen, Kind::Node)?;
    add_list(names, text, scratch, frame, &mut builder, seen, Kind::Edge)?;
    add_list(names, text, scratch, frame, &mut builder, seen, Kind::Path)?;
    Ok(builder)
}
