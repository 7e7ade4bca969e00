ghost use Rattle.std.specs.Prelude.{◌≡◌, ◌≤◌, [], IfOk};
ghost use Rattle.serde_json.specs.Data.{depth};
ghost use Rattle.serde_json.specs.View.{view};
ghost use Rattle.gc_json.specs.GraphFiles.{graph_of_data};
ghost use Rattle.gc_cert_text.specs.Graphs.{graph_in, is_want};
ghost use Rattle.gc_cert_text.specs.Options.{found};

use gc_base::Memory;
use gc_json::{GraphRefusal, load};
use gc_ppg::{Coherence, Graph};
use serde_json::Value;
use std::alloc::Global;

// The graph of a search. It is written again and loaded as a graph file, so that graphs have one reader.
pub(crate) fn graph_in(alloc: Global, value: &Value) -> Result<Option<Graph>, Memory>
    requires { depth (view value.now) ≤ 127 }
    ensures { IfOk result (λ graph. graph ≡ graph_in (view value.now)) }
{
    match value.get("graph") {
        None => Ok(None),
        Some(graph) => graph_of(alloc, graph),
    }
}

// The graph of a value.
fn graph_of(alloc: Global, value: &Value) -> Result<Option<Graph>, Memory>
    requires { depth (view value.now) ≤ 127 }
    ensures { IfOk result (λ graph. graph ≡ found (graph_of_data [] (view value.now))) }
{
    let text = value.to_string(alloc)?;
    match load(alloc, text.as_str().as_bytes(), &Coherence::new(alloc)) {
        Ok(graph) => Ok(Some(graph)),
        Err(refusal) => if is_want(refusal) {
            Err(Memory)
        } else {
            Ok(None)
        },
    }
}

// Whether a refusal is want of memory.
fn is_want(refusal: GraphRefusal) -> bool
    ensures { result ≡ is_want refusal }
{
    matches!(refusal, GraphRefusal::Memory)
}
