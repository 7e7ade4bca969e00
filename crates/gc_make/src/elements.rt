ghost use Rattle.std.specs.Prelude.{◌≡◌, ◌∷◌, [], ◌<◌, ◌≤◌, ◌^◌, codes, false, true, None, IfOk, OnOk};
ghost use Rattle.gc_base.specs.Words.{is_word};
ghost use Rattle.gc_make.specs.MadeGraphs.{made_edge, made_node, node_labels};
ghost use Rattle.gc_ppg.specs.Built.{missing_end, with_edge, with_node};
ghost use Rattle.gc_spec.specs.PropertyGraph.{ids_of, is_among};

use gc_base::{Id, LabelSet, Memory, Name, Properties};
use gc_ppg::{BuildRefusal, EdgeInfo, GraphBuilder, NodeInfo};
use std::alloc::Global;

/// Adds the node of a number, which is not there.
pub(crate) fn add_node(alloc: Global, builder: &mut GraphBuilder, i: u32) -> Result<(), Memory>
    requires { is_among (ids_of builder.old) i ≡ false }
    ensures { OnOk result (builder.new ≡ with_node builder.old (made_node i)) }
{
    let node = NodeInfo {
        id: id(i),
        labels: node_labels(alloc, i)?,
        properties: Properties::empty(alloc),
    };
    match builder.add_node(node) {
        Ok(()) => Ok(()),
        Err(BuildRefusal::Memory) => Err(Memory),
        Err(_) => unreachable!(),
    }
}

/// Adds an edge, which is not there, between nodes that are.
pub(crate) fn add_edge(
    alloc: Global,
    builder: &mut GraphBuilder,
    number: u32,
    from: u32,
    to: u32,
) -> Result<(), Memory>
    requires fresh { is_among (ids_of builder.old) number ≡ false }
    requires ends { missing_end builder.old.nodes (made_edge number from to) ≡ None }
    ensures { OnOk result (builder.new ≡ with_edge builder.old (made_edge number from to)) }
{
    let edge = EdgeInfo {
        id: id(number),
        from: id(from),
        to: id(to),
        labels: edge_labels(alloc)?,
        properties: Properties::empty(alloc),
    };
    match builder.add_edge(edge) {
        Ok(()) => Ok(()),
        Err(BuildRefusal::Memory) => Err(Memory),
        Err(_) => unreachable!(),
    }
}

fn id(number: u32) -> Id
    ensures { result ≡ number }
{
    Id::new(u64::from(number)).unwrap()
}

fn node_labels(alloc: Global, i: u32) -> Result<LabelSet, Memory>
    ensures { IfOk result (λ labels. labels ≡ node_labels i) }
{
    let mut labels = LabelSet::empty(alloc);
    labels.insert(word(alloc, b"Node")?)?;
    if i == 0 {
        labels.insert(word(alloc, b"First")?)?;
    }
    Ok(labels)
}

fn edge_labels(alloc: Global) -> Result<LabelSet, Memory>
    ensures { IfOk result (λ labels. labels ≡ codes "to" ∷ []) }
{
    let mut labels = LabelSet::empty(alloc);
    labels.insert(word(alloc, b"to")?)?;
    Ok(labels)
}

// A name of bytes that are a word.
fn word(alloc: Global, bytes: &[u8]) -> Result<Name, Memory>
    requires { is_word bytes.now ≡ true }
    ensures { IfOk result (λ name. name ≡ bytes.now) }
{
    match Name::of(alloc, bytes)? {
        Some(name) => Ok(name),
        None => unreachable!(),
    }
}
