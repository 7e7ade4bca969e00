ghost use Rattle.std.specs.Prelude.{◌≡◌, ◌≤◌, ◌++◌, ◌^◌, codes, IfOk, OnOk, Some};
ghost use Rattle.std.specs.List.{sum};
ghost use Rattle.gcore.specs.Summaries.{cost_in, cost_of, costs_in, counted, greatest, summary};

use gc_base::{Bytes, Literal, Memory, Name, Sequence, Steps, ValueSet};
use gc_ppg::{Graph, NodeInfo};
use itoa::Buffer;
use std::alloc::Global;
use std::sync::ledger::Ledger;

/// The line that tells of a made graph, by how many nodes and edges it has, and of the answer of its query:
/// how many nodes this has, and the sum and the greatest of their costs.
pub fn summary_text<L: Ledger>(
    alloc: Global,
    nodes: usize,
    edges: usize,
    answer: &Graph,
    steps: &mut Steps<L>,
) -> Result<Bytes, Memory>
    ensures { IfOk result (λ text. text ≡ summary nodes edges answer.now) }
{
    let costs = costs_in(alloc, answer, steps)?;
    let mut text = Vec::new(alloc);
    push_count(&mut text, b"nodes ", nodes as u128)?;
    push_count(&mut text, b" edges ", edges as u128)?;
    push_count(&mut text, b" reached ", answer.node_count() as u128)?;
    push_count(&mut text, b" cost ", costs.sum)?;
    push_count(&mut text, b" farthest ", u128::from(costs.greatest))?;
    text.push(b'\n')?;
    Ok(Sequence::from_vec(text))
}

// Adds a word and a number.
fn push_count(text: &mut Vec<u8>, word: &[u8], number: u128) -> Result<(), Memory>
    ensures { OnOk result (text.new.items ≡ text.old.items ++ counted word.now number) }
{
    let mut digits = Buffer::new();
    text.extend_from_slice(word)?;
    text.extend_from_slice(digits.format(number).as_bytes())?;
    Ok(())
}

// The sum and the greatest of the costs of an answer's nodes. A sum of as many costs as there can be nodes
// fits 128 bits.
#[derive(Clone, Copy, Debug)]
struct Costs {
    sum: u128,
    greatest: u64,
}

fn costs_in<L: Ledger>(alloc: Global, answer: &Graph, steps: &mut Steps<L>) -> Result<Costs, Memory>
    ensures sum { IfOk result (λ costs. costs.sum ≡ sum (costs_in answer.now)) }
    ensures greatest { IfOk result (λ costs. costs.greatest ≡ greatest (costs_in answer.now)) }
{
    let name = cost_name(alloc)?;
    let mut costs = Costs {
        sum: 0,
        greatest: 0,
    };
    for i in 0..answer.node_count() {
        let cost = cost_of(answer.node(i, steps), &name);
        costs.sum += u128::from(cost);
        costs.greatest = costs.greatest.max(cost);
    }
    Ok(costs)
}

// The name of the property that has the cost.
fn cost_name(alloc: Global) -> Result<Name, Memory>
    ensures { IfOk result (λ name. name ≡ codes "cost") }
{
    match Name::of(alloc, b"cost")? {
        Some(name) => Ok(name),
        None => unreachable!(),
    }
}

// The cost of a node.
fn cost_of(node: &NodeInfo, name: &Name) -> u64
    requires { name.now ≡ codes "cost" }
    ensures cost { result ≡ cost_of node.now }
    ensures most { result ≤ 2 ^ 63 }
{
    match node.properties.get(name) {
        Some(values) => cost_in(values),
        None => 0,
    }
}

// The cost among the values of a property.
fn cost_in(values: &ValueSet) -> u64
    ensures cost { result ≡ cost_in (Some values.now) }
    ensures most { result ≤ 2 ^ 63 }
{
    if values.len() != 1 {
        return 0;
    }
    match values.at(0) {
        Literal::Number(number) => number.unsigned_abs(),
        Literal::Truth(_) => 0,
        Literal::Text(_) => 0,
    }
}
