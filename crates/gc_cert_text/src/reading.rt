//! A certificate, from its bytes.
ghost use Rattle.std.specs.Prelude.{◌≡◌, ◌≤◌, IfOk};
ghost use Rattle.gc_json.specs.JsonValues.{value_of};
ghost use Rattle.gc_json.specs.Reading.{or_refused};
ghost use Rattle.gc_regx.specs.Views.{regex_tree};
ghost use Rattle.serde_json.specs.Data.{depth, items_depth};
ghost use Rattle.serde_json.specs.View.{view, items_view};
ghost use Rattle.gc_cert_text.specs.Certificates.{all_told, certificate_of, certificate_of_data, search_of, search_on, searches_from, searches_in, told, Tells};
ghost use Rattle.gc_cert_text.specs.declared.refusal.CertRefusal.TheVariants as refusal;

use crate::certificate::{Certificate, SearchDocList};
use crate::expressions::tree_in;
use crate::graphs::graph_in;
use crate::refusal::CertRefusal;
use crate::search_numbers::numbers_in;
use crate::segments::segments_in;
use crate::shapes::{array_at, has_document_shape};
use gc_base::Steps;
use gc_cert::SearchDoc;
use gc_ppg::Graph;
use gc_regx::Regex;
use serde_json::Value;
use std::alloc::Global;
use std::sync::ledger::Ledger;

/// The certificate that bytes tell. Bytes that tell none are refused for the first rule that they break:
/// their JSON, the shape of the whole document, and then search by search the graph, the expression, all
/// numbers, and the segments. A step is taken for each element of a graph that is asked for.
pub fn read<L: Ledger>(
    alloc: Global,
    bytes: &[u8],
    steps: &mut Steps<L>,
) -> Result<Certificate, CertRefusal>
    ensures { Tells all_told (certificate_of bytes.now) result }
{
    let value = value_of(alloc, bytes)?;
    certificate_of_value(alloc, &value, steps)
}

// The value of JSON text.
fn value_of(alloc: Global, bytes: &[u8]) -> Result<Value, CertRefusal>
    ensures value { Tells view (or_refused refusal.NotJson (value_of bytes.now)) result }
    ensures nests { IfOk result (λ value. depth (view value) ≤ 127) }
{
    match Value::from_slice(alloc, bytes) {
        Ok(value) => Ok(value),
        Err(error) if error.is_memory() => Err(CertRefusal::Memory),
        Err(_) => Err(CertRefusal::NotJson),
    }
}

// The certificate of a value.
fn certificate_of_value<L: Ledger>(
    alloc: Global,
    value: &Value,
    steps: &mut Steps<L>,
) -> Result<Certificate, CertRefusal>
    requires { depth (view value.now) ≤ 127 }
    ensures { Tells all_told (certificate_of_data (view value.now)) result }
{
    if !has_document_shape(value) {
        return Err(CertRefusal::WrongShape);
    }
    match array_at(value, "searches") {
        None => Err(CertRefusal::WrongShape),
        Some(items) => searches_from(alloc, items, steps),
    }
}

// The searches of an array, one after another.
fn searches_from<L: Ledger>(
    alloc: Global,
    items: &[Value],
    steps: &mut Steps<L>,
) -> Result<Certificate, CertRefusal>
    requires { items_depth (items_view items.now) ≤ 127 }
    ensures { Tells all_told (searches_from 0 (items_view items.now)) result }
{
    let mut searches = SearchDocList::new(alloc);
    for item in items {
        let search = search_of(alloc, searches.len(), item, steps)?;
        searches.push(search)?;
    }
    Ok(Certificate { searches })
}

// The search of a number: first its graph, then its expression, then the rest.
fn search_of<L: Ledger>(
    alloc: Global,
    number: u32,
    value: &Value,
    steps: &mut Steps<L>,
) -> Result<SearchDoc, CertRefusal>
    requires { depth (view value.now) ≤ 127 }
    ensures { Tells told (search_of number (view value.now)) result }
{
    let Some(graph) = graph_in(alloc, value)? else {
        return Err(CertRefusal::BadGraph(number));
    };
    let Some(expression) = tree_in(alloc, value)? else {
        return Err(CertRefusal::BadExpression(number));
    };
    search_on(alloc, number, value, graph, expression, steps)
}

// A search of a graph and an expression: first all of its numbers, and then its segments.
fn search_on<L: Ledger>(
    alloc: Global,
    number: u32,
    value: &Value,
    graph: Graph,
    expression: Regex,
    steps: &mut Steps<L>,
) -> Result<SearchDoc, CertRefusal>
    ensures { Tells told (search_on number (view value.now) graph (regex_tree expression)) result }
{
    let Some(numbers) = numbers_in(alloc, value)? else {
        return Err(CertRefusal::BadNumber(number));
    };
    let Some(segments) = segments_in(alloc, &graph, value, steps)? else {
        return Err(CertRefusal::BadSegment(number));
    };
    Ok(SearchDoc {
        expression,
        graph,
        potentials: numbers.potentials,
        segments,
        start: numbers.start,
        walks: numbers.walks,
    })
}
