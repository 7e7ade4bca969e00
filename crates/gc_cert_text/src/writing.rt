//! A certificate, as its text.
ghost use Rattle.std.specs.Prelude.{◌≡◌, ◌∷◌, codes, map, IfOk};
ghost use Rattle.gc_cert_text.specs.Certificates.{all_told, told};
ghost use Rattle.gc_cert_text.specs.CertificateTexts.{certificate_data, certificate_text, number_data, search_data};
ghost use Rattle.gc_cert_text.specs.SearchTokens.{found_tokens, place_tokens};
ghost use Rattle.gc_json.specs.CanonicalText.{array_of, graph_data, id_data};
ghost use Rattle.gc_json.specs.Writing.{Adds, tokens_of};
ghost use Rattle.json.specs.Token.{key};

use crate::certificate::Certificate;
use crate::written::{Written, write_array};
use crate::written_expressions::write_expression;
use gc_base::{Bytes, Id, Memory, Steps};
use gc_cert::SearchDoc;
use gc_json::write_graph;
use gc_ppg::Graph;
use json::Writer;
use std::alloc::Global;
use std::sync::ledger::Ledger;

/// The text of a certificate: compact JSON, the keys of each object ascending, and a line feed.
pub fn write<L: Ledger>(
    alloc: Global,
    c: &Certificate,
    steps: &mut Steps<L>,
) -> Result<Bytes, Memory>
    ensures { IfOk result (λ text. text ≡ certificate_text (all_told c.now)) }
{
    let mut writer = Writer::new(Vec::new(alloc));
    write_certificate(alloc, &mut writer, c, steps)?;
    let mut text = writer.into_inner();
    text.push(b'\n')?;
    Ok(Bytes::from_vec(text))
}

fn write_certificate<L: Ledger>(
    alloc: Global,
    writer: &mut Writer,
    c: &Certificate,
    steps: &mut Steps<L>,
) -> Result<(), Memory>
    ensures { Adds result writer.old writer.new (tokens_of (certificate_data (all_told c.now))) }
{
    writer.begin_object()?;
    write_version(writer)?;
    write_searches(alloc, writer, c.searches.as_slice(), steps)?;
    writer.end_object()?;
    Ok(())
}

// The member for the version.
fn write_version(writer: &mut Writer) -> Result<(), Memory>
    ensures { Adds result writer.old writer.new (key (codes "gcore_cert") ∷ tokens_of (number_data 1)) }
{
    writer.key("gcore_cert")?;
    writer.u64(1)?;
    Ok(())
}

// The member for the searches.
fn write_searches<L: Ledger>(
    alloc: Global,
    writer: &mut Writer,
    searches: &[SearchDoc],
    steps: &mut Steps<L>,
) -> Result<(), Memory>
    ensures { Adds result writer.old writer.new (key (codes "searches") ∷ tokens_of (array_of search_data (map told searches.now))) }
{
    writer.key("searches")?;
    write_each(alloc, writer, searches, steps)
}

fn write_each<L: Ledger>(
    alloc: Global,
    writer: &mut Writer,
    searches: &[SearchDoc],
    steps: &mut Steps<L>,
) -> Result<(), Memory>
    ensures { Adds result writer.old writer.new (tokens_of (array_of (λ d. search_data (told d)) searches.now)) }
{
    writer.begin_array()?;
    for search in searches {
        write_search(alloc, writer, search, steps)?;
    }
    writer.end_array()?;
    Ok(())
}

fn write_search<L: Ledger>(
    alloc: Global,
    writer: &mut Writer,
    search: &SearchDoc,
    steps: &mut Steps<L>,
) -> Result<(), Memory>
    ensures { Adds result writer.old writer.new (tokens_of (search_data (told search.now))) }
{
    writer.begin_object()?;
    write_place(alloc, writer, search, steps)?;
    write_found(writer, search)?;
    writer.end_object()?;
    Ok(())
}

// By what and on which graph walks were looked for.
fn write_place<L: Ledger>(
    alloc: Global,
    writer: &mut Writer,
    search: &SearchDoc,
    steps: &mut Steps<L>,
) -> Result<(), Memory>
    ensures { Adds result writer.old writer.new (place_tokens (told search.now)) }
{
    write_expression(alloc, writer, &search.expression)?;
    write_graph_of(writer, &search.graph, steps)
}

// The member for the graph.
fn write_graph_of<L: Ledger>(
    writer: &mut Writer,
    graph: &Graph,
    steps: &mut Steps<L>,
) -> Result<(), Memory>
    ensures { Adds result writer.old writer.new (key (codes "graph") ∷ tokens_of (graph_data graph.now)) }
{
    writer.key("graph")?;
    write_graph(writer, graph, steps)
}

// What was found, from where, and on which segments.
fn write_found(writer: &mut Writer, search: &SearchDoc) -> Result<(), Memory>
    ensures { Adds result writer.old writer.new (found_tokens (told search.now)) }
{
    write_list(writer, "potentials", search.potentials.as_slice())?;
    write_list(writer, "segments", search.segments.as_slice())?;
    write_start(writer, search.start)?;
    write_list(writer, "walks", search.walks.as_slice())?;
    Ok(())
}

// The member for a list.
fn write_list<T: Written>(writer: &mut Writer, name: &str, items: &[T]) -> Result<(), Memory>
    ensures { Adds result writer.old writer.new (key name.now ∷ tokens_of (array_of T.data_of items.now)) }
{
    writer.key(name)?;
    write_array(writer, items)
}

// The member for the start.
fn write_start(writer: &mut Writer, start: Id) -> Result<(), Memory>
    ensures { Adds result writer.old writer.new (key (codes "start") ∷ tokens_of (id_data start)) }
{
    writer.key("start")?;
    writer.u64(start.get())?;
    Ok(())
}
