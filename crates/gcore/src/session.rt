ghost use Rattle.std.specs.Prelude.{◌≡◌, ◌<◌, ◌⊎◌, true, length, IfOk, OnOk};
ghost use Rattle.gc_ast.specs.QueryViews.{file_trees};
ghost use Rattle.gc_base.specs.Sinks.{HasRoom, room_after};
ghost use Rattle.gc_lower.specs.Namings.{file_of, scope_of};
ghost use Rattle.gc_query.specs.Built.{AreBuilt};
ghost use Rattle.gc_query.specs.Steps.{standing};
ghost use Rattle.gcore.specs.Endings.{Change, HoldsTexts, RunsSession, WritesText, stop_of_fault};
ghost use Rattle.gcore.specs.Outcomes.{Request, free_above, graph_text, printed};
ghost use Rattle.gcore.specs.QueryFiles.{place_at, placed};
ghost use Rattle.gcore.specs.SessionSteps.{HoldsPrinted, RunsStatementAt, Turn};
ghost use Rattle.gcore.specs.declared.stop.Stop.TheVariants.{OutOfMemory};

use crate::placed_fault::PlacedFault;
use crate::stop::Stop;
use crate::style::Style;
use crate::summary::summary_text;
use crate::walk_text::walk_text;
use gc_base::{Bytes, Memory, Place, Steps};
use gc_catalog::Catalog;
use gc_io::{Sink, SinkFault, write_whole};
use gc_json::print;
use gc_ppg::Graph;
use gc_query::{Fault, QueryRefusal, RunLog, Wants, step};
use gc_sorts::Checked;
use std::alloc::Global;
use std::sync::ledger::Ledger;

/// Runs the statements of a query file over loaded graphs, one after another. Each graph that is printed is
/// written, in this style, before the next statement is evaluated, and a fault ends all.
pub fn run_session<S: Sink, L: Ledger>(
    alloc: Global,
    checked: &Checked,
    catalog: &mut Catalog,
    style: Style,
    out: &mut S,
    steps: &mut Steps<L>,
) -> Result<(), Stop>
    requires built { AreBuilt (file_of checked.now) }
    requires begins { catalog.old.next ≡ free_above catalog.old.graphs }
    requires room { HoldsTexts (S.room out.old) (record { graphs = catalog.old.graphs; query = placed checked.now; style = style }) }
    ensures { RunsSession (record { graphs = catalog.old.graphs; query = placed checked.now; style = style })
        (record { faults_before = S.faults out.old; faults_after = S.faults out.new; taken_before = S.taken out.old; taken_after = S.taken out.new }) result }
{
    let mut log = RunLog::new(alloc, Wants::Nothing);
    for i in 0..checked.file().statements.len() {
        run_statement(alloc, checked, i, catalog, style, &mut log, out, steps)?;
    }
    Ok(())
}

// Runs one statement, and writes what it prints.
fn run_statement<S: Sink, L: Ledger>(
    alloc: Global,
    checked: &Checked,
    i: usize,
    catalog: &mut Catalog,
    style: Style,
    log: &mut RunLog,
    out: &mut S,
    steps: &mut Steps<L>,
) -> Result<(), Stop>
    requires built { AreBuilt (file_of checked.now) }
    requires there { i < length (file_trees checked.now.file) }
    requires room { HoldsPrinted (S.room out.old) style (scope_of checked.now 0) (standing catalog.old) (file_trees checked.now.file) i }
    ensures { RunsStatementAt (scope_of checked.now 0) (placed checked.now).places
        (record {
          style = style;
          before = standing catalog.old;
          after = standing catalog.new;
          out = record { faults_before = S.faults out.old; faults_after = S.faults out.new; taken_before = S.taken out.old; taken_after = S.taken out.new };
          room_before = S.room out.old;
          room_later = S.room out.new;
        }) (file_trees checked.now.file) i result }
{
    match step(alloc, checked, i, catalog, log, steps) {
        Ok(Some(graph)) => write_graph(alloc, &graph, style, out, steps),
        Ok(None) => Ok(()),
        Err(QueryRefusal::Fault(fault)) => Err(stop_of(alloc, checked, &fault)),
        Err(QueryRefusal::Memory) => Err(Stop::OutOfMemory),
    }
}

/// A fault as a stop, with the place of its token, or want of memory.
pub fn stop_of(alloc: Global, checked: &Checked, fault: &Fault) -> Stop
    ensures { (result ≡ stop_of_fault (placed checked.now).places fault.now) ⊎ (result ≡ OutOfMemory) }
{
    match fault {
        Fault::Undefined { at, row, why } => {
            Stop::Faulted(PlacedFault::Undefined(*why, place_at(checked, *at), *row))
        }
        Fault::BadCost { at, walk } => match walk_text(alloc, walk) {
            Ok(text) => Stop::Faulted(PlacedFault::BadCost(place_at(checked, *at), text)),
            Err(Memory) => Stop::OutOfMemory,
        },
        Fault::CostPastRange { at, row } => {
            Stop::Faulted(PlacedFault::CostPastRange(place_at(checked, *at), *row))
        }
        Fault::IdsSpent { at, needed } => {
            Stop::Faulted(PlacedFault::IdsSpent(place_at(checked, *at), *needed))
        }
    }
}

// The place of the token of a number, and that of the end of the text behind the last.
fn place_at(checked: &Checked, token: u32) -> Place
    ensures { result ≡ place_at (placed checked.now).places token }
{
    let file = checked.file();
    match file.places.as_slice().get(token as usize) {
        Some(place) => *place,
        None => file.end,
    }
}

// Writes a graph.
fn write_graph<S: Sink, L: Ledger>(
    alloc: Global,
    graph: &Graph,
    style: Style,
    out: &mut S,
    steps: &mut Steps<L>,
) -> Result<(), Stop>
    requires { HasRoom (S.room out.old) (length (printed style graph.now)) }
    ensures written { WritesText (record {
      faults_before = S.faults out.old;
      faults_after = S.faults out.new;
      taken_before = S.taken out.old;
      taken_after = S.taken out.new;
    }) (printed style graph.now) result }
    ensures room { OnOk result (S.room out.new ≡ room_after (S.room out.old) (length (printed style graph.now))) }
    ensures calm { OnOk result (S.faults out.new ≡ S.faults out.old) }
{
    match print_graph(alloc, graph, style, steps) {
        Ok(text) => write_text(out, text.as_slice()),
        Err(Memory) => Err(Stop::OutOfMemory),
    }
}

// A graph as it is written.
fn print_graph<L: Ledger>(
    alloc: Global,
    graph: &Graph,
    style: Style,
    steps: &mut Steps<L>,
) -> Result<Bytes, Memory>
    ensures { IfOk result (λ text. text ≡ printed style graph.now) }
{
    match style {
        Style::Text => graph_text(alloc, graph, steps),
        Style::Summary { nodes, edges } => summary_text(alloc, nodes, edges, graph, steps),
    }
}

// The text of a graph, and a line feed.
fn graph_text<L: Ledger>(
    alloc: Global,
    graph: &Graph,
    steps: &mut Steps<L>,
) -> Result<Bytes, Memory>
    ensures { IfOk result (λ text. text ≡ graph_text graph.now) }
{
    let mut text = print(alloc, graph, steps)?;
    text.push(b'\n')?;
    Ok(text)
}

/// Writes a text.
pub fn write_text<S: Sink>(out: &mut S, text: &[u8]) -> Result<(), Stop>
    requires { HasRoom (S.room out.old) (length text.now) }
    ensures written { WritesText (record {
      faults_before = S.faults out.old;
      faults_after = S.faults out.new;
      taken_before = S.taken out.old;
      taken_after = S.taken out.new;
    }) text.now result }
    ensures room { OnOk result (S.room out.new ≡ room_after (S.room out.old) (length text.now)) }
    ensures calm { OnOk result (S.faults out.new ≡ S.faults out.old) }
{
    match write_whole(out, text) {
        Ok(()) => Ok(()),
        Err(SinkFault) => Err(Stop::Unwritten),
    }
}
