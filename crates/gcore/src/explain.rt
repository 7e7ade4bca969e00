ghost use Rattle.std.specs.Prelude.{◌≡◌, length, IfOk};
ghost use Rattle.gc_base.specs.Sinks.{HasRoom};
ghost use Rattle.gc_lower.specs.Namings.{file_of};
ghost use Rattle.gc_query.specs.Built.{AreBuilt};
ghost use Rattle.gcore.specs.Endings.{Change, WritesText};
ghost use Rattle.gcore.specs.EndTexts.{HoldsAtEnd, WritesAtEnd};
ghost use Rattle.gcore.specs.Explanations.{IsExplainedOver, all_lines};
ghost use Rattle.gcore.specs.Outcomes.{Request, free_above, session_over};
ghost use Rattle.gcore.specs.QueryFiles.{placed};

use crate::logging::log_session;
use crate::session::write_text;
use crate::stop::Stop;
use gc_base::{Bytes, Memory, Steps};
use gc_catalog::Catalog;
use gc_io::Sink;
use gc_query::Wants;
use gc_sorts::Checked;
use std::alloc::Global;
use std::sync::ledger::Ledger;

/// Evaluates the statements of a query file over loaded graphs, one after another, and writes the lines that explain
/// their CONSTRUCTs at the end. A fault ends all, and then nothing is written.
pub fn explain_session<S: Sink, L: Ledger>(
    alloc: Global,
    checked: &Checked,
    catalog: &mut Catalog,
    out: &mut S,
    steps: &mut Steps<L>,
) -> Result<(), Stop>
    requires built { AreBuilt (file_of checked.now) }
    requires begins { catalog.old.next ≡ free_above catalog.old.graphs }
    requires room { HoldsAtEnd (S.room out.old) (IsExplainedOver catalog.old.names (session_over catalog.old.graphs (placed checked.now))) }
    ensures { let r : Request = session_over catalog.old.graphs (placed checked.now) in WritesAtEnd (IsExplainedOver catalog.old.names r) r
        (record { faults_before = S.faults out.old; faults_after = S.faults out.new; taken_before = S.taken out.old; taken_after = S.taken out.new }) result }
{
    let log = log_session(alloc, checked, catalog, Wants::Plans, steps)?;
    write_lines(alloc, log.lines(), out)
}

// Writes lines, one after another.
fn write_lines<S: Sink>(alloc: Global, lines: &[Bytes], out: &mut S) -> Result<(), Stop>
    requires { HasRoom (S.room out.old) (length (all_lines lines.now)) }
    ensures { WritesText (record {
      faults_before = S.faults out.old;
      faults_after = S.faults out.new;
      taken_before = S.taken out.old;
      taken_after = S.taken out.new;
    }) (all_lines lines.now) result }
{
    match all_lines(alloc, lines) {
        Ok(text) => write_text(out, text.as_slice()),
        Err(Memory) => Err(Stop::OutOfMemory),
    }
}

fn all_lines(alloc: Global, lines: &[Bytes]) -> Result<Vec<u8>, Memory>
    ensures { IfOk result (λ text. text.items ≡ all_lines lines.now) }
{
    let mut text = Vec::new(alloc);
    for line in lines {
        text.extend_from_slice(line.as_slice())?;
    }
    Ok(text)
}
