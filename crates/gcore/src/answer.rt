ghost use Rattle.std.specs.Prelude.{◌≡◌, true, Some};
ghost use Rattle.gcore.specs.Pairs.{are_graphs};
ghost use Rattle.gcore.specs.CommandLines.{KeepsLimits};
ghost use Rattle.gcore.specs.Endings.{Answers, Call, Change, HoldsText};
ghost use Rattle.gcore.specs.declared.command.Command.TheVariants.{Cert, Explain, Run};

use crate::certify::certify_session;
use crate::checking::run_check;
use crate::command::Command;
use crate::explain::explain_session;
use crate::graphs::read_graphs;
use crate::inputs::read_query;
use crate::made::run_make;
use crate::pair::{Pair, names_of};
use crate::session::run_session;
use crate::stop::Stop;
use crate::style::Style;
use gc_base::{Steps, Str};
use gc_io::{Folder, Sink};
use std::alloc::Global;
use std::mem::ManuallyDrop;
use std::sync::ledger::Ledger;

/// Runs a command: its graph files are read first, then the query file, then the answer is written. `check` reads a
/// document alone, and `make` no file.
pub fn run<F: Folder, S: Sink, L: Ledger>(
    alloc: Global,
    command: &Command,
    folder: &mut F,
    out: &mut S,
    steps: &mut Steps<L>,
) -> Result<(), Stop>
    requires limits { KeepsLimits command.now }
    requires room { HoldsText (S.room out.old) (F.files folder.old) (Some command.now) }
    ensures outcome { Answers (record {
      command = Some command.now;
      files = F.files folder.old;
      faults_before = F.faults folder.old;
      faults_after = F.faults folder.new;
      out = record {
        faults_before = S.faults out.old;
        faults_after = S.faults out.new;
        taken_before = S.taken out.old;
        taken_after = S.taken out.new;
      };
    }) result }
    ensures kept { F.files folder.new ≡ F.files folder.old }
{
    match command {
        Command::Run { query, graphs } => {
            run_query(alloc, query, graphs.as_slice(), folder, out, steps)
        }
        Command::Cert { query, graphs } => {
            certify_query(alloc, query, graphs.as_slice(), folder, out, steps)
        }
        Command::Explain { query, graphs } => {
            explain_query(alloc, query, graphs.as_slice(), folder, out, steps)
        }
        Command::Check { document } => run_check(alloc, document, folder, out, steps),
        Command::Make { kind, size, start } => { run_make(alloc, *kind, *size, *start, out, steps) }
    }
}

// Reads graph files and a query file, and runs the session.
fn run_query<F: Folder, S: Sink, L: Ledger>(
    alloc: Global,
    query: &Str,
    pairs: &[Pair],
    folder: &mut F,
    out: &mut S,
    steps: &mut Steps<L>,
) -> Result<(), Stop>
    requires graphs { are_graphs pairs.now ≡ true }
    requires room { HoldsText (S.room out.old) (F.files folder.old) (Some (Run query.now pairs.now)) }
    ensures outcome { Answers (record {
      command = Some (Run query.now pairs.now);
      files = F.files folder.old;
      faults_before = F.faults folder.old;
      faults_after = F.faults folder.new;
      out = record {
        faults_before = S.faults out.old;
        faults_after = S.faults out.new;
        taken_before = S.taken out.old;
        taken_after = S.taken out.new;
      };
    }) result }
    ensures kept { F.files folder.new ≡ F.files folder.old }
{
    let mut catalog = read_graphs(alloc, folder, pairs)?;
    let names = names_of(alloc, pairs)?;
    let checked = read_query(alloc, folder, query, &names)?;
    let written = run_session(alloc, &checked, &mut catalog, Style::Text, out, steps);
    // The program ends with the answer, and the system takes the memory of the graphs back whole.
    let _kept = ManuallyDrop::new(catalog);
    written
}

// The same for a session that is explained.
fn explain_query<F: Folder, S: Sink, L: Ledger>(
    alloc: Global,
    query: &Str,
    pairs: &[Pair],
    folder: &mut F,
    out: &mut S,
    steps: &mut Steps<L>,
) -> Result<(), Stop>
    requires graphs { are_graphs pairs.now ≡ true }
    requires room { HoldsText (S.room out.old) (F.files folder.old) (Some (Explain query.now pairs.now)) }
    ensures outcome { Answers (record {
      command = Some (Explain query.now pairs.now);
      files = F.files folder.old;
      faults_before = F.faults folder.old;
      faults_after = F.faults folder.new;
      out = record {
        faults_before = S.faults out.old;
        faults_after = S.faults out.new;
        taken_before = S.taken out.old;
        taken_after = S.taken out.new;
      };
    }) result }
    ensures kept { F.files folder.new ≡ F.files folder.old }
{
    let mut catalog = read_graphs(alloc, folder, pairs)?;
    let names = names_of(alloc, pairs)?;
    let checked = read_query(alloc, folder, query, &names)?;
    let written = explain_session(alloc, &checked, &mut catalog, out, steps);
    let _kept = ManuallyDrop::new(catalog);
    written
}

// The same for a session that is certified.
fn certify_query<F: Folder, S: Sink, L: Ledger>(
    alloc: Global,
    query: &Str,
    pairs: &[Pair],
    folder: &mut F,
    out: &mut S,
    steps: &mut Steps<L>,
) -> Result<(), Stop>
    requires graphs { are_graphs pairs.now ≡ true }
    requires room { HoldsText (S.room out.old) (F.files folder.old) (Some (Cert query.now pairs.now)) }
    ensures outcome { Answers (record {
      command = Some (Cert query.now pairs.now);
      files = F.files folder.old;
      faults_before = F.faults folder.old;
      faults_after = F.faults folder.new;
      out = record {
        faults_before = S.faults out.old;
        faults_after = S.faults out.new;
        taken_before = S.taken out.old;
        taken_after = S.taken out.new;
      };
    }) result }
    ensures kept { F.files folder.new ≡ F.files folder.old }
{
    let mut catalog = read_graphs(alloc, folder, pairs)?;
    let names = names_of(alloc, pairs)?;
    let checked = read_query(alloc, folder, query, &names)?;
    let written = certify_session(alloc, &checked, &mut catalog, out, steps);
    let _kept = ManuallyDrop::new(catalog);
    written
}
