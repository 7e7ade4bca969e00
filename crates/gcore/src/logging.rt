ghost use Rattle.std.specs.Prelude.{◌≡◌, ◌<◌, length};
ghost use Rattle.gc_ast.specs.QueryViews.{file_trees};
ghost use Rattle.gc_lower.specs.Namings.{file_of, scope_of};
ghost use Rattle.gc_query.specs.Built.{AreBuilt};
ghost use Rattle.gcore.specs.LoggedSessions.{LogsSession, LogsStatementAt};
ghost use Rattle.gcore.specs.Outcomes.{Request, free_above};
ghost use Rattle.gcore.specs.QueryFiles.{placed};
ghost use Rattle.gcore.specs.declared.style.Style.TheVariants.{Text};

use crate::session::stop_of;
use crate::stop::Stop;
use gc_base::Steps;
use gc_catalog::Catalog;
use gc_query::{QueryRefusal, RunLog, Wants, step, what_a_log_gains_in_turn_it_gains_together};
use gc_sorts::Checked;
use std::alloc::Global;
use std::sync::ledger::Ledger;

/// Evaluates the statements of a query file over loaded graphs, one after another, and keeps what is wanted of the
/// CONSTRUCTs among them. A fault ends all.
pub fn log_session<L: Ledger>(
    alloc: Global,
    checked: &Checked,
    catalog: &mut Catalog,
    wants: Wants,
    steps: &mut Steps<L>,
) -> Result<RunLog, Stop>
    requires built { AreBuilt (file_of checked.now) }
    requires begins { catalog.old.next ≡ free_above catalog.old.graphs }
    ensures { LogsSession catalog.old.names (record { graphs = catalog.old.graphs; query = placed checked.now; style = Text }) wants result }
{
    what_a_log_gains_in_turn_it_gains_together();
    let mut log = RunLog::new(alloc, wants);
    for i in 0..checked.file().statements.len() {
        log_statement(alloc, checked, i, catalog, &mut log, steps)?;
    }
    Ok(log)
}

// Evaluates one statement, and tells the log of it.
fn log_statement<L: Ledger>(
    alloc: Global,
    checked: &Checked,
    i: usize,
    catalog: &mut Catalog,
    log: &mut RunLog,
    steps: &mut Steps<L>,
) -> Result<(), Stop>
    requires built { AreBuilt (file_of checked.now) }
    requires there { i < length (file_trees checked.now.file) }
    ensures { LogsStatementAt (scope_of checked.now 0) (placed checked.now).places catalog.old catalog.new log.old log.new
        (file_trees checked.now.file) i result }
{
    match step(alloc, checked, i, catalog, log, steps) {
        Ok(_) => Ok(()),
        Err(QueryRefusal::Fault(fault)) => Err(stop_of(alloc, checked, &fault)),
        Err(QueryRefusal::Memory) => Err(Stop::OutOfMemory),
    }
}
