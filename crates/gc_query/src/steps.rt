ghost use Rattle.std.specs.Prelude.{◌≡◌, ◌<◌, true, length, OnOk};
ghost use Rattle.gc_ast.specs.QueryViews.{file_trees, query_tree, statement_tree};
ghost use Rattle.gc_ast.specs.Trees.{Ask};
ghost use Rattle.gc_lower.specs.Namings.{file_of, scope_of};
ghost use Rattle.gc_query.specs.Answered.{ComesOf, IsAnswered, Rises};
ghost use Rattle.gc_query.specs.Built.{AreBuilt, IsBuilt};
ghost use Rattle.gc_query.specs.Evaluations.{Evaluates};
ghost use Rattle.gc_query.specs.Logged.{IsLogged, IsLoggedAt};
ghost use Rattle.gc_query.specs.Logs.{Tells};
ghost use Rattle.gc_query.specs.Queries.{Denotes};
ghost use Rattle.gc_query.specs.Steps.{IsStep, IsStepAt, standing};

use crate::fault::QueryRefusal;
use crate::graph_views::view_step;
use crate::log::{RunLog, Told};
use crate::made::Made;
use crate::queries::query_made;
use crate::session::Session;
use gc_ast::{Query, Statement};
use gc_base::Steps;
use gc_catalog::Catalog;
use gc_ppg::Graph;
use gc_sorts::Checked;
use std::alloc::Global;
use std::sync::ledger::Ledger;

/// Evaluates the statement of a number over the graphs of a catalog, and gives the graph that it prints. A
/// graph view prints none: its graph stands in the catalog from then on, under its name where that is a word
/// which no graph has. The file has to be built. A statement is refused with its fault exactly where it has
/// one; after a refusal the catalog and the log are as before. The log gains what it wants of the CONSTRUCTs that
/// are evaluated, those of heads and of graph views too. `steps` counts what is read.
pub fn step<L: Ledger>(
    alloc: Global,
    checked: &Checked,
    i: usize,
    catalog: &mut Catalog,
    log: &mut RunLog,
    steps: &mut Steps<L>,
) -> Result<Option<Graph>, QueryRefusal>
    requires built { AreBuilt (file_of checked.now) }
    requires there { i < length (file_trees checked.now.file) }
    ensures step { IsStepAt (scope_of checked.now 0) catalog.old catalog.new (file_trees checked.now.file) i result }
    ensures log { IsLoggedAt (scope_of checked.now 0) catalog.old (file_trees checked.now.file) i log.old log.new result }
{
    statement_step(
        alloc,
        checked,
        &checked.file().statements[i],
        catalog,
        log,
        steps,
    )
}

// Evaluates a statement.
fn statement_step<L: Ledger>(
    alloc: Global,
    checked: &Checked,
    statement: &Statement,
    catalog: &mut Catalog,
    log: &mut RunLog,
    steps: &mut Steps<L>,
) -> Result<Option<Graph>, QueryRefusal>
    requires { IsBuilt (scope_of checked.now 0) (statement_tree checked.now.file.names statement.now) }
    ensures step { IsStep (scope_of checked.now 0) catalog.old catalog.new (statement_tree checked.now.file.names statement.now) result }
    ensures log { IsLogged (scope_of checked.now 0) catalog.old (statement_tree checked.now.file.names statement.now) log.old log.new result }
{
    match statement {
        Statement::Ask(query) => ask_step(alloc, checked, query, catalog, log, steps),
        Statement::View { name, query } => {
            view_step(alloc, checked, *name, query, catalog, log, steps)
        }
    }
}

// Evaluates a query statement, which prints its graph.
fn ask_step<L: Ledger>(
    alloc: Global,
    checked: &Checked,
    query: &Query,
    catalog: &mut Catalog,
    log: &mut RunLog,
    steps: &mut Steps<L>,
) -> Result<Option<Graph>, QueryRefusal>
    requires { IsBuilt (scope_of checked.now 0) (query_tree checked.now.file.names query.now) }
    ensures step { IsStep (scope_of checked.now 0) catalog.old catalog.new (Ask (query_tree checked.now.file.names query.now)) result }
    ensures log { IsLogged (scope_of checked.now 0) catalog.old (Ask (query_tree checked.now.file.names query.now)) log.old log.new result }
{
    let mut told = log.behind();
    let made = answered(alloc, checked, query, catalog, &mut told, steps)?;
    log.take(told)?;
    catalog.set_next(made.next);
    Ok(Some(made.graph))
}

/// What a query comes to over the graphs of a catalog, which is as before.
pub(crate) fn answered<L: Ledger>(
    alloc: Global,
    checked: &Checked,
    query: &Query,
    catalog: &mut Catalog,
    told: &mut Told,
    steps: &mut Steps<L>,
) -> Result<Made, QueryRefusal>
    requires { IsBuilt (scope_of checked.now 0) (query_tree checked.now.file.names query.now) }
    ensures due { IsAnswered (Denotes (scope_of checked.now 0) (standing catalog.old) (query_tree checked.now.file.names query.now)) result }
    ensures rises { Rises catalog.old.next result }
    ensures comes { ComesOf catalog.old.graphs catalog.old.next result }
    ensures kept { catalog.new ≡ catalog.old }
    ensures told { OnOk result (Tells (scope_of checked.now 0)
        (Evaluates (scope_of checked.now 0) catalog.old.names (standing catalog.old) (query_tree checked.now.file.names query.now)) told.old told.new) }
{
    let session = Session { alloc, checked };
    let next = catalog.next();
    query_made(query, &session, catalog, next, told, steps)
}
