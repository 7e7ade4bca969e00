ghost use Rattle.gc_ast.specs.PatternViews.{named};
ghost use Rattle.gc_ast.specs.QueryViews.{query_tree};
ghost use Rattle.gc_ast.specs.Trees.{View};
ghost use Rattle.gc_lower.specs.Namings.{scope_of};
ghost use Rattle.gc_query.specs.Built.{IsBuilt};
ghost use Rattle.gc_query.specs.Logged.{IsLogged};
ghost use Rattle.gc_query.specs.Steps.{IsStep};

use crate::fault::QueryRefusal;
use crate::log::RunLog;
use crate::naming::stand_named;
use crate::steps::answered;
use gc_ast::Query;
use gc_base::{Memory, NameAt, Steps};
use gc_catalog::Catalog;
use gc_ppg::Graph;
use gc_sorts::Checked;
use std::alloc::Global;
use std::sync::ledger::Ledger;

/// Evaluates a graph view, whose graph stands in the catalog from then on.
pub(crate) fn view_step<L: Ledger>(
    alloc: Global,
    checked: &Checked,
    name: NameAt,
    query: &Query,
    catalog: &mut Catalog,
    log: &mut RunLog,
    steps: &mut Steps<L>,
) -> Result<Option<Graph>, QueryRefusal>
    requires { IsBuilt (scope_of checked.now 0) (query_tree checked.now.file.names query.now) }
    ensures step { IsStep (scope_of checked.now 0) catalog.old catalog.new
        (View (named checked.now.file.names name) (query_tree checked.now.file.names query.now)) result }
    ensures log { IsLogged (scope_of checked.now 0) catalog.old
        (View (named checked.now.file.names name) (query_tree checked.now.file.names query.now)) log.old log.new result }
{
    let mut told = log.behind();
    let made = answered(alloc, checked, query, catalog, &mut told, steps)?;
    let (lines, searches) = (log.lines().len(), log.searches().len());
    log.take(told)?;
    let (graphs, free) = (catalog.graphs().len(), catalog.next());
    catalog.set_next(made.next);
    match stand_named(checked, name, made.graph, catalog) {
        Ok(()) => Ok(None),
        Err(Memory) => {
            catalog.back_to(graphs, free);
            log.back_to(lines, searches);
            Err(QueryRefusal::Memory)
        }
    }
}
