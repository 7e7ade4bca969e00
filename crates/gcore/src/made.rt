ghost use Rattle.std.specs.Prelude.{◌≡◌, ◌∷◌, [], true, IfOk, Ok};
ghost use Rattle.gc_lower.specs.Namings.{file_of};
ghost use Rattle.gc_make.specs.MadeGraphs.{fits, made};
ghost use Rattle.gc_query.specs.Built.{AreBuilt};
ghost use Rattle.gcore.specs.Endings.{Change, HoldsMade, RunsMade};
ghost use Rattle.gcore.specs.MakeQueries.{made_name, make_query};
ghost use Rattle.gcore.specs.Outcomes.{Request, free_above, make_due};
ghost use Rattle.gcore.specs.QueryFiles.{placed, query_file_of};
ghost use Rattle.gcore.specs.declared.stop.Stop.TheVariants.{OutOfMemory};

use crate::graphs::add_loaded;
use crate::laws::a_query_file_that_is_read_is_built;
use crate::query_file::query_file;
use crate::session::run_session;
use crate::stop::Stop;
use crate::style::Style;
use gc_base::{MakeKind, Memory, Name, NameList, Steps};
use gc_catalog::Catalog;
use gc_io::Sink;
use gc_make::{MakeRefusal, make};
use gc_ppg::Graph;
use gc_sorts::Checked;
use std::alloc::Global;
use std::sync::ledger::Ledger;

/// The query that is asked of a made graph.
const MAKE_QUERY: &[u8] = b"CONSTRUCT (m {cost := c}) MATCH (n:First)-/p<:to*> COST c/->(m)";

/// Makes a graph, asks the query of it, and writes the line that tells of both.
pub fn run_make<S: Sink, L: Ledger>(
    alloc: Global,
    kind: MakeKind,
    size: u32,
    start: u32,
    out: &mut S,
    steps: &mut Steps<L>,
) -> Result<(), Stop>
    requires limits { fits kind size start ≡ true }
    requires room { HoldsMade (S.room out.old) kind size start }
    ensures { RunsMade kind size start
        (record { faults_before = S.faults out.old; faults_after = S.faults out.new; taken_before = S.taken out.old; taken_after = S.taken out.new }) result }
{
    match made_session(alloc, kind, size, start) {
        Ok(session) => {
            let MadeSession {
                mut catalog,
                checked,
                style,
            } = session;
            run_session(alloc, &checked, &mut catalog, style, out, steps)
        }
        Err(Memory) => Err(Stop::OutOfMemory),
    }
}

// The session about a made graph.
#[derive(Drop)]
struct MadeSession {
    catalog: Catalog,
    checked: Checked,
    style: Style,
}

fn made_session(alloc: Global, kind: MakeKind, size: u32, start: u32) -> Result<MadeSession, Memory>
    requires { fits kind size start ≡ true }
    ensures due { IfOk result (λ s. make_due kind size start ≡ Ok (record { graphs = s.catalog.graphs; query = placed s.checked; style = s.style })) }
    ensures next { IfOk result (λ s. s.catalog.next ≡ free_above s.catalog.graphs) }
    ensures built { IfOk result (λ s. AreBuilt (file_of s.checked)) }
{
    let graph = made(alloc, kind, size, start)?;
    let style = Style::Summary {
        nodes: graph.node_count(),
        edges: graph.edge_count(),
    };
    let catalog = catalog_of(alloc, graph)?;
    let checked = made_query(alloc)?;
    Ok(MadeSession {
        catalog,
        checked,
        style,
    })
}

// The graph, whose size and start fit.
fn made(alloc: Global, kind: MakeKind, size: u32, start: u32) -> Result<Graph, Memory>
    requires { fits kind size start ≡ true }
    ensures { IfOk result (λ g. g ≡ made kind size start) }
{
    match make(alloc, kind, size, start) {
        Ok(graph) => Ok(graph),
        Err(MakeRefusal::BadSize) => unreachable!(),
        Err(MakeRefusal::Memory) => Err(Memory),
    }
}

// The catalog of the made graph alone, under its name.
fn catalog_of(alloc: Global, graph: Graph) -> Result<Catalog, Memory>
    ensures graphs { IfOk result (λ c. c.graphs ≡ graph ∷ []) }
    ensures next { IfOk result (λ c. c.next ≡ free_above c.graphs) }
{
    let name = made_name(alloc)?;
    let mut catalog = Catalog::new(alloc);
    add_loaded(&mut catalog, &name, graph)?;
    Ok(catalog)
}

// The query, which is one over the name of the made graph.
fn made_query(alloc: Global) -> Result<Checked, Memory>
    ensures file { IfOk result (λ checked. query_file_of (made_name ∷ []) make_query ≡ Ok (placed checked)) }
    ensures built { IfOk result (λ checked. AreBuilt (file_of checked)) }
{
    let mut names = NameList::new(alloc);
    names.push(made_name(alloc)?)?;
    a_query_file_that_is_read_is_built();
    match query_file(alloc, MAKE_QUERY, &names) {
        Ok(checked) => Ok(checked),
        Err(stop) => Err(want_of(stop)),
    }
}

// Want of memory, the one thing that stops the reading of a query that is one.
fn want_of(_stop: Stop) -> Memory
    requires { _stop ≡ OutOfMemory }
{
    Memory
}

// The name of the made graph.
fn made_name(alloc: Global) -> Result<Name, Memory>
    ensures { IfOk result (λ name. name ≡ made_name) }
{
    match Name::of(alloc, b"g")? {
        Some(name) => Ok(name),
        None => unreachable!(),
    }
}
