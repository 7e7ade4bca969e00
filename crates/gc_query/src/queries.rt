ghost use Rattle.std.specs.Prelude.{◌≡◌, ◌≤◌, [], map, true, IfOk, Ok, OnOk};
ghost use Rattle.gc_ast.specs.QueryViews.{head_tree, next_term_tree, query_tree, term_tree};
ghost use Rattle.gc_ast.specs.Trees.{more, none, row};
ghost use Rattle.gc_query.specs.Answered.{AllCome, AreStood, ComesAlong, ComesOf, IsAnswered, IsLonger, Rises, RisesOver, names_in, scope_in, standing_at};
ghost use Rattle.gc_sets.specs.Origins.{ComesFrom};
ghost use Rattle.gc_query.specs.Built.{IsBuilt};
ghost use Rattle.gc_query.specs.Evaluations.{Evaluates, EvaluatesHead, EvaluatesHeads, EvaluatesLater, EvaluatesTerm, names_under, names_under_all};
ghost use Rattle.gc_query.specs.Logs.{Tells};
ghost use Rattle.gc_query.specs.Queries.{Denotes, DenotesTerm, Heads, Joined, graph_of_number, named, no_elements};
ghost use Rattle.gc_lower.specs.Scopes.{number_at};

use crate::basics::basic_made;
use crate::combining::combined;
use crate::fault::QueryRefusal;
use crate::log::Told;
use crate::made::Made;
use crate::session::Session;
use crate::standing::stand;
use gc_ast::{Head, NextTerm, Query, Term};
use gc_base::{Memory, Steps};
use gc_catalog::Catalog;
use gc_ppg::{Graph, GraphBuilder, GraphList};
use std::alloc::Global;
use std::sync::ledger::Ledger;

/// What a query comes to over the graphs of a catalog, where the next identity is `next`. The graphs that its
/// heads name end with it: the catalog is as before.
#[tactic(auto, unfolding(crate::specs::Queries::Denotes, crate::specs::Built::IsBuilt))]
#[cycle(made)]
pub(crate) fn query_made<L: Ledger>(
    query: &Query,
    session: &Session<'_>,
    catalog: &mut Catalog,
    next: u64,
    told: &mut Told,
    steps: &mut Steps<L>,
) -> Result<Made, QueryRefusal>
    requires built { IsBuilt (scope_in session.now) (query_tree (names_in session.now) query.now) }
    requires later { catalog.old.next ≤ next }
    requires most { next ≤ 9007199254740992 }
    ensures rises { Rises next result }
    ensures due { IsAnswered (Denotes (scope_in session.now) (standing_at catalog.old next) (query_tree (names_in session.now) query.now)) result }
    ensures comes { ComesOf catalog.old.graphs next result }
    ensures kept { catalog.new ≡ catalog.old }
    ensures told { OnOk result (Tells (scope_in session.now) (Evaluates (scope_in session.now) catalog.old.names (standing_at catalog.old next)
        (query_tree (names_in session.now) query.now)) told.old told.new) }
{
    let graphs = catalog.graphs().len();
    let free = catalog.next();
    let result = query_under(query, session, catalog, next, told, steps);
    catalog.back_to(graphs, free);
    result
}

// What a query comes to; what its heads name is left in the catalog.
#[tactic(auto, unfolding(crate::specs::Queries::Denotes, crate::specs::Built::IsBuilt))]
#[cycle(made)]
fn query_under<L: Ledger>(
    query: &Query,
    session: &Session<'_>,
    catalog: &mut Catalog,
    next: u64,
    told: &mut Told,
    steps: &mut Steps<L>,
) -> Result<Made, QueryRefusal>
    requires built { IsBuilt (scope_in session.now) (query_tree (names_in session.now) query.now) }
    requires later { catalog.old.next ≤ next }
    requires most { next ≤ 9007199254740992 }
    ensures rises { Rises next result }
    ensures due { IsAnswered (Denotes (scope_in session.now) (standing_at catalog.old next) (query_tree (names_in session.now) query.now)) result }
    ensures comes { ComesOf catalog.old.graphs next result }
    ensures longer { IsLonger catalog.old catalog.new }
    ensures told { OnOk result (Tells (scope_in session.now) (Evaluates (scope_in session.now) catalog.old.names (standing_at catalog.old next)
        (query_tree (names_in session.now) query.now)) told.old told.new) }
{
    let free = heads_stood(&query.heads, session, catalog, next, told, steps)?;
    let first = term_made(&query.first, session, catalog, free, told, steps)?;
    joined(&query.rest, session, catalog, first, told, steps)
}

// Puts the graphs that heads name behind those that stand.
#[tactic(auto, unfolding(crate::specs::Queries::Denotes, crate::specs::Built::IsBuilt))]
#[cycle(made)]
fn heads_stood<L: Ledger>(
    heads: &[Head],
    session: &Session<'_>,
    catalog: &mut Catalog,
    next: u64,
    told: &mut Told,
    steps: &mut Steps<L>,
) -> Result<u64, QueryRefusal>
    requires built { IsBuilt (scope_in session.now) (row (map (head_tree (names_in session.now)) heads.now)) }
    requires later { catalog.old.next ≤ next }
    requires most { next ≤ 9007199254740992 }
    ensures rises { RisesOver next catalog.new result }
    ensures due { AreStood (Heads (scope_in session.now) (standing_at catalog.old next)
        (row (map (head_tree (names_in session.now)) heads.now))) catalog.new result }
    ensures come { AllCome catalog.old.graphs next catalog.new.graphs result }
    ensures longer { IsLonger catalog.old catalog.new }
    ensures names { OnOk result (catalog.new.names ≡ names_under_all catalog.old.names (row (map (head_tree (names_in session.now)) heads.now))) }
    ensures told { OnOk result (Tells (scope_in session.now) (EvaluatesHeads (scope_in session.now) catalog.old.names (standing_at catalog.old next)
        (row (map (head_tree (names_in session.now)) heads.now))) told.old told.new) }
{
    let mut free = next;
    for head in heads {
        free = head_stood(head, session, catalog, free, told, steps)?;
    }
    Ok(free)
}

// Puts the graph that a head names behind those that stand.
#[tactic(auto, unfolding(crate::specs::Queries::Denotes, crate::specs::Built::IsBuilt))]
#[cycle(made)]
fn head_stood<L: Ledger>(
    head: &Head,
    session: &Session<'_>,
    catalog: &mut Catalog,
    next: u64,
    told: &mut Told,
    steps: &mut Steps<L>,
) -> Result<u64, QueryRefusal>
    requires built { IsBuilt (scope_in session.now) (head_tree (names_in session.now) head.now) }
    requires later { catalog.old.next ≤ next }
    requires most { next ≤ 9007199254740992 }
    ensures rises { RisesOver next catalog.new result }
    ensures due { AreStood (Heads (scope_in session.now) (standing_at catalog.old next)
        (more (head_tree (names_in session.now) head.now) none)) catalog.new result }
    ensures come { AllCome catalog.old.graphs next catalog.new.graphs result }
    ensures longer { IsLonger catalog.old catalog.new }
    ensures names { OnOk result (catalog.new.names ≡ names_under catalog.old.names (head_tree (names_in session.now) head.now)) }
    ensures told { OnOk result (Tells (scope_in session.now) (EvaluatesHead (scope_in session.now) catalog.old.names (standing_at catalog.old next)
        (head_tree (names_in session.now) head.now)) told.old told.new) }
{
    match head {
        Head::Graph { name, query } => {
            let made = query_made(query, session, catalog, next, told, steps)?;
            stand(session.checked, *name, catalog, made)
        }
        // A view is evaluated where it is used.
        Head::Path { .. } => Ok(next),
    }
}

// A graph with later terms.
#[tactic(auto, unfolding(crate::specs::Queries::Denotes, crate::specs::Built::IsBuilt))]
#[cycle(made)]
fn joined<L: Ledger>(
    rest: &[NextTerm],
    session: &Session<'_>,
    catalog: &mut Catalog,
    first: Made,
    told: &mut Told,
    steps: &mut Steps<L>,
) -> Result<Made, QueryRefusal>
    requires built { IsBuilt (scope_in session.now) (row (map (next_term_tree (names_in session.now)) rest.now)) }
    requires later { catalog.old.next ≤ first.next }
    requires most { first.next ≤ 9007199254740992 }
    requires comes { ComesFrom catalog.old.graphs catalog.old.next first.next first.graph }
    ensures rises { Rises first.next result }
    ensures due { IsAnswered (Joined (scope_in session.now) catalog.old.graphs first (row (map (next_term_tree (names_in session.now)) rest.now))) result }
    ensures comes { ComesAlong catalog.old.graphs first result }
    ensures kept { catalog.new ≡ catalog.old }
    ensures told { OnOk result (Tells (scope_in session.now) (EvaluatesLater (scope_in session.now) catalog.old.names catalog.old.graphs first
        (row (map (next_term_tree (names_in session.now)) rest.now))) told.old told.new) }
{
    let _valid = catalog.next();
    let mut left = first;
    for later in rest {
        let right = term_made(&later.term, session, catalog, left.next, told, steps)?;
        left = combined(session.alloc, later.op, &left.graph, right, steps)?;
    }
    Ok(left)
}

// What a term comes to.
#[tactic(auto, unfolding(crate::specs::Queries::Denotes, crate::specs::Built::IsBuilt))]
#[cycle(made)]
fn term_made<L: Ledger>(
    term: &Term,
    session: &Session<'_>,
    catalog: &mut Catalog,
    next: u64,
    told: &mut Told,
    steps: &mut Steps<L>,
) -> Result<Made, QueryRefusal>
    requires built { IsBuilt (scope_in session.now) (term_tree (names_in session.now) term.now) }
    requires later { catalog.old.next ≤ next }
    requires most { next ≤ 9007199254740992 }
    ensures rises { Rises next result }
    ensures due { IsAnswered (DenotesTerm (scope_in session.now) (standing_at catalog.old next) (term_tree (names_in session.now) term.now)) result }
    ensures comes { ComesOf catalog.old.graphs next result }
    ensures kept { catalog.new ≡ catalog.old }
    ensures told { OnOk result (Tells (scope_in session.now) (EvaluatesTerm (scope_in session.now) catalog.old.names (standing_at catalog.old next)
        (term_tree (names_in session.now) term.now)) told.old told.new) }
{
    match term {
        Term::Basic(basic) => basic_made(
            session,
            catalog,
            catalog.graphs(),
            basic,
            next,
            told,
            steps,
        ),
        Term::Graph(name) => graph_named(session, catalog.graphs(), name.token, next, steps),
        Term::Query(query) => query_made(query, session, catalog, next, told, steps),
    }
}

// The graph whose name stands at a token.
fn graph_named<L: Ledger>(
    session: &Session<'_>,
    graphs: &GraphList,
    token: u32,
    next: u64,
    steps: &mut Steps<L>,
) -> Result<Made, QueryRefusal>
    requires most { next ≤ 9007199254740992 }
    ensures rises { Rises next result }
    ensures comes { ComesOf graphs.now next result }
    ensures due { IsAnswered (λ outcome. outcome ≡ Ok (named (record { graphs = graphs.now; next = next })
        (number_at (scope_in session.now).graph_at token))) result }
{
    let number = session.checked.graph_at(token).unwrap_or(0);
    let graph = graph_of_number(session.alloc, graphs, number, steps)?;
    Ok(Made { graph, next })
}

// A copy of the graph of a number.
fn graph_of_number<L: Ledger>(
    alloc: Global,
    graphs: &GraphList,
    number: u32,
    steps: &mut Steps<L>,
) -> Result<Graph, Memory>
    ensures { IfOk result (λ g. g ≡ graph_of_number graphs.now number) }
{
    match graphs.as_slice().get(number as usize) {
        Some(graph) => graph.copy(steps),
        None => no_elements(alloc),
    }
}

// The graph without elements.
fn no_elements(alloc: Global) -> Result<Graph, Memory>
    ensures { IfOk result (λ g. g ≡ no_elements) }
{
    GraphBuilder::new(alloc).finish()
}
