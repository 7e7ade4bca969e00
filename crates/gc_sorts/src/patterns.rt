ghost use Rattle.std.specs.Prelude.{◌≡◌, ◌∷◌, [], map, IfOk};
ghost use Rattle.gc_expr.specs.Views.{Names, name_of};
ghost use Rattle.gc_ast.specs.PatternViews.{named, all_named_by, pattern_tree, located_tree, body_by};
ghost use Rattle.gc_ast.specs.Trees.{row, rows};
ghost use Rattle.gc_sorts.specs.Breaches.{first_among};
ghost use Rattle.gc_sorts.specs.Graphs.{known, unknown_views};
ghost use Rattle.gc_sorts.specs.Patterns.{path_breaches, pattern_breaches, located_breaches, patterns_breaches, chains_breaches, is_edge, has_edge, begins_with_edge, each};

use crate::breach::{Breach, SortRule, noted_if};
use crate::graphs::{GraphNames, unknown_graph_if};
use crate::index::Index;
use crate::sizes::{out_of_range, too_many, too_many_states};
use crate::tokens::{chains_tokens, located_tokens};
use gc_ast::{Chain, ChainList, Located, LocatedList, NameAtList, PathBody, Pattern};
use gc_base::{Memory, NameAt};
use std::alloc::Global;

/// The first breach of those so far and views that are not in scope.
fn unknown_views(found: Option<Breach>, views: &Index, named: &NameAtList) -> Option<Breach>
    ensures { result ≡ first_among found (unknown_views views.now.order (all_named_by (name_of views.now.names) named.now)) }
{
    let mut found = found;
    for view in named.as_slice() {
        found = unknown_view(found, views, *view);
    }
    found
}

fn unknown_view(found: Option<Breach>, views: &Index, view: NameAt) -> Option<Breach>
    ensures { result ≡ first_among found (unknown_views views.now.order (all_named_by (name_of views.now.names) (view ∷ []))) }
{
    noted_if(
        found,
        !views.has(view.sym),
        SortRule::UnknownView,
        view.token as u64,
    )
}

/// The first breach of those so far and of a path.
fn path(found: Option<Breach>, views: &Index, regex_at: u32, body: &PathBody) -> Option<Breach>
    ensures { result ≡ first_among found (path_breaches views.now.order regex_at (body_by (name_of views.now.names) body.now)) }
{
    match body {
        PathBody::Reach {
            regex,
            views: named,
        } => {
            let found = unknown_views(found, views, named);
            too_many_states(found, regex, regex_at)
        }
        PathBody::Found {
            k,
            regex,
            views: named,
            ..
        } => {
            let found = out_of_range(found, k);
            let found = unknown_views(found, views, named);
            too_many_states(found, regex, regex_at)
        }
        PathBody::All {
            regex,
            views: named,
            ..
        } => {
            let found = unknown_views(found, views, named);
            too_many_states(found, regex, regex_at)
        }
        PathBody::Stored { .. } => found,
    }
}

fn pattern(found: Option<Breach>, views: &Index, pattern: &Pattern) -> Option<Breach>
    ensures { result ≡ first_among found (pattern_breaches views.now.order (pattern_tree views.now.names pattern.now)) }
{
    match pattern {
        Pattern::Path { regex_at, body, .. } => path(found, views, *regex_at, body),
        _ => found,
    }
}

/// The first breach of those so far and of the parts of a chain.
pub(crate) fn chain(found: Option<Breach>, views: &Index, chain: &Chain) -> Option<Breach>
    ensures { result ≡ first_among found (each (pattern_breaches views.now.order) (row (map (pattern_tree views.now.names) chain.now.parts))) }
{
    let mut found = found;
    for part in chain.parts.as_slice() {
        found = pattern(found, views, part);
    }
    found
}

/// The first breach of those so far and of a chain with its graph.
fn located(
    found: Option<Breach>,
    graphs: &GraphNames,
    views: &Index,
    located: &Located,
) -> Option<Breach>
    requires { graphs.now.names ≡ views.now.names }
    ensures { result ≡ first_among found (located_breaches (known graphs.now) views.now.order (located_tree views.now.names located.now)) }
{
    let found = chain(found, views, &located.chain);
    unknown_graph_if(found, graphs, &located.on)
}

/// The first breach of those so far and of chains with their graphs.
fn all_located(
    found: Option<Breach>,
    graphs: &GraphNames,
    views: &Index,
    patterns: &LocatedList,
) -> Option<Breach>
    requires { graphs.now.names ≡ views.now.names }
    ensures { result ≡ first_among found (each (located_breaches (known graphs.now) views.now.order)
        (row (map (located_tree views.now.names) patterns.now))) }
{
    let mut found = found;
    for pattern in patterns.as_slice() {
        found = located(found, graphs, views, pattern);
    }
    found
}

/// The first breach of those so far and of the patterns of a block.
pub(crate) fn block_patterns(
    alloc: Global,
    found: Option<Breach>,
    graphs: &GraphNames,
    views: &Index,
    patterns: &LocatedList,
) -> Result<Option<Breach>, Memory>
    requires { graphs.now.names ≡ views.now.names }
    ensures { IfOk result (λ first. first ≡ first_among found (patterns_breaches (known graphs.now) views.now.order
        (row (map (located_tree views.now.names) patterns.now)))) }
{
    let found = all_located(found, graphs, views, patterns);
    let tokens = located_tokens(alloc, patterns)?;
    Ok(too_many(found, &tokens))
}

// Whether a part of a chain is an edge.
fn is_edge(part: &Pattern) -> bool
    ensures { (names : Names) → result ≡ is_edge (pattern_tree names part.now) }
{
    matches!(part, Pattern::Edge { .. })
}

fn has_edge(chain: &Chain) -> bool
    ensures { (names : Names) → result ≡ has_edge (row (map (pattern_tree names) chain.now.parts)) }
{
    for part in chain.parts.as_slice() {
        if is_edge(part) {
            return true;
        }
    }
    false
}

// Whether the first chain of a view has an edge.
fn begins_with_edge(chains: &ChainList) -> bool
    ensures { (names : Names) → result ≡ begins_with_edge (rows (map (λ c. map (pattern_tree names) c.parts) chains.now)) }
{
    if chains.len() == 0 {
        return false;
    }
    has_edge(chains.at(0))
}

fn all_chains(found: Option<Breach>, views: &Index, chains: &ChainList) -> Option<Breach>
    ensures { result ≡ first_among found (each (each (pattern_breaches views.now.order))
        (rows (map (λ c. map (pattern_tree views.now.names) c.parts) chains.now))) }
{
    let mut found = found;
    for one in chains.as_slice() {
        found = chain(found, views, one);
    }
    found
}

/// The first breach of those so far and of the chains of a view.
pub(crate) fn view_chains(
    alloc: Global,
    found: Option<Breach>,
    views: &Index,
    name: NameAt,
    chains: &ChainList,
) -> Result<Option<Breach>, Memory>
    ensures { IfOk result (λ first. first ≡ first_among found (chains_breaches views.now.order (named views.now.names name)
        (rows (map (λ c. map (pattern_tree views.now.names) c.parts) chains.now)))) }
{
    let has_edge = begins_with_edge(chains);
    let found = noted_if(found, !has_edge, SortRule::ViewNeedsEdge, name.token as u64);
    let found = all_chains(found, views, chains);
    let tokens = chains_tokens(alloc, chains)?;
    Ok(too_many(found, &tokens))
}
