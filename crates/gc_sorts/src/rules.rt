ghost use Rattle.std.specs.Prelude.{◌≡◌, [], map, IfOk, OnOk};
ghost use Rattle.gc_ast.specs.QueryViews.{query_tree, term_tree, next_term_tree, head_tree, formula_tree, basic_tree, block_tree, optional_tree};
ghost use Rattle.gc_ast.specs.PatternViews.{named, pattern_tree, located_tree};
ghost use Rattle.gc_ast.specs.Trees.{row, rows, maybe};
ghost use Rattle.std.specs.Option.{option_map};
ghost use Rattle.gc_sorts.specs.Breaches.{first_among};
ghost use Rattle.gc_sorts.specs.SortRules.{breaches, behind, behind_all, view_breaches};

use crate::breach::Breach;
use crate::checker::Checker;
use crate::existence::existences;
use crate::form::Takes;
use gc_ast::{
    Basic, ChainList, Formula, Head, HeadList, MatchBlock, NextTerm, NextTermList, OptionalBlock,
    OptionalList, Query, QueryList, Term,
};
use gc_base::{Memory, NameAt};

// A head that declares a view.
fn view(
    checker: &mut Checker,
    found: Option<Breach>,
    name: NameAt,
    chains: &ChainList,
    filter: &Option<Formula>,
    cost: &Option<Formula>,
) -> Result<Option<Breach>, Memory>
    ensures kept { OnOk result (checker.new ≡ checker.old) }
    ensures found { IfOk result (λ first. first ≡ first_among found (view_breaches checker.old.at (named checker.old.names name)
        (rows (map (λ c. map (pattern_tree checker.old.names) c.parts) chains.now)) (maybe (option_map (formula_tree checker.old.names) filter.now))
        (maybe (option_map (formula_tree checker.old.names) cost.now)))) }
{
    let found = checker.taken_view(found, name);
    let found = checker.chains(found, name, chains)?;
    let mark = checker.enter_chains(chains)?;
    let found = checker.places(found, mark);
    let found = checker.view_formula(found, Takes::Condition, filter);
    let found = checker.view_formula(found, Takes::Value, cost);
    checker.leave(mark);
    Ok(found)
}

#[cycle(rules)]
pub(crate) fn query(
    checker: &mut Checker,
    found: Option<Breach>,
    query: &Query,
) -> Result<Option<Breach>, Memory>
    ensures kept { OnOk result (checker.new ≡ checker.old) }
    ensures found { IfOk result (λ first. first ≡ first_among found (breaches checker.old.at (query_tree checker.old.names query.now))) }
{
    let graphs = checker.graph_count();
    let views = checker.view_count();
    let found = heads(checker, found, &query.heads)?;
    let found = term(checker, found, &query.first)?;
    let found = rest(checker, found, &query.rest)?;
    checker.restore(graphs, views);
    Ok(found)
}

#[tactic(auto, unfolding(gc_ast::specs::QueryViews::head_by, crate::specs::SortRules::breaches))]
#[cycle(rules)]
fn heads(
    checker: &mut Checker,
    found: Option<Breach>,
    heads: &HeadList,
) -> Result<Option<Breach>, Memory>
    ensures behind { OnOk result (checker.new ≡ record {
      names = checker.old.names;
      at = behind_all checker.old.at
          (row (map (head_tree checker.old.names) heads.now.items));
    }) }
    ensures found { IfOk result (λ first. first ≡ first_among found (breaches checker.old.at (row (map (head_tree checker.old.names) heads.now.items)))) }
{
    let mut found = found;
    for one in heads {
        found = head(checker, found, one)?;
    }
    Ok(found)
}

#[tactic(auto, unfolding(gc_ast::specs::QueryViews::head_by, gc_ast::specs::QueryViews::query_by, gc_ast::specs::QueryViews::formula_by, crate::specs::SortRules::breaches))]
#[cycle(rules)]
fn head(checker: &mut Checker, found: Option<Breach>, head: &Head) -> Result<Option<Breach>, Memory>
    ensures behind { OnOk result (checker.new ≡ record { names = checker.old.names; at = behind checker.old.at (head_tree checker.old.names head.now) }) }
    ensures found { IfOk result (λ first. first ≡ first_among found (breaches checker.old.at (head_tree checker.old.names head.now))) }
{
    match head {
        Head::Graph {
            name,
            query: declared,
        } => {
            let found = checker.taken_graph(found, *name);
            let found = query(checker, found, declared)?;
            checker.declare_graph(*name)?;
            Ok(found)
        }
        Head::Path {
            name,
            chains,
            filter,
            cost,
        } => {
            let found = view(checker, found, *name, chains, filter, cost)?;
            checker.declare_view(*name)?;
            Ok(found)
        }
    }
}

#[tactic(auto, unfolding(gc_ast::specs::QueryViews::next_term_by, gc_ast::specs::QueryViews::term_by, crate::specs::SortRules::breaches))]
#[cycle(rules)]
fn rest(
    checker: &mut Checker,
    found: Option<Breach>,
    rest: &NextTermList,
) -> Result<Option<Breach>, Memory>
    ensures kept { OnOk result (checker.new ≡ checker.old) }
    ensures found { IfOk result (λ first. first ≡ first_among found (breaches checker.old.at (row (map (next_term_tree checker.old.names) rest.now.items)))) }
{
    let mut found = found;
    for next in rest {
        found = next_term(checker, found, next)?;
    }
    Ok(found)
}

#[tactic(auto, unfolding(gc_ast::specs::QueryViews::next_term_by, gc_ast::specs::QueryViews::term_by, crate::specs::SortRules::breaches))]
#[cycle(rules)]
fn next_term(
    checker: &mut Checker,
    found: Option<Breach>,
    next: &NextTerm,
) -> Result<Option<Breach>, Memory>
    ensures kept { OnOk result (checker.new ≡ checker.old) }
    ensures found { IfOk result (λ first. first ≡ first_among found (breaches checker.old.at (next_term_tree checker.old.names next.now))) }
{
    term(checker, found, &next.term)
}

#[tactic(auto, unfolding(gc_ast::specs::QueryViews::term_by, gc_ast::specs::QueryViews::basic_by, gc_ast::specs::QueryViews::query_by, crate::specs::SortRules::breaches))]
#[cycle(rules)]
fn term(checker: &mut Checker, found: Option<Breach>, term: &Term) -> Result<Option<Breach>, Memory>
    ensures kept { OnOk result (checker.new ≡ checker.old) }
    ensures found { IfOk result (λ first. first ≡ first_among found (breaches checker.old.at (term_tree checker.old.names term.now))) }
{
    match term {
        Term::Basic(one) => basic(checker, found, one),
        Term::Graph(name) => Ok(checker.unknown_graph(found, *name)),
        Term::Query(inner) => query(checker, found, inner),
    }
}

#[cycle(rules)]
fn basic(
    checker: &mut Checker,
    found: Option<Breach>,
    basic: &Basic,
) -> Result<Option<Breach>, Memory>
    ensures kept { OnOk result (checker.new ≡ checker.old) }
    ensures found { IfOk result (λ first. first ≡ first_among found (breaches checker.old.at (basic_tree checker.old.names basic.now))) }
{
    let found = checker.basic(found, &basic.items, &basic.main, &basic.optionals)?;
    let found = block(checker, found, &basic.main)?;
    let found = optionals(checker, found, &basic.optionals)?;
    Ok(found)
}

#[tactic(auto, unfolding(crate::specs::SortRules::breaches))]
#[cycle(rules)]
fn optionals(
    checker: &mut Checker,
    found: Option<Breach>,
    optionals: &OptionalList,
) -> Result<Option<Breach>, Memory>
    ensures kept { OnOk result (checker.new ≡ checker.old) }
    ensures found { IfOk result (λ first. first ≡ first_among found (breaches checker.old.at
        (row (map (optional_tree checker.old.names) optionals.now.items)))) }
{
    let mut found = found;
    for one in optionals {
        found = optional(checker, found, one)?;
    }
    Ok(found)
}

#[tactic(auto, unfolding(gc_ast::specs::QueryViews::optional_by, gc_ast::specs::QueryViews::block_by, crate::specs::SortRules::breaches))]
#[cycle(rules)]
fn optional(
    checker: &mut Checker,
    found: Option<Breach>,
    optional: &OptionalBlock,
) -> Result<Option<Breach>, Memory>
    ensures kept { OnOk result (checker.new ≡ checker.old) }
    ensures found { IfOk result (λ first. first ≡ first_among found (breaches checker.old.at (optional_tree checker.old.names optional.now))) }
{
    block(checker, found, &optional.block)
}

#[cycle(rules)]
fn block(
    checker: &mut Checker,
    found: Option<Breach>,
    block: &MatchBlock,
) -> Result<Option<Breach>, Memory>
    ensures kept { OnOk result (checker.new ≡ checker.old) }
    ensures found { IfOk result (λ first. first ≡ first_among found (breaches checker.old.at (block_tree checker.old.names block.now))) }
{
    let found = checker.patterns(found, &block.patterns)?;
    let mark = checker.enter(&block.patterns)?;
    let found = filter(checker, found, &block.filter)?;
    checker.leave(mark);
    Ok(found)
}

#[tactic(auto, unfolding(gc_ast::specs::QueryViews::formula_by, gc_ast::specs::QueryViews::query_by, crate::specs::SortRules::breaches))]
#[cycle(rules)]
fn filter(
    checker: &mut Checker,
    found: Option<Breach>,
    filter: &Option<Formula>,
) -> Result<Option<Breach>, Memory>
    ensures kept { OnOk result (checker.new ≡ checker.old) }
    ensures found { IfOk result (λ first. first ≡ first_among found (breaches checker.old.at
        (maybe (option_map (formula_tree checker.old.names) filter.now)))) }
{
    match filter {
        None => Ok(found),
        Some(formula) => {
            let exists = existences(checker.alloc(), checker, &formula.exists)?;
            let found = checker.condition(found, &formula.expr, &exists);
            queries(checker, found, &formula.exists)
        }
    }
}

#[tactic(auto, unfolding(gc_ast::specs::QueryViews::query_by, crate::specs::SortRules::breaches))]
#[cycle(rules)]
fn queries(
    checker: &mut Checker,
    found: Option<Breach>,
    queries: &QueryList,
) -> Result<Option<Breach>, Memory>
    ensures kept { OnOk result (checker.new ≡ checker.old) }
    ensures found { IfOk result (λ first. first ≡ first_among found (breaches checker.old.at (row (map (query_tree checker.old.names) queries.now.items)))) }
{
    let mut found = found;
    for one in queries {
        found = query(checker, found, one)?;
    }
    Ok(found)
}
