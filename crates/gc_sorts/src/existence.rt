ghost use Rattle.std.specs.Prelude.{◌≡◌, ◌&&◌, map, IfOk};
ghost use Rattle.std.specs.Option.{option_map};
ghost use Rattle.gc_ast.specs.PatternViews.{named_if, group_term_tree};
ghost use Rattle.gc_ast.specs.QueryViews.{query_tree, head_tree, term_tree, next_term_tree, basic_tree, item_tree, part_tree, new_element_tree, assign_tree, change_tree, optional_tree, formula_tree};
ghost use Rattle.gc_ast.specs.Trees.{row, maybe};
ghost use Rattle.gc_sorts.specs.SortRules.{is_absent, is_none, is_empty, is_only, is_bare_element, is_bare_part, is_bare_item, is_bare_basic, is_bare_term, is_existence, are_existence};

use crate::checker::Checker;
use gc_ast::{
    AssignList, Basic, ChangeList, ConstructPart, ConstructPartList, Formula, GroupTermList,
    HeadList, Item, ItemList, NewElement, NextTermList, OptionalList, Query, QueryList, Term,
};
use gc_base::{Memory, NameAt, NameList};
use std::alloc::Global;

// Whether a name is absent.
fn is_absent(checker: &Checker, name: &Option<NameAt>) -> bool
    ensures { result ≡ is_absent (named_if checker.now.names name.now) }
{
    name.is_none()
}

// Whether lists have no item.
#[tactic(auto, using(crate::proofs::Rows::is_none_row))]
fn no_terms(checker: &Checker, terms: &GroupTermList) -> bool
    ensures { result ≡ is_none (row (map (group_term_tree checker.now.names) terms.now)) }
{
    terms.len() == 0
}

#[tactic(auto, using(crate::proofs::Rows::is_none_row))]
fn no_assigns(checker: &Checker, assigns: &AssignList) -> bool
    ensures { result ≡ is_none (row (map (assign_tree checker.now.names) assigns.now.items)) }
{
    assigns.len() == 0
}

#[tactic(auto, using(crate::proofs::Rows::is_none_row))]
fn no_changes(checker: &Checker, changes: &ChangeList) -> bool
    ensures { result ≡ is_none (row (map (change_tree checker.now.names) changes.now.items)) }
{
    changes.len() == 0
}

#[tactic(auto, using(crate::proofs::Rows::is_none_row))]
fn no_heads(checker: &Checker, heads: &HeadList) -> bool
    ensures { result ≡ is_none (row (map (head_tree checker.now.names) heads.now.items)) }
{
    heads.len() == 0
}

#[tactic(auto, using(crate::proofs::Rows::is_none_row))]
fn no_later(checker: &Checker, later: &NextTermList) -> bool
    ensures { result ≡ is_none (row (map (next_term_tree checker.now.names) later.now.items)) }
{
    later.len() == 0
}

#[tactic(auto, using(crate::proofs::Rows::is_none_row))]
fn no_optionals(checker: &Checker, optionals: &OptionalList) -> bool
    ensures { result ≡ is_none (row (map (optional_tree checker.now.names) optionals.now.items)) }
{
    optionals.len() == 0
}

#[tactic(auto, using(crate::proofs::Rows::is_empty_list))]
fn no_labels(labels: &NameList) -> bool
    ensures { result ≡ is_empty labels.now }
{
    labels.len() == 0
}

fn no_condition(checker: &Checker, condition: &Option<Formula>) -> bool
    ensures { result ≡ is_none (maybe (option_map (formula_tree checker.now.names) condition.now)) }
{
    match condition {
        None => true,
        Some(_) => false,
    }
}

// An element with nothing in it.
#[tactic(auto, unfolding(gc_ast::specs::QueryViews::new_element_by, gc_ast::specs::QueryViews::assign_by))]
fn is_bare_element(checker: &Checker, element: &NewElement) -> bool
    ensures { result ≡ is_bare_element (new_element_tree checker.now.names element.now) }
{
    is_absent(checker, &element.name)
        && (is_absent(checker, &element.copy)
            && (no_terms(checker, &element.group)
                && (no_labels(&element.labels) && no_assigns(checker, &element.assigns))))
}

#[tactic(auto, unfolding(gc_ast::specs::QueryViews::part_by, gc_ast::specs::QueryViews::new_element_by))]
fn is_bare_part(checker: &Checker, part: &ConstructPart) -> bool
    ensures { result ≡ is_bare_part (part_tree checker.now.names part.now) }
{
    match part {
        ConstructPart::Node(element) => is_bare_element(checker, element),
        _ => false,
    }
}

#[tactic(auto, using(crate::proofs::Rows::is_only_row, crate::proofs::Rows::not_only_row))]
fn only_part(checker: &Checker, parts: &ConstructPartList) -> bool
    ensures { result ≡ is_only is_bare_part (row (map (part_tree checker.now.names) parts.now.items)) }
{
    if parts.len() != 1 {
        return false;
    }
    is_bare_part(checker, &parts[0])
}

fn is_bare_chain(
    checker: &Checker,
    parts: &ConstructPartList,
    changes: &ChangeList,
    condition: &Option<Formula>,
) -> bool
    ensures { result ≡ (is_only is_bare_part (row (map (part_tree checker.now.names) parts.now.items)) &&
        (is_none (row (map (change_tree checker.now.names) changes.now.items)) && is_none
        (maybe (option_map (formula_tree checker.now.names) condition.now)))) }
{
    only_part(checker, parts) && (no_changes(checker, changes) && no_condition(checker, condition))
}

#[tactic(auto, unfolding(gc_ast::specs::QueryViews::item_by))]
fn is_bare_item(checker: &Checker, item: &Item) -> bool
    ensures { result ≡ is_bare_item (item_tree checker.now.names item.now) }
{
    match item {
        Item::Graph(_) => false,
        Item::Chain {
            parts,
            changes,
            when,
        } => is_bare_chain(checker, parts, changes, when),
    }
}

#[tactic(auto, using(crate::proofs::Rows::is_only_row, crate::proofs::Rows::not_only_row))]
fn only_item(checker: &Checker, items: &ItemList) -> bool
    ensures { result ≡ is_only is_bare_item (row (map (item_tree checker.now.names) items.now.items)) }
{
    if items.len() != 1 {
        return false;
    }
    is_bare_item(checker, &items[0])
}

#[tactic(auto, unfolding(gc_ast::specs::QueryViews::basic_by, gc_ast::specs::QueryViews::item_by, gc_ast::specs::QueryViews::optional_by))]
fn is_bare_basic(checker: &Checker, basic: &Basic) -> bool
    ensures { result ≡ is_bare_basic (basic_tree checker.now.names basic.now) }
{
    only_item(checker, &basic.items) && no_optionals(checker, &basic.optionals)
}

#[tactic(auto, unfolding(gc_ast::specs::QueryViews::term_by, gc_ast::specs::QueryViews::basic_by))]
fn is_bare_term(checker: &Checker, term: &Term) -> bool
    ensures { result ≡ is_bare_term (term_tree checker.now.names term.now) }
{
    match term {
        Term::Basic(basic) => is_bare_basic(checker, basic),
        Term::Graph(_) => false,
        Term::Query(_) => false,
    }
}

#[tactic(auto, unfolding(gc_ast::specs::QueryViews::query_by, gc_ast::specs::QueryViews::head_by, gc_ast::specs::QueryViews::term_by, gc_ast::specs::QueryViews::next_term_by))]
fn is_existence(checker: &Checker, query: &Query) -> bool
    ensures { result ≡ is_existence (query_tree checker.now.names query.now) }
{
    no_heads(checker, &query.heads)
        && (no_later(checker, &query.rest) && is_bare_term(checker, &query.first))
}

/// Of each of some EXISTS queries, whether it has the form of one.
pub(crate) fn existences(
    alloc: Global,
    checker: &Checker,
    queries: &QueryList,
) -> Result<Vec<bool>, Memory>
    ensures { IfOk result (λ exists. exists.items ≡ are_existence (row (map (query_tree checker.now.names) queries.now.items))) }
{
    let mut exists = Vec::new(alloc);
    for query in queries {
        exists.push(is_existence(checker, query))?;
    }
    Ok(exists)
}
