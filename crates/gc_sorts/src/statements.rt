ghost use Rattle.std.specs.Prelude.{◌≡◌, None, map, IfOk, OnOk};
ghost use Rattle.gc_ast.specs.QueryViews.{statement_tree, file_trees};
ghost use Rattle.gc_ast.specs.Trees.{row};
ghost use Rattle.gc_sorts.specs.Breaches.{first_among, IsFirst};
ghost use Rattle.gc_sorts.specs.SortRules.{breaches, behind, behind_all, file_breaches, first_breach};

use crate::breach::Breach;
use crate::checker::Checker;
use crate::rules::query;
use gc_ast::{File, Statement, StatementList};
use gc_base::{Memory, NameList};
use std::alloc::Global;

#[tactic(auto, unfolding(crate::specs::SortRules::breaches))]
fn statement(
    checker: &mut Checker,
    found: Option<Breach>,
    statement: &Statement,
) -> Result<Option<Breach>, Memory>
    ensures behind { OnOk result (checker.new ≡ record {
      names = checker.old.names;
      at = behind checker.old.at
          (statement_tree checker.old.names statement.now);
    }) }
    ensures found { IfOk result (λ first. first ≡ first_among found (breaches checker.old.at (statement_tree checker.old.names statement.now))) }
{
    match statement {
        Statement::View {
            name,
            query: declared,
        } => {
            let found = checker.taken_graph(found, *name);
            let found = query(checker, found, declared)?;
            checker.declare_graph(*name)?;
            Ok(found)
        }
        Statement::Ask(asked) => query(checker, found, asked),
    }
}

#[tactic(auto, unfolding(crate::specs::SortRules::breaches))]
fn statements(
    checker: &mut Checker,
    found: Option<Breach>,
    all: &StatementList,
) -> Result<Option<Breach>, Memory>
    ensures { IfOk result (λ first. first ≡ first_among found (breaches checker.old.at (row (map (statement_tree checker.old.names) all.now.items)))) }
{
    let mut found = found;
    for one in all {
        found = statement(checker, found, one)?;
    }
    Ok(found)
}

/// The first breach of the sort rules in a file over graphs of these names, if there is one: none comes
/// before it.
pub fn first_breach(alloc: Global, file: &File, graphs: &NameList) -> Result<Option<Breach>, Memory>
    ensures breach { IfOk result (λ first. first ≡ first_breach graphs.now (row (file_trees file.now))) }
    ensures first { IfOk result (λ first. IsFirst first (file_breaches graphs.now (row (file_trees file.now)))) }
{
    let mut checker = Checker::of(alloc, &file.names, graphs)?;
    statements(&mut checker, None, &file.statements)
}
