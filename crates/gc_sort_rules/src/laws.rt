ghost use Rattle.std.specs.Prelude.{◌↔◌, List, Option, Result, ℕ};
ghost use Rattle.gc_ast.specs.QueryViews.{file_trees};
ghost use Rattle.gc_ast.specs.Trees.{AStatement, RowOf, Tree, row};
ghost use Rattle.gc_ast.specs.declared.file.File.{File};
ghost use Rattle.gc_sort_rules.specs.Examples.{no_breach, session, smallest, smallest_breach};
ghost use Rattle.gc_sort_rules.specs.Rules.{Breaks};
ghost use Rattle.gc_sort_rules.specs.Verdicts.{BreaksFirst, IsFirstBreach, IsVerdict, KeepsAll};
ghost use Rattle.gc_sorts.specs.Breaches.{IsAmong};
ghost use Rattle.gc_sorts.specs.Checks.{IsChecked};
ghost use Rattle.gc_sorts.specs.SortRules.{file_breaches, first_breach};
ghost use Rattle.gc_sorts.specs.declared.breach.Breach.{Breach};
ghost use Rattle.gc_sorts.specs.declared.breach.SortRule.{SortRule};
ghost use Rattle.gc_sorts.specs.declared.checked.Checked.{Checked};
ghost use Rattle.gc_sorts.specs.declared.refusal.SortRefusal.{SortRefusal};

use gc_sorts::the_first_breach_is_the_first;

/// What the statements of a file break, over graphs of these names, is what the fifteen rules say: a breach is among those
/// that gc_sorts finds by recursion on the trees just where a place at its token breaks its rule.
pub fn breaches_are_those_of_the_fifteen_rules()
    ensures { (graphs : List (List ℕ)) (statements : Tree (RowOf AStatement)) (b : Breach)
        → IsAmong b (file_breaches graphs statements) ↔ Breaks graphs statements b.rule b.token }
{}

/// The first breach of a file is the first of those that the fifteen rules name; there is none where all rules are kept.
/// So `check`, which promises `IsChecked`, gives back a file that keeps all fifteen, and of another one tells the first
/// rule that it breaks and the place where it does.
pub fn the_check_is_by_the_fifteen_rules()
    ensures first { (graphs : List (List ℕ)) (statements : Tree (RowOf AStatement))
        → IsFirstBreach graphs statements (first_breach graphs statements) }
    ensures told { (file : File) (graphs : List (List ℕ)) (outcome : Result Checked SortRefusal)
        → IsChecked file graphs (first_breach graphs (row (file_trees file))) outcome → IsVerdict file graphs outcome }
{
    breaches_are_those_of_the_fifteen_rules();
    the_first_breach_is_the_first();
}

/// Each rule is the first that the smallest file for it breaks, at the token that is named there, in a session with one
/// graph `g`; and `CONSTRUCT (n) MATCH (n)` keeps all fifteen.
pub fn each_rule_is_broken_by_its_example()
    ensures broken { (rule : SortRule) → BreaksFirst session (smallest rule) (smallest_breach rule) }
    ensures kept { KeepsAll session no_breach }
{
    the_check_is_by_the_fifteen_rules();
}
