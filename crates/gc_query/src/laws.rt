ghost use Rattle.std.specs.Prelude.{◌≡◌, ◌++◌, ◌≤◌, ℕ, List, Option, None};
ghost use Rattle.gc_ast.specs.Trees.{AStatement, Kind, Named, Tree, row};
ghost use Rattle.gc_expr.specs.Views.{Names};
ghost use Rattle.gc_sorts.specs.SortRules.{first_breach};
ghost use Rattle.gc_lower.specs.Namings.{QueryFile};
ghost use Rattle.gc_lower.specs.Scopes.{Scope};
ghost use Rattle.gc_query.specs.Built.{AreBuilt};
ghost use Rattle.gc_query.specs.Evaluations.{Evaluation};
ghost use Rattle.gc_query.specs.Expressions.{EachHasParts};
ghost use Rattle.gc_query.specs.InOrder.{IsInOrder, IsNameIf, IsNameIn};
ghost use Rattle.gc_query.specs.Logs.{IsGained, Log};
ghost use Rattle.gc_query.specs.Sessions.{Answer, Answers};
ghost use Rattle.gc_query.specs.Standings.{Standing};

/// What stands tells the answer of a statement: it comes to no two.
pub fn a_statement_comes_to_one_answer()
    ensures { (s : Scope) (at : Standing) (statement : Tree AStatement) (a b : Answer) → Answers s at statement a → Answers s at statement b → a ≡ b }
{}

/// A query file is built where it breaks no sort rule, where no juxtaposition in its regular path expressions is of no
/// parts, and where its CONSTRUCTs, names and elements stand in the order of the text and its names are in its table, as
/// the grammar has it. So what its CONSTRUCTs claim is of one graph, and each found path stands at one pattern: in the
/// block of the MATCH of each CONSTRUCT, of all atoms only a pattern that asks for one walk has the variable of this
/// walk. And the block of each CONSTRUCT that stands in no WHERE, and of each view, is found by its token.
pub fn a_file_that_breaks_no_rule_is_built()
    ensures { (f : QueryFile) (upto : ℕ) → EachHasParts (row f.statements) → IsInOrder f.names 0 (row f.statements) upto
        → first_breach f.graphs (row f.statements) ≡ None → AreBuilt f }
{}

/// What stands in order between two numbers stands so between wider ones: a tree, a name, and a name that may be left out.
pub fn what_is_in_order_is_so_between_wider_numbers()
    ensures tree { (names : Names) (k : Kind) (low from upto high : ℕ) (t : Tree k) → low ≤ from → upto ≤ high → IsInOrder names from t upto
        → IsInOrder names low t high }
    ensures name { (names : Names) (low from upto high : ℕ) (x : Named) → low ≤ from → upto ≤ high → IsNameIn names from x upto → IsNameIn names low x high }
    ensures optional { (names : Names) (low from upto high : ℕ) (o : Option Named) → low ≤ from → upto ≤ high → IsNameIf names from o upto
        → IsNameIf names low o high }
{}

/// What a log gains of some CONSTRUCTs, and then of others, is what it gains of all of them in turn.
pub fn what_a_log_gains_in_turn_it_gains_together()
    ensures { (s : Scope) (a b c : Log) (xs ys : List Evaluation) → IsGained s a xs b → IsGained s b ys c → IsGained s a (xs ++ ys) c }
{}
