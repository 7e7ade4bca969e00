ghost use Rattle.std.specs.Prelude.{List, []};
ghost use Rattle.gc_alg.specs.Networks.{Database};
ghost use Rattle.gc_alg.specs.Plans.{Means};
ghost use Rattle.gc_ast.specs.Trees.{ABasic, AFormula, APattern, Named, PathHead, RowOf, Tree};
ghost use Rattle.gc_explain.specs.WholePlans.{IsSound};
ghost use Rattle.gc_explain_laws.specs.NodeBlocks.{HasNodes};
ghost use Rattle.gc_explain_laws.specs.PrintedPlans.{printed_plan};
ghost use Rattle.gc_lower.specs.Blocks.{block_of, view_block};
ghost use Rattle.gc_lower.specs.Scopes.{Scope};
ghost use Rattle.gc_spec.specs.PropertyGraph.{PropertyGraph};

use gc_explain_query::printed_steps_are_those_of_a_plan_that_means_its_block;

/// The block of a MATCH with its OPTIONAL blocks is sound, whatever its names stand for, and so is the block of a view:
/// each pattern begins at a variable of one that may come before it, and an EXISTS query keeps as outer variables all
/// that it sees and that occur in its block.
pub fn blocks_of_query_files_are_sound()
    ensures matched { (s : Scope) (basic : Tree ABasic) → HasNodes basic → IsSound [] (block_of s [] basic) }
    ensures viewed { (s : Scope) (name : Named) (chains : Tree (RowOf (RowOf APattern))) (filter cost : Tree (RowOf AFormula))
        → HasNodes (PathHead name chains filter cost) → IsSound [] (view_block s chains filter) }
{}

/// The plan whose steps are printed for a MATCH with its OPTIONAL blocks and EXISTS queries means exactly the rows of its
/// block, on every database and whatever the graphs that the estimates come from; that of a view likewise.
/// That it is made of the printed steps is `printed` of `printed_steps_are_those_of_a_plan_that_means_its_block`.
pub fn printed_plan_means_the_rows_of_its_match()
    ensures matched { (graphs : List PropertyGraph) (s : Scope) (basic : Tree ABasic) → HasNodes basic
        → (db : Database) → Means db (block_of s [] basic) (printed_plan graphs (block_of s [] basic)) }
    ensures viewed { (graphs : List PropertyGraph) (s : Scope)
        (name : Named) (chains : Tree (RowOf (RowOf APattern))) (filter cost : Tree (RowOf AFormula)) → HasNodes (PathHead name chains filter cost)
        → (db : Database) → Means db (view_block s chains filter) (printed_plan graphs (view_block s chains filter)) }
{
    printed_steps_are_those_of_a_plan_that_means_its_block();
    blocks_of_query_files_are_sound();
}
