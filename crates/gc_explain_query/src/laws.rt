ghost use Rattle.std.specs.Prelude.{ℕ, List, []};
ghost use Rattle.gc_alg.specs.Networks.{Database};
ghost use Rattle.gc_alg.specs.Plans.{Means};
ghost use Rattle.gc_alg.specs.Trees.{ABlock, APart, Tree};
ghost use Rattle.gc_base.specs.declared.place.Sym.{Sym};
ghost use Rattle.gc_explain.specs.WholePlans.{IsSound, whole_block};
ghost use Rattle.gc_explain_query.specs.Printed.{IsPlannedAsPrinted};
ghost use Rattle.gc_explain_query.specs.QueryLines.{part_estimates};
ghost use Rattle.gc_spec.specs.PropertyGraph.{PropertyGraph};

use gc_explain::explained_steps_and_those_of_exists_queries_mean_their_block;

/// The steps that are printed for the parts of a block are those of one plan, which holds the plans of its EXISTS
/// queries too and means exactly the rows of the block.
pub fn printed_steps_are_those_of_a_plan_that_means_its_block()
    ensures printed { (graphs : List PropertyGraph) (around : List Sym) (number : ℕ) (part : Tree APart) → IsPlannedAsPrinted graphs around number part }
    ensures means { (graphs : List PropertyGraph) (block : Tree ABlock) → IsSound [] block
        → (db : Database) → Means db block (whole_block (part_estimates graphs) [] block) }
{
    explained_steps_and_those_of_exists_queries_mean_their_block();
}
