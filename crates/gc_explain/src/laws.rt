ghost use Rattle.std.specs.Prelude.{ℕ, List, []};
ghost use Rattle.gc_alg.specs.Networks.{Database};
ghost use Rattle.gc_alg.specs.Plans.{Means, PlanRow};
ghost use Rattle.gc_alg.specs.Trees.{ABlock, APart, Tree, parts_of};
ghost use Rattle.gc_explain.specs.ExplainedTrees.{ArePlanned, explained_block};
ghost use Rattle.gc_explain.specs.WholePlans.{IsSound, whole_block};
ghost use Rattle.gc_plan.specs.PartPlans.{IsPlanFor};

/// The steps of a block around which nothing is bound, part by part, mean exactly the rows of the block, whatever
/// the estimates; its EXISTS queries are answered by plans that mean theirs. Each pattern of the block has to begin at
/// a variable of one that may come before it.
pub fn explained_steps_mean_their_block()
    ensures { (block : Tree ABlock) (plans : ℕ → ℕ → PlanRow) (estimates : ℕ → List ℕ)
        → ArePlanned plans 0 (parts_of block) → IsPlanFor block (explained_block plans estimates block) }
{}

/// The steps of a block around which nothing is bound, together with the steps of its EXISTS queries, mean exactly the
/// rows of the block, whatever the estimates of its parts.
pub fn explained_steps_and_those_of_exists_queries_mean_their_block()
    ensures { (estimates : Tree APart → List ℕ) (block : Tree ABlock) → IsSound [] block
        → (db : Database) → Means db block (whole_block estimates [] block) }
{}
