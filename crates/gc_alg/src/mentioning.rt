ghost use Rattle.std.specs.Prelude.{◌≡◌, map};
ghost use Rattle.gc_alg.specs.Mentions.{in_conjunct, in_queries, in_query};
ghost use Rattle.gc_alg.specs.Trees.{row};
ghost use Rattle.gc_alg.specs.Views.{conjunct_tree, exists_tree};

use crate::block::{Conjunct, ExistsBlock};
use gc_base::Sym;
use gc_rows::is_listed;
use gc_values::mentions;

#[tactic(auto, using(crate::proofs::Layers::conjunct_is))]
impl Conjunct {
    /// Whether a variable occurs in the condition, or as an outer one in an EXISTS query of it.
    pub fn mentions(&self, var: Sym) -> bool
        ensures { result ≡ in_conjunct var (conjunct_tree self.now) }
    {
        mentions(&self.condition, var) || in_queries(&self.subqueries, var)
    }
}

fn in_queries(queries: &[ExistsBlock], var: Sym) -> bool
    ensures { result ≡ in_queries var (row (map exists_tree queries.now)) }
{
    for query in queries {
        if in_query(query, var) {
            return true;
        }
    }
    false
}

#[tactic(auto, using(crate::proofs::Layers::exists_is))]
fn in_query(query: &ExistsBlock, var: Sym) -> bool
    ensures { result ≡ in_query var (exists_tree query.now) }
{
    is_listed(query.outer.as_slice(), var)
}
