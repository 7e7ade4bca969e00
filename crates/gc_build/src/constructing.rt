ghost use Rattle.std.specs.Prelude.{◌≡◌, IfErr, IfOk};
ghost use Rattle.gc_alg.specs.Views.{block_tree};
ghost use Rattle.gc_walks.specs.Databases.{AreOnGraphs};
ghost use Rattle.gc_build.specs.AllPaths.{AreReady, AreSearchable};
ghost use Rattle.gc_build.specs.Claimed.{AreClaims, seen};
ghost use Rattle.gc_build.specs.Constructed.{Constructs, IsAfter, IsDue, IsRefusal, making_by};
ghost use Rattle.gc_build.specs.Fitting.{FitsWhole};
ghost use Rattle.gc_build.specs.Patterns.{plain};
ghost use Rattle.gc_sets.specs.Origins.{ComesFrom};

use crate::built::{Built, Refusal};
use crate::claiming::claims;
use crate::elements::Claims;
use crate::making::Making;
use crate::patterns::Patterns;
use gc_alg::Block;
use gc_base::{Memory, Steps};
use gc_build_descriptions::{DescribedList, Refusal as DescribeRefusal, describe};
use gc_build_numbers::{Numbering, ReadGraphs, Setting, number};
use gc_build_recipe::Recipe;
use gc_prod::SegmentTable;
use gc_sets::unite_agreed;
use std::sync::ledger::Ledger;

// One more than the largest identity.
const END: u64 = 9_007_199_254_740_992;

/// The graph that a CONSTRUCT makes of a table that its recipe fits whole, and the identity that comes next, where new
/// elements have identities from `next` on. It is refused as `Fault` exactly where an assignment is undefined on a row
/// of a group of its variable, and else as `IdsSpent` exactly where the new identities would pass the largest. What lies
/// on the walks of an ALL path is looked for by the block of the MATCH and the segments of views on its graphs. Each
/// element of the graph has the identity, kind, ends and walk of one of the graphs, or an identity from `next` on.
/// `steps` counts what is read.
pub fn construct<L: Ledger>(
    setting: &Setting<'_>,
    recipe: &Recipe,
    block: &Block,
    segments: &SegmentTable,
    next: u64,
    steps: &mut Steps<L>,
) -> Result<Built, Refusal>
    requires segments { AreOnGraphs setting.now.graphs segments.now }
    requires searchable { AreSearchable (block_tree block.now) }
    requires whole { FitsWhole setting.now recipe.now (record { block = block_tree block.now; segments = segments.now }) next }
    ensures made { Constructs setting.now recipe.now (record { block = block_tree block.now; segments = segments.now }) next result }
    ensures comes { IfOk result (λ b. ComesFrom setting.now.graphs next b.next b.graph) }
{
    let patterns = Patterns { block, segments };
    let told = all_due(setting, recipe, &patterns, next, steps)?;
    let next = told.after;
    let graph = unite_agreed(
        setting.alloc,
        told.claims.nodes,
        told.claims.edges,
        told.claims.paths,
    )?;
    Ok(Built { graph, next })
}

// What is claimed, and the identity behind the new ones.
#[derive(Drop)]
struct Due {
    claims: Claims,
    after: u64,
}

// All that is claimed, or why nothing is made.
fn all_due<L: Ledger>(
    setting: &Setting<'_>,
    recipe: &Recipe,
    patterns: &Patterns<'_>,
    next: u64,
    steps: &mut Steps<L>,
) -> Result<Due, Refusal>
    requires { AreReady setting.now.graphs (plain patterns.now) }
    ensures claimed { IfOk result (λ d. IsDue setting.now recipe.now (plain patterns.now) next (seen d.claims) d.after) }
    ensures refused { IfErr result (IsRefusal setting.now recipe.now next) }
{
    let numbering = number(setting, recipe.variables.as_slice(), steps)?;
    let described = match describe(setting, recipe, &numbering, steps) {
        Ok(described) => described,
        Err(DescribeRefusal::Fault(fault)) => return Err(Refusal::Fault(fault)),
        Err(DescribeRefusal::Memory) => return Err(Refusal::Memory),
    };
    let Some(after) = after(next, numbering.next) else {
        return Err(Refusal::IdsSpent(numbering.next));
    };
    let claims = claimed(
        setting, recipe, patterns, &numbering, &described, next, steps,
    )?;
    Ok(Due { claims, after })
}

// The identity behind so many new ones, if there are so many.
fn after(next: u64, needed: u64) -> Option<u64>
    ensures { IsAfter next needed result }
{
    let after = next.checked_add(needed)?;
    if after > END {
        return None;
    }
    Some(after)
}

// What is claimed.
fn claimed<L: Ledger>(
    setting: &Setting<'_>,
    recipe: &Recipe,
    patterns: &Patterns<'_>,
    numbering: &Numbering,
    described: &DescribedList,
    next: u64,
    steps: &mut Steps<L>,
) -> Result<Claims, Memory>
    requires { AreReady setting.now.graphs (plain patterns.now) }
    ensures { IfOk result (λ claims. AreClaims (plain patterns.now) (making_by setting.now recipe.now next numbering.now.variables described.now)
        recipe.now.chains recipe.now.graphs (seen claims)) }
{
    let reads = ReadGraphs::of(setting)?;
    let making = Making {
        setting,
        reads: &reads,
        variables: &recipe.variables,
        numbered: &numbering.variables,
        described,
        next,
    };
    claims(
        &making,
        patterns,
        &recipe.chains,
        recipe.graphs.as_slice(),
        steps,
    )
}
