ghost use Rattle.std.specs.Prelude.{◌≡◌, ◌++◌, IfOk, OnOk, fold, map};
ghost use Rattle.std.specs.List.{flat_map, filter};
ghost use Rattle.gc_build.specs.Claimed.{AreClaims, claims_for, claims_with, in_items, seen};
ghost use Rattle.gc_build.specs.AllPaths.{AreReady};
ghost use Rattle.gc_build.specs.Patterns.{plain};
ghost use Rattle.gc_build.specs.Walks.{along_graph, is_path, of_ids, walked, walks_of, with_path};

use crate::all_paths::{AllParts, all_parts};
use crate::elements::{Claim, Claims, claim_for};
use crate::graphs::{Part, add_graphs, add_walks};
use crate::kept::{Kept, kept_instances};
use crate::making::Making;
use crate::patterns::Patterns;
use crate::standing::{Instances, places_of, projected_of};
use crate::walks::OnWalk;
use gc_base::{Memory, Steps, Sym};
use gc_build_recipe::{Chain, Variable};
use gc_ppg::Kind;
use gc_rows::is_listed;
use std::alloc::Global;
use std::sync::ledger::Ledger;

/// What a CONSTRUCT claims: for each variable those of its elements that kept instances of the chains
/// have, the nodes and edges of the walks that these instances store or project, by the patterns of the
/// MATCH where they are of ALL paths, and all that the graphs of these numbers have. `steps` counts what
/// is read. An identity that passes its limit is want of memory.
pub(crate) fn claims<L: Ledger>(
    making: &Making<'_>,
    patterns: &Patterns<'_>,
    chains: &[Chain],
    graphs: &[u32],
    steps: &mut Steps<L>,
) -> Result<Claims, Memory>
    requires { AreReady making.now.setting.graphs (plain patterns.now) }
    ensures { IfOk result (λ claims. AreClaims (plain patterns.now) making.now chains.now graphs.now (seen claims)) }
{
    let kept = kept_instances(making, chains, steps)?;
    let setting = making.setting;
    let paths = walked(setting.alloc, &kept, making.variables.as_slice())?;
    let found = places_of(setting.alloc, &kept)?;
    let projected = projected_of(setting.alloc, &kept)?;
    let instances = Instances::of(setting.alloc, &kept, &found, &projected)?;
    let parts = all_parts(making, patterns, &instances, &paths, steps)?;
    claims_with(making, &instances, &parts, graphs, steps)
}

// The same for chains whose instances are known, where so much lies on the walks of ALL paths.
fn claims_with<L: Ledger>(
    making: &Making<'_>,
    kept: &Instances<'_>,
    parts: &[AllParts],
    graphs: &[u32],
    steps: &mut Steps<L>,
) -> Result<Claims, Memory>
    ensures { IfOk result (λ claims. seen claims ≡ claims_with making.now kept.now parts.now graphs.now) }
{
    Ok(Claims {
        nodes: all_claimed(making, kept, parts, graphs, steps)?,
        edges: all_claimed(making, kept, parts, graphs, steps)?,
        paths: paths_claimed(making, kept, graphs, steps)?,
    })
}

// The nodes, or the edges: those of kept instances, those on their walks, and those of graphs.
fn all_claimed<T: Claim + Part + OnWalk + Drop, L: Ledger>(
    making: &Making<'_>,
    kept: &Instances<'_>,
    parts: &[AllParts],
    graphs: &[u32],
    steps: &mut Steps<L>,
) -> Result<Vec<T>, Memory>
    ensures { IfOk result (λ claimed. claimed.items ≡ flat_map (claims_for making.now kept.now T.kind (T.claims making.now)) making.now.variables
        ++ flat_map (λ a. of_ids T.id_of T.all (flat_map T.on (walks_of making.now kept.now a.path) ++ T.among a)
        (along_graph making.now.setting a.path)) parts.now
        ++ in_items making.now.setting.graphs graphs.now T.all) }
{
    let mut claimed = claimed_by(making, kept, steps)?;
    add_all_walks(&mut claimed, making, kept, parts, steps)?;
    add_graphs(&mut claimed, making, graphs, steps)?;
    Ok(claimed)
}

// The stored paths: those of kept instances, and those of graphs.
fn paths_claimed<T: Claim + Part + Drop, L: Ledger>(
    making: &Making<'_>,
    kept: &Instances<'_>,
    graphs: &[u32],
    steps: &mut Steps<L>,
) -> Result<Vec<T>, Memory>
    ensures { IfOk result (λ claimed. claimed.items ≡ flat_map (claims_for making.now kept.now T.kind (T.claims making.now)) making.now.variables
        ++ in_items making.now.setting.graphs graphs.now T.all) }
{
    let mut claimed = claimed_by(making, kept, steps)?;
    add_graphs(&mut claimed, making, graphs, steps)?;
    Ok(claimed)
}

// What is claimed for the elements of all variables of one kind.
fn claimed_by<T: Claim + Drop, L: Ledger>(
    making: &Making<'_>,
    kept: &Instances<'_>,
    steps: &mut Steps<L>,
) -> Result<Vec<T>, Memory>
    ensures { IfOk result (λ claimed. claimed.items ≡ flat_map (claims_for making.now kept.now T.kind (T.claims making.now)) making.now.variables) }
{
    let setting = making.setting;
    let variables = making.variables.as_slice();
    let mut claimed = Vec::new(setting.alloc);
    for variable in variables {
        claim_for(&mut claimed, making, kept, variable, steps)?;
    }
    Ok(claimed)
}

// Adds what stands on the walks of paths, and lies on those of ALL paths.
fn add_all_walks<T: Part + OnWalk + Drop, L: Ledger>(
    claimed: &mut Vec<T>,
    making: &Making<'_>,
    kept: &Instances<'_>,
    parts: &[AllParts],
    steps: &mut Steps<L>,
) -> Result<(), Memory>
    ensures { OnOk result (claimed.new.items ≡ claimed.old.items
        ++ flat_map (λ a. of_ids T.id_of T.all (flat_map T.on (walks_of making.now kept.now a.path) ++ T.among a)
        (along_graph making.now.setting a.path)) parts.now) }
{
    for one in parts {
        add_walks(claimed, making, kept, one, steps)?;
    }
    Ok(())
}

// The paths of which a CONSTRUCT has the walks, each once.
fn walked(alloc: Global, kept: &[Kept<'_>], variables: &[Variable]) -> Result<Vec<Sym>, Memory>
    ensures { IfOk result (λ paths. paths.items ≡ walked kept.now variables.now) }
{
    let mut paths = Vec::new(alloc);
    add_projected(&mut paths, kept)?;
    add_stored(&mut paths, variables)?;
    Ok(paths)
}

// Adds the paths that chains project.
fn add_projected(paths: &mut Vec<Sym>, kept: &[Kept<'_>]) -> Result<(), Memory>
    ensures { OnOk result (paths.new.items ≡ fold with_path paths.old.items (flat_map (λ k. k.projected) kept.now)) }
{
    for one in kept {
        add_paths(paths, one.projected.as_slice())?;
    }
    Ok(())
}

// Adds each of some paths that is not among those so far.
fn add_paths(paths: &mut Vec<Sym>, more: &[Sym]) -> Result<(), Memory>
    ensures { OnOk result (paths.new.items ≡ fold with_path paths.old.items more.now) }
{
    for path in more {
        add_path(paths, *path)?;
    }
    Ok(())
}

fn add_path(paths: &mut Vec<Sym>, path: Sym) -> Result<(), Memory>
    ensures { OnOk result (paths.new.items ≡ with_path paths.old.items path) }
{
    if !is_listed(paths, path) {
        paths.push(path)?;
    }
    Ok(())
}

// Adds the variables that are paths.
fn add_stored(paths: &mut Vec<Sym>, variables: &[Variable]) -> Result<(), Memory>
    ensures { OnOk result (paths.new.items ≡ fold with_path paths.old.items (map (λ v. v.var) (filter (λ v. is_path v.kind) variables.now))) }
{
    for variable in variables {
        if is_path(variable.kind) {
            add_path(paths, variable.var)?;
        }
    }
    Ok(())
}

fn is_path(kind: Kind) -> bool
    ensures { result ≡ is_path kind }
{
    match kind {
        Kind::Node => false,
        Kind::Edge => false,
        Kind::Path => true,
    }
}
