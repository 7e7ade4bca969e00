ghost use Rattle.std.specs.Prelude.{◌≡◌, ◌++◌, ℕ, List, IfOk, OnOk};
ghost use Rattle.std.specs.List.{flat_map};
ghost use Rattle.std.specs.Option.{option_copied};
ghost use Rattle.gc_base.specs.declared.walk.Walk.{Walk as WalkSeen};
ghost use Rattle.gc_base.specs.Walks.{edges_of};
ghost use Rattle.gc_rows.specs.Rows.{datum_at};
ghost use Rattle.gc_values.specs.PathParts.{nodes_along, walk_in};
ghost use Rattle.gc_build.specs.declared.all_paths.AllParts.{AllParts as AllPartsSeen};
ghost use Rattle.gc_build.specs.Walks.{read_graph, walk_if, walks_from, walks_of};

use crate::all_paths::AllParts;
use crate::making::Making;
use crate::paths::stored_walk;
use crate::standing::{Instances, has_walk};
use gc_base::{Id, Memory, Steps, Sym, Walk};
use gc_ppg::{EdgeInfo, NodeInfo};
use gc_rows::{Datum, RowView};
use std::sync::ledger::Ledger;

/// What stands on walks: nodes or edges.
pub(crate) trait OnWalk {
    /// The identities of those on a walk.
    ghost on: { WalkSeen → List ℕ };

    /// Those that lie on the walks of an ALL path.
    ghost among: { AllPartsSeen → List ℕ };

    // Adds the identities of those on a walk.
    fn add_ids(ids: &mut Vec<Id>, walk: &Walk) -> Result<(), Memory>
        ensures { OnOk result (ids.new.items ≡ ids.old.items ++ on walk.now) };

    // Those that lie on the walks of an ALL path.
    fn among(parts: &AllParts) -> &[Id]
        ensures { result.now ≡ among parts.now };
}

impl OnWalk for NodeInfo {
    ghost on = { nodes_along };

    ghost among = { λ parts. parts.nodes };

    fn add_ids(ids: &mut Vec<Id>, walk: &Walk) -> Result<(), Memory> {
        ids.push(walk.start)?;
        for step in walk.steps.as_slice() {
            ids.push(step.node)?;
        }
        Ok(())
    }

    fn among(parts: &AllParts) -> &[Id] {
        parts.nodes.as_slice()
    }
}

impl OnWalk for EdgeInfo {
    ghost on = { edges_of };

    ghost among = { λ parts. parts.edges };

    fn add_ids(ids: &mut Vec<Id>, walk: &Walk) -> Result<(), Memory> {
        for step in walk.steps.as_slice() {
            ids.push(step.edge)?;
        }
        Ok(())
    }

    fn among(parts: &AllParts) -> &[Id] {
        parts.edges.as_slice()
    }
}

/// The identities of what stands on the walks that a path has in kept instances.
pub(crate) fn ids_on_walks<T: OnWalk, L: Ledger>(
    making: &Making<'_>,
    kept: &Instances<'_>,
    path: Sym,
    steps: &mut Steps<L>,
) -> Result<Vec<Id>, Memory>
    ensures { IfOk result (λ ids. ids.items ≡ flat_map T.on (walks_of making.now kept.now path)) }
{
    let setting = making.setting;
    let table = setting.table;
    let own = kept.of_path(path);
    let mut ids = Vec::new(setting.alloc);
    for place in 0..table.len() {
        let is_kept = has_walk(kept, path, own, place);
        add_row::<T, L>(&mut ids, making, path, is_kept, &table.row(place), steps)?;
    }
    Ok(ids)
}

// Adds the identities of what stands on the walk that a row has for a path, if an instance is kept there
// that has the path.
fn add_row<T: OnWalk, L: Ledger>(
    ids: &mut Vec<Id>,
    making: &Making<'_>,
    path: Sym,
    is_kept: bool,
    row: &RowView<'_>,
    steps: &mut Steps<L>,
) -> Result<(), Memory>
    ensures { OnOk result (ids.new.items ≡ ids.old.items ++ flat_map T.on (walk_if making.now path is_kept row.now)) }
{
    if !is_kept {
        return Ok(());
    }
    match walk_in(making, path, row.get(path), steps) {
        None => Ok(()),
        Some(walk) => T::add_ids(ids, walk),
    }
}

// The walk of what a variable stands for: of a stored path in the graph in which the variable is read,
// or the walk itself that was found.
fn walk_in<'a, L: Ledger>(
    making: &'a Making<'_>,
    path: Sym,
    datum: Option<&'a Datum>,
    steps: &mut Steps<L>,
) -> Option<&'a Walk>
    ensures { option_copied result ≡ walk_in (read_graph making.now.setting path) (option_copied datum.entry) }
{
    match datum {
        Some(Datum::Stored(id)) => stored_walk(making, path, *id, steps),
        Some(Datum::Found(walk)) => Some(walk.get()),
        _ => None,
    }
}
