ghost use Rattle.std.specs.Prelude.{◌≡◌, IfOk};
ghost use Rattle.std.specs.Option.{option_copied};
ghost use Rattle.gc_ppg.specs.declared.shape.Kind.TheVariants.{Path as PathKind};
ghost use Rattle.gc_values.specs.PathParts.{stored_walk};
ghost use Rattle.gc_build.specs.Claimed.{key_walk, path_claims, walk_by};
ghost use Rattle.gc_build.specs.Walks.{read_graph};

use crate::elements::Claim;
use crate::making::{EndMakers, Making};
use gc_base::{Duplicate, Id, Memory, Steps, Sym, Walk};
use gc_build_descriptions::Description;
use gc_build_numbers::Element;
use gc_build_recipe::{Grouping, Variable};
use gc_group::Key;
use gc_ppg::{Kind, PathInfo};
use gc_rows::Datum;
use std::sync::ledger::Ledger;

impl Claim for PathInfo {
    ghost kind = { PathKind };

    ghost claims = { path_claims };

    fn is_of(k: Kind) -> bool {
        match k {
            Kind::Node => false,
            Kind::Edge => false,
            Kind::Path => true,
        }
    }

    fn claim<L: Ledger>(
        claimed: &mut Vec<PathInfo>,
        making: &Making<'_>,
        variable: &Variable,
        _ends: &EndMakers<'_>,
        element: &Element,
        description: &Description,
        steps: &mut Steps<L>,
    ) -> Result<(), Memory> {
        let id = making.identity(&variable.grouping, element.number)?;
        if let Some(walk) = element_walk(making, variable, element, steps)? {
            claimed.push(PathInfo {
                id,
                walk: walk.copy()?,
                labels: description.labels.copy()?,
                properties: description.properties.copy()?,
            })?;
        }
        Ok(())
    }
}

// The walk of an element of a path variable.
fn element_walk<'a, L: Ledger>(
    making: &'a Making<'_>,
    variable: &Variable,
    element: &'a Element,
    steps: &mut Steps<L>,
) -> Result<Option<&'a Walk>, Memory>
    ensures { IfOk result (λ walk. option_copied walk ≡ walk_by making.now.setting variable.now.var variable.now.grouping element.now) }
{
    match &variable.grouping {
        Grouping::Bound => {
            let id = making.identity(&variable.grouping, element.number)?;
            Ok(stored_walk(making, variable.var, id, steps))
        }
        Grouping::Walk => Ok(key_walk(&element.group.key)),
        _ => Ok(None),
    }
}

// The walk that is a key.
fn key_walk(key: &Key) -> Option<&Walk>
    ensures { option_copied result ≡ key_walk key.now }
{
    match key.parts.as_slice().first() {
        Some(Some(Datum::Found(walk))) => Some(walk.get()),
        _ => None,
    }
}

/// The walk of a stored path in the graph in which a variable is read.
pub(crate) fn stored_walk<'a, L: Ledger>(
    making: &'a Making<'_>,
    var: Sym,
    id: Id,
    steps: &mut Steps<L>,
) -> Option<&'a Walk>
    ensures { option_copied result ≡ stored_walk (read_graph making.now.setting var) id }
{
    let graph = making.read_graph(var)?;
    let path = graph.find_path(id, steps)?;
    Some(&path.walk)
}
