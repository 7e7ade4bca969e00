ghost use Rattle.std.specs.Prelude.{◌≡◌, IfOk};
ghost use Rattle.gc_cert_searches.specs.Readings.{first_doc, first_docs};

use gc_base::{Id, Memory};
use gc_cert::{WalkDoc, WalkDocList};
use gc_search::Found;
use std::alloc::Global;

/// The first walk that is found to each of some nodes, if one is, with its cost and a run that passes it.
pub(crate) fn first_walks(
    alloc: Global,
    found: &Found,
    targets: &[Id],
) -> Result<WalkDocList, Memory>
    ensures { IfOk result (λ walks. walks ≡ first_docs found.now targets.now) }
{
    let mut walks = WalkDocList::new(alloc);
    for target in targets {
        if let Some(walk) = first_walk(found, *target)? {
            walks.push(walk)?;
        }
    }
    Ok(walks)
}

// The first walk that is found to a node, if one is.
fn first_walk(found: &Found, target: Id) -> Result<Option<WalkDoc>, Memory>
    ensures { IfOk result (λ walk. walk ≡ first_doc found.now target) }
{
    if found.count(target) == 0 {
        return Ok(None);
    }
    let walk = found.walk(target, 0)?;
    let run = found.run(target, 0)?;
    Ok(Some(WalkDoc {
        cost: found.cost(target, 0),
        run,
        walk,
    }))
}
