ghost use Rattle.std.specs.Prelude.{◌≡◌, ◌++◌, reverse, IfOk, OnOk};
ghost use Rattle.gc_prod.specs.SymbolHops.{steps_by};
ghost use Rattle.gc_search.specs.Links.{run_along};

use crate::link::Link;
use gc_base::{Id, Memory, Step};
use gc_prod::{By, Product, RunMove};

// The run of a walk, by its moves from the last to the first.
pub(crate) fn run_along(mut way: Vec<Link>) -> Result<Vec<RunMove>, Memory>
    ensures { IfOk result (λ run. run.items ≡ run_along (reverse way.items)) }
{
    let mut run = Vec::new(*way.allocator());
    while let Some(link) = way.pop() {
        run.push(RunMove {
            by: link.by,
            to: link.at.state,
        })?;
    }
    Ok(run)
}

// Adds the steps that a walk takes by a move to a node, the last first.
pub(crate) fn add_move_back(
    p: &Product,
    by: By,
    node: Id,
    steps: &mut Vec<Step>,
) -> Result<(), Memory>
    ensures { OnOk result (steps.new.items ≡ steps.old.items ++ reverse (steps_by p.now.network by node)) }
{
    match by {
        By::Nothing => Ok(()),
        By::Edge(edge) => {
            steps.push(Step { edge, node })?;
            Ok(())
        }
        By::Segment(i) => add_all_back(p.segment_steps(i), steps),
    }
}

fn add_all_back(more: &[Step], steps: &mut Vec<Step>) -> Result<(), Memory>
    ensures { OnOk result (steps.new.items ≡ steps.old.items ++ reverse more.now) }
{
    for step in more.iter().rev().copied() {
        steps.push(step)?;
    }
    Ok(())
}
