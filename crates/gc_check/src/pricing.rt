ghost use Rattle.std.specs.Prelude.{◌≡◌, ◌==◌, false, slice_get};
ghost use Rattle.std.specs.List.{list_all};
ghost use Rattle.std.specs.Option.{option_map_or};
ghost use Rattle.gc_base.specs.Ascending.{Ascends};
ghost use Rattle.gc_cert.specs.Acceptance.{is_least};
ghost use Rattle.gc_cert.specs.Potentials.{potential_order};
ghost use Rattle.gc_cert.specs.Runs.{cost_by, run_cost};

use crate::lookup::potential;
use gc_base::Cost;
use gc_cert::{Potential, WalkDoc};
use gc_prod::{By, Product, RunMove, Segment};

// Whether the runs of some walks cost what is stated, which is the potential of their last pair.
pub(crate) fn are_least(
    p: &Product,
    segments: &[Segment],
    potentials: &[Potential],
    walks: &[WalkDoc],
) -> bool
    requires segments { p.now.network.segments ≡ segments.now }
    requires ascend { Ascends potential_order potentials.now }
    ensures { result ≡ list_all (is_least p.now potentials.now) walks.now }
{
    for walk in walks {
        if !is_least(p, segments, potentials, walk) {
            return false;
        }
    }
    true
}

// The same of one walk.
fn is_least(p: &Product, segments: &[Segment], potentials: &[Potential], walk: &WalkDoc) -> bool
    requires segments { p.now.network.segments ≡ segments.now }
    requires ascend { Ascends potential_order potentials.now }
    ensures { result ≡ is_least p.now potentials.now walk.now }
{
    let last = p.states().saturating_sub(1);
    let known = potential(potentials, walk.walk.end(), last);
    costs(segments, walk.run.as_slice(), walk.cost) && is_cost(known, walk.cost)
}

// Whether a cost is known, and is this one.
pub(crate) fn is_cost(known: Option<Cost>, cost: Cost) -> bool
    ensures { result ≡ option_map_or (λ c. c == cost) known false }
{
    match known {
        None => false,
        Some(known) => known == cost,
    }
}

// Whether the moves of a run cost so much together. What is left of the cost is counted down, since a sum
// might be too large.
fn costs(segments: &[Segment], run: &[RunMove], cost: Cost) -> bool
    ensures { result ≡ (run_cost segments.now run.now == cost) }
{
    let mut left = cost.get();
    for step in run {
        match left.checked_sub(u128::from(move_cost(segments, step.by))) {
            None => return false,
            Some(rest) => left = rest,
        }
    }
    left == 0
}

// What a move costs.
fn move_cost(segments: &[Segment], by: By) -> u64
    ensures { result ≡ cost_by segments.now by }
{
    match by {
        By::Nothing => 0,
        By::Edge(_) => 1,
        By::Segment(i) => segment_cost(segments, i),
    }
}

fn segment_cost(segments: &[Segment], i: u32) -> u64
    ensures { result ≡ option_map_or (λ s. s.cost) (slice_get segments.now i) 0 }
{
    match segments.get(i as usize) {
        None => 0,
        Some(segment) => segment.cost,
    }
}
