ghost use Rattle.std.specs.Prelude.{◌≡◌, ◌<◌, length, true, slice_index};
ghost use Rattle.std.specs.Ordering.{nat_cmp};
ghost use Rattle.gc_base.specs.Ascending.{Ascends};
ghost use Rattle.gc_spec.specs.PropertyGraph.{is_among};
ghost use Rattle.gc_prod.specs.Places.{place_in};

use gc_base::Id;

/// The place of a number among ascending ones, or how many these are where it is not among them. Where
/// they are close together, it is looked for first where it stands if none is left out, then where it
/// stands if they are spread evenly.
pub fn place_of(nodes: &[Id], node: Id) -> usize
    requires { Ascends nat_cmp nodes.now }
    ensures place { result ≡ place_in nodes.now node }
    ensures within { is_among nodes.now node ≡ true → result < length nodes.now }
    ensures there { is_among nodes.now node ≡ true → slice_index nodes.now result ≡ node }
{
    place_near(nodes, first_of(nodes), node)
}

// The first of some numbers, or 0 where there is none.
pub(crate) fn first_of(nodes: &[Id]) -> u64 {
    match nodes.first() {
        None => 0,
        Some(first) => first.get(),
    }
}

// The place of a number among ascending ones, of which the first is told, so that many are looked for
// with one read of it. Whatever is told for the first, the place is right.
#[inline(always)]
pub(crate) fn place_near(nodes: &[Id], first: u64, node: Id) -> usize
    requires { Ascends nat_cmp nodes.now }
    ensures place { result ≡ place_in nodes.now node }
    ensures within { is_among nodes.now node ≡ true → result < length nodes.now }
    ensures there { is_among nodes.now node ≡ true → slice_index nodes.now result ≡ node }
{
    let guess = node.get().wrapping_sub(first) as usize;
    if stands_at(nodes, guess, node) {
        guess
    } else {
        sought(nodes, node)
    }
}

// The same, where some are left out.
#[inline(never)]
fn sought(nodes: &[Id], node: Id) -> usize
    requires { Ascends nat_cmp nodes.now }
    ensures { result ≡ place_in nodes.now node }
{
    let guess = spread(nodes, node);
    if stands_at(nodes, guess, node) {
        guess
    } else {
        halved(nodes, node)
    }
}

fn spread(nodes: &[Id], node: Id) -> usize {
    let Some(first) = nodes.first() else {
        return 0;
    };
    let Some(last) = nodes.last() else {
        return 0;
    };
    let width = last.get().saturating_sub(first.get());
    let ahead = node.get().saturating_sub(first.get());
    let most = nodes.len().saturating_sub(1) as u64;
    ahead.saturating_mul(most).checked_div(width).unwrap_or(0) as usize
}

fn stands_at(nodes: &[Id], place: usize, node: Id) -> bool
    ensures within { result ≡ true → place < length nodes.now }
    ensures there { result ≡ true → slice_index nodes.now place ≡ node }
{
    place < nodes.len() && nodes[place] == node
}

// The same by halving.
fn halved(nodes: &[Id], node: Id) -> usize
    requires { Ascends nat_cmp nodes.now }
    ensures { result ≡ place_in nodes.now node }
{
    match nodes.binary_search_by(|other| other.cmp(&node)) {
        Ok(place) => place,
        Err(_) => nodes.len(),
    }
}
