ghost use Rattle.std.specs.Prelude.{◌≡◌, ◌<◌, ◌++◌, ◌∷◌, [], false, length, true, IfOk, IfSome, IfNone, OnOk};
ghost use Rattle.std.specs.List.{AllByRecursion};
ghost use Rattle.std.specs.List.Sorted.{IsPermutation};
ghost use Rattle.gc_search.specs.Groups.{all_of, AreGroups};
ghost use Rattle.gc_search.specs.Links.{Walks};
ghost use Rattle.gc_search.specs.Places.{tree_of};
ghost use Rattle.gc_search.specs.Waiting.{links_of, IsBehind, IsFilled, IsFirstTaken, IsLed, IsQueue, IsSifted};

use crate::comparing::edges_order;
use crate::link::Link;
use crate::settled::Settled;
use gc_base::Memory;
use std::alloc::Global;
use std::collections::BTreeMap;
use std::marker::Model;

// The walks that are pending. Those that are alike in cost and number of edges to the one that was taken
// last stand in front, the least behind the others, and are taken first. The others wait in groups by their
// cost and number of edges, which are few: a group is put in order only when it comes to the front.
#[derive(Drop)]
pub(crate) struct Pending {
    front: Vec<Link>,
    groups: BTreeMap<(u128, usize), Vec<Link>>,
}

impl Model for Pending {
    ghost use Rattle.gc_search.specs.Groups.{all_of, AreGroups};
    ghost use Rattle.gc_search.specs.Waiting.{Queue};

    ghost Value = { Queue };

    ghost view = { λ p. record { front = p.front.items; later = all_of p.groups.entries } };

    ghost invariant = { λ p. AreGroups p.groups.entries };
}

impl Pending {
    // One walk is pending.
    pub(crate) fn of(alloc: Global, first: Link) -> Result<Pending, Memory>
        ensures { IfOk result (λ p. p ≡ record { front = first ∷ []; later = [] }) }
    {
        let mut front = Vec::new(alloc);
        front.push(first)?;
        Ok(Pending {
            front,
            groups: BTreeMap::new(alloc),
        })
    }

    // Takes a least one out, or tells that none is pending. The front is filled.
    pub(crate) fn take_least(&mut self) -> Option<Link>
        requires { self.old.front ≡ [] → self.old.later ≡ [] }
        ensures some { IfSome result (λ taken. (tree : Walks) → IsQueue tree self.old → IsFirstTaken tree self.old taken self.new) }
        ensures none { IfNone result (links_of self.old ≡ []) }
    {
        self.front.pop()
    }

    // Fills the front where it is empty: with the first group of which walks are left.
    pub(crate) fn fill_front(&mut self, settled: &Settled, k: u32) -> Result<(), Memory>
        requires { IsQueue (tree_of settled.now) self.old }
        ensures { OnOk result (IsFilled (tree_of settled.now) k self.old self.new) }
    {
        'groups: while self.has_none_in_front() {
            self.take_group(settled, k)?;
        }
        Ok(())
    }

    // Whether none is in front, and there is a group.
    fn has_none_in_front(&self) -> bool
        ensures front { result ≡ true → self.now.front ≡ [] }
        ensures some { result ≡ true → self.now.later ≡ [] → ⊥ }
        ensures none { result ≡ false → self.now.front ≡ [] → self.now.later ≡ [] }
    {
        self.front.is_empty() && !self.groups.is_empty()
    }

    // Takes the first group to the front, the least last, but no walks to pairs that have k by now. Walks are
    // settled in order, so those that extend them mostly came in order: turned around, a group is made of few
    // runs, which this sort finds. What it has room for beyond its walks is given back first.
    fn take_group(&mut self, settled: &Settled, k: u32) -> Result<(), Memory>
        requires queue { IsQueue (tree_of settled.now) self.old }
        requires none { self.old.front ≡ [] }
        requires some { self.old.later ≡ [] → ⊥ }
        ensures sifted { OnOk result (IsSifted (tree_of settled.now) k (links_of self.old) (links_of self.new)) }
        ensures queue { OnOk result (IsQueue (tree_of settled.now) self.new) }
        ensures fewer { OnOk result (length self.new.later < length self.old.later) }
    {
        let Some((_, mut group)) = self.groups.pop_first() else {
            unreachable!()
        };
        group.retain(|next| settled.has_room(&next.at, k));
        group.shrink_to_fit();
        group.reverse();
        group.sort_by(|a, b| edges_order(&settled.tree, b, a))?;
        self.front = group;
        Ok(())
    }

    // Adds walks that come behind one that was taken.
    pub(crate) fn add_all(&mut self, last: &Link, more: &[Link]) -> Result<(), Memory>
        ensures added { OnOk result (IsPermutation (links_of self.old ++ more.now) (links_of self.new)) }
        ensures led { OnOk result ((tree : Walks) → IsLed tree last.now self.old → AllByRecursion (IsBehind tree last.now) more.now
            → IsLed tree last.now self.new) }
    {
        for next in more {
            self.add(last, *next)?;
        }
        Ok(())
    }

    // Adds a walk that comes behind one that was taken: in front where it costs no more.
    fn add(&mut self, last: &Link, next: Link) -> Result<(), Memory>
        ensures added { OnOk result (IsPermutation (next ∷ links_of self.old) (links_of self.new)) }
        ensures led { OnOk result ((tree : Walks) → IsLed tree last.now self.old → IsBehind tree last.now next → IsLed tree last.now self.new) }
    {
        if next.cost == last.cost {
            self.front.push(next)?;
        } else {
            put(*self.front.allocator(), &mut self.groups, next)?;
        }
        Ok(())
    }
}

// Puts a walk into the group of its cost and number of edges.
fn put(
    alloc: Global,
    groups: &mut BTreeMap<(u128, usize), Vec<Link>>,
    next: Link,
) -> Result<(), Memory>
    requires { AreGroups groups.old.entries }
    ensures groups { AreGroups groups.new.entries }
    ensures added { OnOk result (IsPermutation (next ∷ all_of groups.old.entries) (all_of groups.new.entries)) }
{
    let key = (next.cost, next.edges);
    match groups.get_mut(&key) {
        Some(group) => group.push(next)?,
        None => {
            let mut group = Vec::new(alloc);
            group.push(next)?;
            groups.insert(key, group)?;
        }
    }
    Ok(())
}
