ghost use Rattle.std.specs.Prelude.{◌≡◌, ◌==◌, ◌<◌, ◌-◌, ◌∷◌, [], List, ℕ, length, map, nat_eq, true, IfOk, OnOk, OnErr};
ghost use Rattle.std.specs.List.{AllByRecursion, find};
ghost use Rattle.std.specs.Option.{option_copied};
ghost use Rattle.std.specs.Ordering.{nat_cmp, on};
ghost use Rattle.std.specs.declared.cmp.Ordering.TheVariants.{Less};
ghost use Rattle.gc_base.specs.Ascending.{with_item, Ascends};
ghost use Rattle.gc_ppg.specs.Collected.{KeysAreIds, in_order};
ghost use Rattle.gc_spec.specs.PropertyGraph.{is_among};

use crate::kind::Element;
use crate::search::find;
use gc_base::{Id, Memory};
use indexmap::IndexMap;
use std::alloc::Global;
use std::marker::Model;

// Elements under construction. Those that come by ascending identity need no hash and no sort; from the
// first one that does not on, elements are found by a hash, and sorted once at the end. Contracts see
// them as the list that ascends by identity.
#[derive(Drop)]
pub(crate) struct ById<T: Element> {
    ascending: Vec<T>,
    others: IndexMap<Id, T>,
}

impl<T: Element> Model for ById<T> {
    ghost use Rattle.std.specs.Prelude.{List};
    ghost use Rattle.std.specs.Ordering.{nat_cmp, on};
    ghost use Rattle.gc_base.specs.Ascending.{Ascends};
    ghost use Rattle.gc_ppg.specs.Collected.{KeysAreIds, in_order};

    ghost Value = { List T };

    ghost view = { λ s. in_order T.id_of s.ascending.items s.others.entries };

    ghost invariant = { λ s. Ascends (on T.id_of nat_cmp) s.ascending.items × KeysAreIds T.id_of s.others.entries };
}

impl<T: Element + Drop> ById<T> {
    pub(crate) fn new(alloc: Global) -> ById<T>
        ensures { result ≡ [] }
    {
        ById {
            ascending: Vec::new(alloc),
            others: IndexMap::new(alloc),
        }
    }

    // Whether an identity is there.
    pub(crate) fn has(&self, id: Id) -> bool
        ensures { result ≡ is_among (map T.id_of self.now) id }
    {
        self.get(id).is_some()
    }

    // The element of an identity.
    pub(crate) fn get(&self, id: Id) -> Option<&T>
        ensures element { option_copied result ≡ find (λ x. T.id_of x == id) self.now }
        ensures ascends { Ascends (on T.id_of nat_cmp) self.now }
    {
        // A map without entries would hash the identity all the same.
        if self.others.is_empty() {
            return find(&self.ascending, id);
        }
        match self.others.get(&id) {
            Some(element) => Some(element),
            None => find(&self.ascending, id),
        }
    }

    // Puts an element in, in place of one of its identity.
    pub(crate) fn add(&mut self, element: T) -> Result<(), Memory>
        ensures ok { OnOk result (self.new ≡ with_item (on T.id_of nat_cmp) self.old element) }
        ensures err { OnErr result (self.new ≡ self.old) }
    {
        if self.others.is_empty() && is_above(&self.ascending, element.id()) {
            self.ascending.push(element)?;
            return Ok(());
        }
        self.insert(element)
    }

    // The same, among the others.
    fn insert(&mut self, element: T) -> Result<(), Memory>
        ensures ok { OnOk result (self.new ≡ with_item (on T.id_of nat_cmp) self.old element) }
        ensures err { OnErr result (self.new ≡ self.old) }
    {
        self.others.insert(element.id(), element)?;
        Ok(())
    }

    // All elements, by ascending identity.
    pub(crate) fn into_vec(self, alloc: Global) -> Result<Vec<T>, Memory>
        ensures { IfOk result (λ all. all.items ≡ self) }
    {
        let ById { ascending, others } = self;
        if others.is_empty() {
            Ok(ascending)
        } else {
            sorted(alloc, together(ascending, others)?)
        }
    }
}

// Whether an identity is above those of elements, which ascend. The last of them tells.
fn is_above<T: Element>(elements: &[T], id: Id) -> bool
    requires { Ascends (on T.id_of nat_cmp) elements.now }
    ensures { result ≡ true → AllByRecursion (λ x. nat_cmp (T.id_of x) id ≡ Less) elements.now }
{
    match elements.last() {
        None => true,
        Some(last) => last.id().get() < id.get(),
    }
}

// Puts elements that ascend beside others, but for those whose identities these have.
fn together<T: Element + Drop>(
    ascending: Vec<T>,
    others: IndexMap<Id, T>,
) -> Result<IndexMap<Id, T>, Memory>
    requires ascend { Ascends (on T.id_of nat_cmp) ascending.items }
    requires keys { KeysAreIds T.id_of others.entries }
    ensures keys { IfOk result (λ all. KeysAreIds T.id_of all.entries) }
    ensures same { IfOk result (λ all. in_order T.id_of [] all.entries ≡ in_order T.id_of ascending.items others.entries) }
{
    let mut all = others;
    for element in ascending {
        put(&mut all, element)?;
    }
    Ok(all)
}

// Puts an element beside others, unless one of its identity is there.
fn put<T: Element + Drop>(all: &mut IndexMap<Id, T>, element: T) -> Result<(), Memory>
    requires { KeysAreIds T.id_of all.old.entries }
    ensures keys { OnOk result (KeysAreIds T.id_of all.new.entries) }
    ensures same { OnOk result ((rest : List T) → Ascends (on T.id_of nat_cmp) (element ∷ rest)
        → in_order T.id_of rest all.new.entries ≡ in_order T.id_of (element ∷ rest) all.old.entries) }
{
    let id = element.id();
    if !all.contains_key(&id) {
        all.insert(id, element)?;
    }
    Ok(())
}

// Elements by ascending identity.
fn sorted<T: Element + Drop>(alloc: Global, collected: IndexMap<Id, T>) -> Result<Vec<T>, Memory>
    requires { KeysAreIds T.id_of collected.entries }
    ensures { IfOk result (λ all. all.items ≡ in_order T.id_of [] collected.entries) }
{
    let mut entries = collected;
    entries.sort_unstable_keys()?;
    let mut all = Vec::with_capacity(alloc, entries.len())?;
    for element in entries.into_values() {
        all.push(element)?;
    }
    Ok(all)
}
