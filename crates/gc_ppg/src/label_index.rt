ghost use Rattle.std.specs.Prelude.{◌≡◌, ◌++◌, ℕ, [], List, IfOk, OnOk, nat_eq};
ghost use Rattle.std.specs.Cmp.Lexicographic.{pointwise};
ghost use Rattle.gc_base.specs.Ascending.{Ascends, has};
ghost use Rattle.gc_base.specs.Literals.{text_order};
ghost use Rattle.gc_ppg.specs.LabelPlaces.{place_if};

use crate::kind::Labelled;
use gc_base::{Duplicate, Memory, Name};
use indexmap::IndexMap;
use std::alloc::Global;

// The places of elements by their labels.
#[derive(Debug, Drop)]
pub(crate) struct LabelIndex {
    places: IndexMap<Name, Vec<usize>>,
}

impl LabelIndex {
    ghost use Rattle.gc_ppg.specs.LabelPlaces.{places_of, IsLabelIndex};

    // The places of these elements by their labels.
    pub(crate) fn of<T: Labelled>(alloc: Global, elements: &[T]) -> Result<LabelIndex, Memory>
        ensures { IfOk result (IsLabelIndex T.labels_of elements.now) }
    {
        let mut index = LabelIndex {
            places: IndexMap::new(alloc),
        };
        for (place, element) in elements.iter().enumerate() {
            index.add_all(alloc, element.labels().as_slice(), place)?;
        }
        Ok(index)
    }

    // The places of the elements that have a label, ascending.
    pub(crate) fn places(&self, label: &Name) -> &[usize]
        ensures { result.now ≡ places_of self.now label.now }
    {
        match self.places.get(label) {
            Some(places) => places.as_slice(),
            None => &[],
        }
    }

    // Adds a place for each of some labels.
    fn add_all(&mut self, alloc: Global, labels: &[Name], place: usize) -> Result<(), Memory>
        requires { Ascends text_order labels.now }
        ensures { OnOk result ((label : List ℕ) → places_of self.new label ≡ places_of self.old label ++ place_if (has text_order labels.now label) place) }
    {
        for label in labels {
            self.add(alloc, label, place)?;
        }
        Ok(())
    }

    // Adds a place for a label.
    fn add(&mut self, alloc: Global, label: &Name, place: usize) -> Result<(), Memory>
        ensures { OnOk result ((other : List ℕ) → places_of self.new other ≡ places_of self.old other ++ place_if (pointwise nat_eq label.now other) place) }
    {
        match self.places.get_mut(label) {
            Some(places) => places.push(place)?,
            None => {
                let mut places = Vec::with_capacity(alloc, 1)?;
                places.push(place)?;
                self.places.insert(label.copy()?, places)?;
            }
        }
        Ok(())
    }
}
