use gc_base::{LabelSet, Properties, Sym};
use gc_build_recipe::{ByVariable, OfVariable};
use std::alloc::Global;
use std::marker::Model;

/// Labels and properties.
#[derive(Debug, Drop)]
pub struct Description {
    pub labels: LabelSet,
    pub properties: Properties,
}

impl Model for Description {
    ghost use Rattle.gc_values.specs.Descriptions.{Description};

    ghost Value = { Description };

    ghost view = { λ d. record { labels = d.labels; properties = d.properties } };
}

/// A variable of a CONSTRUCT, with the descriptions of its elements in their order.
#[derive(Debug, Drop)]
pub struct Described {
    pub var: Sym,
    pub descriptions: DescriptionList,
}

impl OfVariable for Described {
    ghost var_of = { λ d. d.var };

    fn var(&self) -> Sym {
        self.var
    }
}

/// Descriptions of the elements of a variable. Where all have the same, it is kept once. Contracts see one for each
/// element.
#[derive(Debug, Drop)]
pub struct DescriptionList {
    // The description of so many elements, where all have the same.
    alike: Option<Description>,
    count: usize,
    each: Vec<Description>,
}

impl Model for DescriptionList {
    ghost use Rattle.std.specs.Prelude.{List};
    ghost use Rattle.gc_values.specs.Descriptions.{Description};
    ghost use Rattle.gc_build_descriptions.specs.Alike.{one_each};

    ghost Value = { List Description };

    ghost view = { λ l. one_each l.alike l.count l.each.items };
}

impl DescriptionList {
    ghost use Rattle.std.specs.Prelude.{◌≡◌, replicate, slice_get};
    ghost use Rattle.std.specs.Option.{option_copied};

    /// The description of one element, then of the next.
    pub(crate) fn of_each(each: Vec<Description>) -> DescriptionList
        ensures { result ≡ each.items }
    {
        DescriptionList {
            alike: None,
            count: 0,
            each,
        }
    }

    /// The description that so many elements have.
    pub(crate) fn of_alike(alloc: Global, description: Description, count: usize) -> DescriptionList
        ensures { result ≡ replicate count description }
    {
        DescriptionList {
            alike: Some(description),
            count,
            each: Vec::new(alloc),
        }
    }

    /// The description of the element at a place, if there is one.
    pub fn get(&self, place: usize) -> Option<&Description>
        ensures { option_copied result ≡ slice_get self.now place }
    {
        match &self.alike {
            None => self.each.as_slice().get(place),
            Some(description) => (place < self.count).then_some(description),
        }
    }
}

/// Variables with descriptions, in their order.
pub type DescribedList = ByVariable<Described>;
