ghost use Rattle.std.specs.Prelude.{◌≡◌, ◌<◌, [], length, slice_get, Some, OnOk, OnErr};
ghost use Rattle.std.specs.Option.{option_copied};
ghost use Rattle.gc_base.specs.declared.properties.Property.{Property};
ghost use Rattle.gc_base.specs.Literals.{text_order};
ghost use Rattle.gc_base.specs.Places.{IsPlaceOrGap};
ghost use Rattle.gc_base.specs.PropertyLists.{AreProperties, IsProperty, put, values_of, property_order};
ghost use Rattle.gc_base.specs.Ascending.{with_item, without_item};

use crate::duplicate::Duplicate;
use crate::memory::Memory;
use crate::name::Name;
use crate::sets::ValueSet;
use crate::shared::Shared;
use std::alloc::Global;
use std::marker::Model;

/// A name with its values.
#[derive(Debug, Drop)]
pub struct Property {
    pub name: Name,
    pub values: ValueSet,
}

/// Names with their sets of values. Contracts see the list of the properties, which ascends by name;
/// a property that is listed has a value. A copy shares them until it changes, and takes no memory.
#[derive(Debug, Drop)]
pub struct Properties {
    alloc: Global,
    entries: Shared<Property>,
}

impl Model for Properties {
    ghost use Rattle.std.specs.Prelude.{List};
    ghost use Rattle.gc_base.specs.declared.properties.Property.{Property};

    ghost Value = { List Property };

    ghost use Rattle.gc_base.specs.PropertyLists.{AreProperties};

    ghost view = { λ p. p.entries };

    ghost invariant = { λ p. AreProperties p.entries };
}

impl Properties {
    /// No properties. It takes no memory yet.
    pub fn empty(alloc: Global) -> Properties
        ensures { result ≡ [] }
    {
        Properties {
            alloc,
            entries: Shared::empty(),
        }
    }

    /// How many names there are.
    pub fn len(&self) -> usize
        ensures { result ≡ length self.now }
    {
        self.entries.as_slice().len()
    }

    /// All properties, by name.
    pub fn as_slice(&self) -> &[Property]
        ensures properties { result.now ≡ self.now }
        ensures valid { AreProperties self.now }
    {
        self.entries.as_slice()
    }

    /// The name at a place below the length.
    pub fn name_at(&self, i: usize) -> &Name
        requires { i < length self.now }
        ensures { (p : Property) × (slice_get self.now i ≡ Some p) × (result.now ≡ p.name) }
    {
        &self.entries.as_slice()[i].name
    }

    /// The values at a place below the length.
    pub fn values_at(&self, i: usize) -> &ValueSet
        requires { i < length self.now }
        ensures { (p : Property) × (slice_get self.now i ≡ Some p) × (result.now ≡ p.values) }
    {
        &self.entries.as_slice()[i].values
    }

    /// The values of a name, or `None` exactly where the name is not there.
    pub fn get(&self, name: &Name) -> Option<&ValueSet>
        ensures { option_copied result ≡ values_of self.now name.now }
    {
        match self.search(name) {
            Ok(place) => Some(&self.entries.as_slice()[place].values),
            Err(_) => None,
        }
    }

    /// Makes a name have these values, or takes it out where they are none. Other names stay.
    pub fn put(&mut self, name: Name, values: ValueSet) -> Result<(), Memory>
        ensures ok { OnOk result (self.new ≡ put self.old (record { name = name; values = values })) }
        ensures err { OnErr result (self.new ≡ self.old) }
    {
        if values.len() == 0 {
            return self.take_out(&name);
        }
        let _bytes = name.bytes();
        let _values = values.as_slice();
        self.set(Property { name, values })
    }
}

impl Properties {
    // Where the name is, or where it would go.
    fn search(&self, name: &Name) -> Result<usize, usize>
        ensures { IsPlaceOrGap (λ p. text_order p.name name.now) self.now result }
    {
        self.entries
            .as_slice()
            .binary_search_by(|property| property.name.cmp(name))
    }

    // Takes a name out, if it is there.
    fn take_out(&mut self, name: &Name) -> Result<(), Memory>
        ensures ok { OnOk result (self.new ≡ without_item property_order self.old (record { name = name.now; values = [] })) }
        ensures err { OnErr result (self.new ≡ self.old) }
    {
        match self.search(name) {
            Ok(place) => self.entries.remove(self.alloc, place),
            Err(_) => Ok(()),
        }
    }

    // Puts a property that has values in, in place of any of its name.
    fn set(&mut self, property: Property) -> Result<(), Memory>
        requires { IsProperty property }
        ensures ok { OnOk result (self.new ≡ with_item property_order self.old property) }
        ensures err { OnErr result (self.new ≡ self.old) }
    {
        match self.search(&property.name) {
            Ok(place) => self.entries.replace(self.alloc, place, property),
            Err(place) => self.entries.insert(self.alloc, place, property),
        }
    }
}

impl Duplicate for Property {
    fn copy(&self) -> Result<Property, Memory> {
        Ok(Property {
            name: self.name.copy()?,
            values: self.values.copy()?,
        })
    }
}

impl Duplicate for Properties {
    fn copy(&self) -> Result<Properties, Memory> {
        let entries = self.entries.share()?;
        Ok(Properties {
            alloc: self.alloc,
            entries,
        })
    }
}
