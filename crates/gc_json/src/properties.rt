ghost use Rattle.std.specs.Prelude.{◌≡◌};
ghost use Rattle.gc_json.specs.PropertyMembers.{are_names, property_of, properties_among, properties_of};
ghost use Rattle.gc_json.specs.Reading.{Gives};
ghost use Rattle.serde_json.specs.View.{view, members_view};

use crate::fault::{Failure, Fault};
use crate::literals::values_of;
use gc_base::{NamePool, Properties, Property, is_word_form};
use serde_json::{Map, Value};

// The properties of an object. All names are tested before all values.
pub(crate) fn properties_of(
    names: &mut NamePool,
    members: &Map<String, Value>,
) -> Result<Properties, Failure<Fault>>
    ensures { Gives (λ properties. properties) (properties_of (members_view members.now.entries)) result }
{
    if !are_names(members) {
        return Err(Failure::Refused(Fault::BadName));
    }
    properties_in(names, members)
}

// Whether each key has the form of a word.
fn are_names(members: &Map<String, Value>) -> bool
    ensures { result ≡ are_names (members_view members.now.entries) }
{
    members.keys().all(|key| is_word_form(key.as_bytes()))
}

// A property for each member that has values.
fn properties_in(
    names: &mut NamePool,
    members: &Map<String, Value>,
) -> Result<Properties, Failure<Fault>>
    ensures { Gives (λ properties. properties) (properties_among (members_view members.now.entries)) result }
{
    let mut properties = Properties::empty(names.allocator());
    for (key, value) in members.iter() {
        let Property { name, values } = property_of(names, key.as_str(), value)?;
        properties.put(name, values)?;
    }
    Ok(properties)
}

// A name with values.
fn property_of(names: &mut NamePool, key: &str, value: &Value) -> Result<Property, Failure<Fault>>
    ensures { Gives (λ property. property) (property_of key.now (view value.now)) result }
{
    let name = names.name(key.as_bytes())?;
    let name = name.ok_or(Fault::BadName)?;
    let values = values_of(names.allocator(), value)?;
    Ok(Property { name, values })
}
