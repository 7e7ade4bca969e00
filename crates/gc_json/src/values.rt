ghost use Rattle.std.specs.Prelude.{◌≡◌, option_map};
ghost use Rattle.gc_json.specs.JsonValues.{number_in, items_in, members_in};
ghost use Rattle.gc_json.specs.PartsSeen.{members_seen};
ghost use Rattle.gc_json.specs.Reading.{Gives};
ghost use Rattle.serde_json.specs.View.{view, items_view};

use crate::fault::{Failure, Fault};
use serde_json::{Map, Value};

// The whole number that a value is, if there is one.
pub(crate) fn number_in(value: &Option<Value>) -> Option<u64>
    ensures { result ≡ number_in (option_map view value.now) }
{
    value.as_ref().and_then(Value::as_u64)
}

// The items of an array; without one there are none.
pub(crate) fn list_in(value: &Option<Value>) -> Result<&[Value], Failure<Fault>>
    ensures { Gives (λ list. items_view list.now) (items_in (option_map view value.now)) result }
{
    match value {
        None => Ok(&[]),
        Some(list) => match list.as_array() {
            None => Err(Failure::Refused(Fault::WrongShape)),
            Some(list) => Ok(list),
        },
    }
}

// The members of an object, if there is one.
pub(crate) fn members_in(
    value: &Option<Value>,
) -> Result<Option<&Map<String, Value>>, Failure<Fault>>
    ensures { Gives members_seen (members_in (option_map view value.now)) result }
{
    match value {
        None => Ok(None),
        Some(members) => match members.as_object() {
            None => Err(Failure::Refused(Fault::WrongShape)),
            Some(members) => Ok(Some(members)),
        },
    }
}
