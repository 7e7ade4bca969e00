//! Lists of a document, of which each item tells something of one kind.
ghost use Rattle.std.specs.Prelude.{◌≡◌, IfOk, option_map};
ghost use Rattle.serde_json.specs.View.{view, items_view};
ghost use Rattle.gc_cert_text.specs.Options.{each_of, list_at};

use crate::shapes::array_at;
use gc_base::Memory;
use serde_json::Value;
use std::alloc::Global;

// What an item of a document tells.
pub(crate) trait Told: Drop {
    ghost use Rattle.std.specs.Prelude.{Option};
    ghost use Rattle.serde_json.specs.Data.{Data};

    ghost told: { Data → Option Self };

    fn of(alloc: Global, value: &Value) -> Result<Option<Self>, Memory>
        ensures { IfOk result (λ found. found ≡ told (view value.now)) };
}

// What the items of the array at a key tell, where each tells something.
pub(crate) fn list_at<T: Told>(
    alloc: Global,
    value: &Value,
    key: &str,
) -> Result<Option<Vec<T>>, Memory>
    ensures { IfOk result (λ list. option_map (λ v. v.items) list ≡ list_at T.told key.now (view value.now)) }
{
    match array_at(value, key) {
        None => Ok(None),
        Some(items) => each_of(alloc, items),
    }
}

// What each item tells.
fn each_of<T: Told>(alloc: Global, items: &[Value]) -> Result<Option<Vec<T>>, Memory>
    ensures { IfOk result (λ list. option_map (λ v. v.items) list ≡ each_of T.told (items_view items.now)) }
{
    let mut list = Vec::new(alloc);
    for item in items {
        match T::of(alloc, item)? {
            None => return Ok(None),
            Some(told) => list.push(told)?,
        }
    }
    Ok(Some(list))
}
