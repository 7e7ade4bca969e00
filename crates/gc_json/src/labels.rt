ghost use Rattle.gc_json.specs.LabelLists.{label_of, labels_of};
ghost use Rattle.gc_json.specs.Reading.{Gives};
ghost use Rattle.serde_json.specs.View.{view, items_view};

use crate::collected::{FEW, set_of};
use crate::fault::{Failure, Fault};
use gc_base::{LabelSet, Name, NamePool};
use serde_json::Value;
use std::collections::BTreeSet;

// The labels of a list.
pub(crate) fn labels_in(names: &mut NamePool, items: &[Value]) -> Result<LabelSet, Failure<Fault>>
    ensures { Gives (λ labels. labels) (labels_of (items_view items.now)) result }
{
    if items.len() > FEW {
        many_labels(names, items)
    } else {
        few_labels(names, items)
    }
}

// The labels of a long list, which go through a tree.
fn many_labels(names: &mut NamePool, items: &[Value]) -> Result<LabelSet, Failure<Fault>>
    ensures { Gives (λ labels. labels) (labels_of (items_view items.now)) result }
{
    let mut tree = BTreeSet::new(names.allocator());
    for item in items {
        let label = label_of(names, item)?;
        tree.insert(label)?;
    }
    Ok(set_of(names.allocator(), tree)?)
}

// The labels of a short list.
fn few_labels(names: &mut NamePool, items: &[Value]) -> Result<LabelSet, Failure<Fault>>
    ensures { Gives (λ labels. labels) (labels_of (items_view items.now)) result }
{
    let mut labels = LabelSet::empty(names.allocator());
    for item in items {
        let label = label_of(names, item)?;
        labels.insert(label)?;
    }
    Ok(labels)
}

// The label that a text is.
fn label_of(names: &mut NamePool, value: &Value) -> Result<Name, Failure<Fault>>
    ensures { Gives (λ label. label) (label_of (view value.now)) result }
{
    let text = value.as_str().ok_or(Fault::BadLabel)?;
    let label = names.name(text.as_bytes())?;
    Ok(label.ok_or(Fault::BadLabel)?)
}
