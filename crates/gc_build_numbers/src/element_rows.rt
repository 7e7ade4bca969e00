ghost use Rattle.std.specs.Prelude.{◌≡◌, ◌++◌, ◌∷◌, [], true, Bool, List, IfOk, OnOk};
ghost use Rattle.std.specs.Option.{option_and_then, option_copied, option_map};
ghost use Rattle.gc_build_numbers.specs.Ends.{AreEnds};
ghost use Rattle.gc_build_numbers.specs.Keys.{bound_key, is_bound, is_by_ends, is_by_node, key_by, keys_of, number_in, whole};
ghost use Rattle.gc_build_numbers.specs.Settings.{Setting};
ghost use Rattle.gc_build_recipe.specs.declared.variable.Variable.{Variable};
ghost use Rattle.gc_group.specs.ElementKeys.{ends_key, node_key};
ghost use Rattle.gc_group.specs.Gathered.{keyed_from, keyed_rows};
ghost use Rattle.gc_build_numbers.specs.declared.numbered.Numbered.{Numbered};
ghost use Rattle.gc_ppg.specs.declared.shape.Kind.TheVariants.{Node as NodeKind};
ghost use Rattle.gc_rows.specs.declared.datum.Datum.TheVariants.{Node};

use crate::keys::{Ends, bound_key, ends_of, number_in};
use crate::numbered::NumberedList;
use crate::setting::Setting;
use gc_base::{Id, Memory};
use gc_build_recipe::{Grouping, Variable};
use gc_group::{ElementKey, ElementRow, EndsKey, NodeKey, OfElements};
use gc_ppg::Kind;
use gc_rows::{Datum, RowView};

/// A key of elements alone that is read off a row.
pub(crate) trait RowKey: OfElements {
    /// Whether rows are grouped by such keys for a variable.
    ghost groups: { Variable → Bool };

    // The key of the row at a place for a variable that has these ends, if the row has one.
    fn of_row(
        variable: &Variable,
        ends: Ends<'_>,
        place: usize,
        row: &RowView<'_>,
    ) -> Result<Option<Self>, Memory>
        requires { groups variable.now ≡ true }
        ensures { (s : Setting) → (before : List Numbered) → AreEnds before variable.now.grouping ends.entry
            → IfOk result (λ key. option_map Self.key_of key ≡ key_by s before variable.now.var variable.now.kind variable.now.grouping place row.now) };
}

impl RowKey for NodeKey {
    ghost groups = { λ v. is_by_node v.kind v.grouping };

    fn of_row(
        variable: &Variable,
        _ends: Ends<'_>,
        _place: usize,
        row: &RowView<'_>,
    ) -> Result<Option<NodeKey>, Memory> {
        Ok(node_key(row.get(variable.var)))
    }
}

// The key for a bound node that stands for this.
fn node_key(datum: Option<&Datum>) -> Option<NodeKey>
    ensures { option_map node_key result ≡ bound_key NodeKind (option_copied datum.entry) }
{
    match datum {
        Some(Datum::Node(node)) => Some(NodeKey { node: *node }),
        _ => None,
    }
}

impl RowKey for ElementKey {
    ghost groups = { λ v. is_bound v.grouping };

    fn of_row(
        variable: &Variable,
        _ends: Ends<'_>,
        _place: usize,
        row: &RowView<'_>,
    ) -> Result<Option<ElementKey>, Memory> {
        Ok(bound_key(variable.kind, row.get(variable.var)))
    }
}

impl RowKey for EndsKey {
    ghost groups = { λ v. is_by_ends v.grouping };

    fn of_row(
        _variable: &Variable,
        ends: Ends<'_>,
        place: usize,
        _row: &RowView<'_>,
    ) -> Result<Option<EndsKey>, Memory> {
        key_between(ends, place)
    }
}

// The key that is the ends of an edge, by the row at a place, where it gives a number to both.
fn key_between(ends: Ends<'_>, place: usize) -> Result<Option<EndsKey>, Memory>
    ensures { IfOk result (λ key. option_map ends_key key ≡ whole (option_map Node (option_and_then (number_in place) (option_copied ends.entry.source))
        ∷ option_map Node (option_and_then (number_in place) (option_copied ends.entry.target)) ∷ [])) }
{
    match (number_in(ends.source, place), number_in(ends.target, place)) {
        (Some(source), Some(target)) => {
            let source = Id::new(source).ok_or(Memory)?;
            let target = Id::new(target).ok_or(Memory)?;
            Ok(Some(EndsKey { source, target }))
        }
        _ => Ok(None),
    }
}

/// The rows of the table that have a key for a variable, in order, where they are grouped by such keys.
pub(crate) fn element_rows<K: RowKey + Drop>(
    setting: &Setting<'_>,
    before: &NumberedList,
    variable: &Variable,
) -> Result<Vec<ElementRow<K>>, Memory>
    requires { K.groups variable.now ≡ true }
    ensures { IfOk result (λ rows. rows.items ≡ keyed_rows (keys_of setting.now before.now variable.now)) }
{
    let ends = ends_of(before, &variable.grouping);
    let table = setting.table;
    let mut rows = Vec::with_capacity(setting.alloc, table.len())?;
    for place in 0..table.len() {
        let key = K::of_row(variable, ends, place, &table.row(place))?;
        add_row(&mut rows, key, place)?;
    }
    Ok(rows)
}

// Adds the row at a place, if it has a key.
fn add_row<K: OfElements + Drop>(
    rows: &mut Vec<ElementRow<K>>,
    key: Option<K>,
    place: usize,
) -> Result<(), Memory>
    ensures { OnOk result (rows.new.items ≡ rows.old.items ++ keyed_from place (option_map K.key_of key ∷ [])) }
{
    match key {
        None => Ok(()),
        Some(key) => {
            let row = place as u64;
            rows.push(ElementRow { key, row })?;
            Ok(())
        }
    }
}

/// Whether rows are grouped by the node that a variable stands for.
pub(crate) fn is_by_node(variable: &Variable) -> bool
    ensures { result ≡ is_by_node variable.now.kind variable.now.grouping }
{
    match variable.kind {
        Kind::Node => is_bound(&variable.grouping),
        Kind::Edge | Kind::Path => false,
    }
}

/// Whether rows are grouped by the element that a variable stands for.
pub(crate) fn is_bound(grouping: &Grouping) -> bool
    ensures { result ≡ is_bound grouping.now }
{
    match grouping {
        Grouping::Bound => true,
        Grouping::EachRow | Grouping::Walk | Grouping::Terms(_) => false,
        Grouping::Link {
            source: _,
            target: _,
            terms: _,
        } => false,
    }
}

/// Whether rows are grouped by the ends of an edge alone.
pub(crate) fn is_by_ends(grouping: &Grouping) -> bool
    ensures { result ≡ is_by_ends grouping.now }
{
    match grouping {
        Grouping::Link {
            source: _,
            target: _,
            terms,
        } => terms.as_slice().is_empty(),
        Grouping::Bound | Grouping::EachRow | Grouping::Walk | Grouping::Terms(_) => false,
    }
}
