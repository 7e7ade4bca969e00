ghost use Rattle.std.specs.Prelude.{◌≡◌, ◌==◌, ◌++◌, ◌∷◌, [], true, IfOk, OnOk, is_some, map};
ghost use Rattle.std.specs.List.{find, list_all};
ghost use Rattle.std.specs.Option.{option_and_then, option_copied, option_map};
ghost use Rattle.gc_build_numbers.specs.Ends.{AreEnds};
ghost use Rattle.gc_build_numbers.specs.Keys.{bound_key, key_by, keys_of, number_in, single_key, term_part, walk_key, whole};
ghost use Rattle.gc_build_numbers.specs.Readers.{terms_of};
ghost use Rattle.gc_build_numbers.specs.Settings.{on_row};
ghost use Rattle.gc_build_numbers.specs.WholeRows.{row_key};
ghost use Rattle.gc_group.specs.ElementKeys.{key_of};
ghost use Rattle.gc_rows.specs.Rows.{cells};
ghost use Rattle.gc_rows.specs.declared.datum.Datum.TheVariants.{Node};

use crate::numbered::{Numbered, NumberedList};
use crate::setting::Setting;
use crate::terms::{Reader, readers};
use gc_base::{Duplicate, Id, Memory, Steps, Sym};
use gc_build_recipe::{Grouping, Variable};
use gc_group::{ElementKey, Key, KeyParts, OfElements};
use gc_ppg::Kind;
use gc_rows::{Datum, RowView};
use std::alloc::Global;
use std::sync::ledger::Ledger;

/// The key that each row of the table has for a variable, if it has one, in the order of the rows.
pub(crate) fn keys<L: Ledger>(
    setting: &Setting<'_>,
    before: &NumberedList,
    variable: &Variable,
    steps: &mut Steps<L>,
) -> Result<Vec<Option<Key>>, Memory>
    ensures { IfOk result (λ keys. keys.items ≡ keys_of setting.now before.now variable.now) }
{
    let readers = readers(setting.alloc, &variable.grouping)?;
    let ends = ends_of(before, &variable.grouping);
    let table = setting.table;
    let mut keys = Vec::with_capacity(setting.alloc, table.len())?;
    for place in 0..table.len() {
        let row = table.row(place);
        let placed = Placed {
            setting,
            ends,
            place,
            row: &row,
        };
        keys.push(placed.key(before, variable, &readers, steps)?)?;
    }
    Ok(keys)
}

/// The variables at the ends of an edge, where they were numbered before it.
#[derive(Clone, Copy)]
pub(crate) struct Ends<'a> {
    pub source: Option<&'a Numbered>,
    pub target: Option<&'a Numbered>,
}

/// The ends of a variable that is grouped so, which are looked up once for all rows.
pub(crate) fn ends_of<'a>(before: &'a NumberedList, grouping: &Grouping) -> Ends<'a>
    ensures { AreEnds before.now grouping.now result }
{
    match grouping {
        Grouping::Link {
            source,
            target,
            terms: _,
        } => ends_between(before, *source, *target),
        _ => Ends {
            source: None,
            target: None,
        },
    }
}

// The variables at the ends of an edge between these two.
fn ends_between<'a>(before: &'a NumberedList, source: Sym, target: Sym) -> Ends<'a>
    ensures source { option_copied result.source ≡ find (λ v. v.var.0 == source.0) before.now }
    ensures target { option_copied result.target ≡ find (λ v. v.var.0 == target.0) before.now }
{
    Ends {
        source: before.get(source),
        target: before.get(target),
    }
}

// A row at its place in the table, and the ends of the variable that it makes an element of.
#[derive(Drop)]
struct Placed<'a> {
    setting: &'a Setting<'a>,
    ends: Ends<'a>,
    place: usize,
    row: &'a RowView<'a>,
}

impl Placed<'_> {
    // The key of the row for a variable, whose terms have these readers.
    fn key<L: Ledger>(
        &self,
        before: &NumberedList,
        variable: &Variable,
        readers: &[Reader<'_>],
        steps: &mut Steps<L>,
    ) -> Result<Option<Key>, Memory>
        requires readers { readers.now ≡ terms_of variable.now.grouping }
        requires ends { AreEnds before.now variable.now.grouping self.now.ends }
        ensures { IfOk result (λ key. key ≡ key_by self.now.setting.now before.now variable.now.var variable.now.kind variable.now.grouping
            self.now.place self.now.row.now) }
    {
        let setting = self.setting;
        let alloc = setting.alloc;
        match &variable.grouping {
            Grouping::Bound => {
                let key = bound_key(variable.kind, self.row.get(variable.var));
                Ok(with_parts(alloc, key))
            }
            Grouping::EachRow => {
                let schema = setting.table.schema().as_slice();
                Ok(Some(row_key(alloc, schema, self.row)?))
            }
            Grouping::Walk => walk_key(alloc, self.row.get(variable.var)),
            Grouping::Terms(_) => {
                let mut parts = KeyParts::with_room(alloc, readers.len())?;
                self.read(readers, &mut parts, steps)?;
                Ok(whole(parts))
            }
            Grouping::Link {
                source: _,
                target: _,
                terms: _,
            } => {
                let room = readers.len().saturating_add(2);
                let mut parts = KeyParts::with_room(alloc, room)?;
                parts.push(end_part(self.ends.source, self.place)?)?;
                parts.push(end_part(self.ends.target, self.place)?)?;
                self.read(readers, &mut parts, steps)?;
                Ok(whole(parts))
            }
        }
    }

    // Adds the parts for terms.
    fn read<L: Ledger>(
        &self,
        readers: &[Reader<'_>],
        parts: &mut KeyParts,
        steps: &mut Steps<L>,
    ) -> Result<(), Memory>
        ensures { OnOk result (parts.new ≡ parts.old ++ map (term_part (on_row self.now.setting.now self.now.row.now)) readers.now) }
    {
        for reader in readers {
            parts.push(reader.part(self.setting, self.row, steps)?)?;
        }
        Ok(())
    }
}

// The part for the end of an edge, by the row at a place. A number that no identity has is want of memory.
fn end_part(end: Option<&Numbered>, place: usize) -> Result<Option<Datum>, Memory>
    ensures { IfOk result (λ part. part ≡ option_map Node (option_and_then (number_in place) (option_copied end.entry))) }
{
    match number_in(end, place) {
        None => Ok(None),
        Some(number) => {
            let id = Id::new(number).ok_or(Memory)?;
            Ok(Some(Datum::Node(id)))
        }
    }
}

/// The number that the row at a place gives to a variable, if it was numbered before.
pub(crate) fn number_in(numbered: Option<&Numbered>, place: usize) -> Option<u64>
    ensures { result ≡ option_and_then (number_in place) (option_copied numbered.entry) }
{
    match numbered {
        None => None,
        Some(numbered) => numbered.number_in(place),
    }
}

/// The key for a bound variable of a kind that stands for this.
pub(crate) fn bound_key(kind: Kind, datum: Option<&Datum>) -> Option<ElementKey>
    ensures { option_map key_of result ≡ bound_key kind (option_copied datum.entry) }
{
    match datum {
        Some(Datum::Node(id)) => (kind == Kind::Node).then_some(ElementKey::Node(*id)),
        Some(Datum::Edge(id)) => (kind == Kind::Edge).then_some(ElementKey::Edge(*id)),
        Some(Datum::Stored(id)) => (kind == Kind::Path).then_some(ElementKey::Stored(*id)),
        _ => None,
    }
}

// The same key with its parts.
fn with_parts(alloc: Global, key: Option<ElementKey>) -> Option<Key>
    ensures { result ≡ option_map key_of key }
{
    match key {
        None => None,
        Some(key) => Some(key.to_key(alloc)),
    }
}

// The key for a variable that stands for a walk that was found.
fn walk_key(alloc: Global, datum: Option<&Datum>) -> Result<Option<Key>, Memory>
    ensures { IfOk result (λ key. key ≡ walk_key (option_copied datum.entry)) }
{
    match datum {
        Some(datum @ Datum::Found(_)) => single_key(alloc, datum),
        _ => Ok(None),
    }
}

// The key that is a datum alone.
fn single_key(alloc: Global, datum: &Datum) -> Result<Option<Key>, Memory>
    ensures { IfOk result (λ key. key ≡ single_key datum.now) }
{
    let mut parts = KeyParts::with_room(alloc, 1)?;
    parts.push(Some(datum.copy()?))?;
    Ok(Some(Key { parts }))
}

/// The key that is a whole row.
pub(crate) fn row_key(alloc: Global, schema: &[Sym], row: &RowView<'_>) -> Result<Key, Memory>
    ensures { IfOk result (λ key. key ≡ row_key schema.now row.now) }
{
    Ok(Key {
        parts: cells(alloc, schema, row)?,
    })
}

// What the variables of a schema stand for in a row.
fn cells(alloc: Global, schema: &[Sym], row: &RowView<'_>) -> Result<KeyParts, Memory>
    ensures { IfOk result (λ parts. parts ≡ cells schema.now row.now) }
{
    let mut parts = KeyParts::with_room(alloc, schema.len())?;
    for var in schema {
        parts.push(copied(row.get(*var))?)?;
    }
    Ok(parts)
}

fn copied(datum: Option<&Datum>) -> Result<Option<Datum>, Memory>
    ensures { IfOk result (λ copied. copied ≡ option_copied datum.entry) }
{
    match datum {
        None => Ok(None),
        Some(datum) => Ok(Some(datum.copy()?)),
    }
}

// The key of parts that are all there.
fn whole(parts: KeyParts) -> Option<Key>
    ensures { result ≡ whole parts }
{
    if are_there(parts.as_slice()) {
        Some(Key { parts })
    } else {
        None
    }
}

fn are_there(parts: &[Option<Datum>]) -> bool
    ensures { result ≡ list_all is_some parts.now }
{
    parts.iter().all(|part| part.is_some())
}
