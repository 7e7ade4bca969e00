ghost use Rattle.std.specs.Prelude.{◌≡◌, ◌++◌, IfOk, OnOk, fold};
ghost use Rattle.gc_base.specs.Ascending.{with_item};
ghost use Rattle.gc_base.specs.Literals.{literal_order};
ghost use Rattle.gc_group.specs.Folds.{all_literals, collected};
ghost use Rattle.gc_rows.specs.Tables.{HasExactly};

use gc_base::{Duplicate, Literal, Memory, ValueSet, literal_cmp};
use gc_values::Val;
use std::alloc::Global;
use std::marker::Model;

// A literal of a row, where it stands. Contracts see the literal.
#[derive(Drop)]
struct Listed<'a> {
    literal: &'a Literal,
}

impl<'a> Model for Listed<'a> {
    ghost use Rattle.gc_base.specs.declared.literal.Literal.{Literal};

    ghost Value = { Literal };

    ghost view = { λ l. l.literal.now };
}

/// The literals of all rows, as a set. They are put in ascending, so that none is moved.
pub(crate) fn collect(alloc: Global, values: &[Val]) -> Result<ValueSet, Memory>
    ensures { IfOk result (λ set. set ≡ collected (all_literals values.now)) }
{
    set_of(alloc, &ascending(all_listed(alloc, values)?)?)
}

// The literals of all rows, row by row.
fn all_listed(alloc: Global, values: &[Val]) -> Result<Vec<Listed<'_>>, Memory>
    ensures { IfOk result (λ listed. listed.items ≡ all_literals values.now) }
{
    let mut listed = Vec::new(alloc);
    for value in values {
        if let Val::Set(literals) = value {
            list(&mut listed, literals.as_slice())?;
        }
    }
    Ok(listed)
}

// Adds the literals of a set.
fn list<'a>(listed: &mut Vec<Listed<'a>>, literals: &'a [Literal]) -> Result<(), Memory>
    ensures { OnOk result (listed.new.items ≡ listed.old.items ++ literals.now) }
{
    for literal in literals {
        listed.push(Listed { literal })?;
    }
    Ok(())
}

// These literals, ascending, each once.
fn ascending(mut listed: Vec<Listed<'_>>) -> Result<Vec<Listed<'_>>, Memory>
    ensures { IfOk result (λ sorted. HasExactly listed.entry.items sorted.items) }
{
    listed.sort_by(|a, b| literal_cmp(a.literal, b.literal))?;
    listed.dedup_by(|a, b| literal_cmp(a.literal, b.literal).is_eq());
    Ok(listed)
}

// The set of these literals.
fn set_of(alloc: Global, listed: &[Listed]) -> Result<ValueSet, Memory>
    ensures { IfOk result (λ set. set ≡ collected listed.now) }
{
    let mut set = ValueSet::empty(alloc);
    for entry in listed {
        set.insert(entry.literal.copy()?)?;
    }
    Ok(set)
}
