ghost use Rattle.std.specs.Prelude.{◌≡◌, IfOk, OnOk, fold, length, is_some};
ghost use Rattle.std.specs.List.{filter, list_all};
ghost use Rattle.std.specs.Option.{option_copied};
ghost use Rattle.gc_base.specs.Ascending.{with_item};
ghost use Rattle.gc_base.specs.Literals.{literal_order};
ghost use Rattle.gc_group.specs.Folds.{folded, defined, reason, first_reason, is_there, addend, total, summed, all_literals, collected, number_set, set_of};
ghost use Rattle.gc_values.specs.Arithmetic.{one, exact};

use crate::ends::{End, outermost};
use crate::listed::collect;
use gc_base::{Duplicate, Literal, Memory, ValueSet};
use gc_expr::Fold;
use gc_values::{Val, Why};
use std::alloc::Global;

/// The value of an aggregate over the rows of a group, of each of which it takes the value of the
/// operand, in order.
pub fn fold(alloc: Global, how: Fold, values: &[Val]) -> Result<Val, Memory>
    ensures { IfOk result (λ v. v ≡ folded how values.now) }
{
    match reason(how, values) {
        Some(why) => Ok(Val::Undefined(why)),
        None => fold_defined(alloc, how, values),
    }
}

// Why the operand leaves the aggregate without a value; COUNT(*) asks nothing of it.
fn reason(how: Fold, values: &[Val]) -> Option<Why>
    ensures { result ≡ reason how values.now }
{
    match how {
        Fold::Rows => None,
        Fold::Count | Fold::Sum | Fold::Min | Fold::Max | Fold::Collect => first_reason(values),
    }
}

// The value of an aggregate over operands that all have a value.
fn fold_defined(alloc: Global, how: Fold, values: &[Val]) -> Result<Val, Memory>
    ensures { IfOk result (λ v. v ≡ defined how values.now) }
{
    match how {
        Fold::Rows => number(alloc, values.len()),
        Fold::Count => number(alloc, count(values)),
        Fold::Sum => sum(alloc, values),
        Fold::Min => set(alloc, outermost(End::Least, values)),
        Fold::Max => set(alloc, outermost(End::Greatest, values)),
        Fold::Collect => Ok(Val::Set(collect(alloc, values)?)),
    }
}

// The set of a number of rows.
fn number(alloc: Global, count: usize) -> Result<Val, Memory>
    ensures { IfOk result (λ v. v ≡ number_set count) }
{
    match i64::try_from(count) {
        Ok(count) => single(alloc, Literal::Number(count)),
        Err(_) => Err(Memory),
    }
}

// The set of one literal.
fn single(alloc: Global, literal: Literal) -> Result<Val, Memory>
    ensures { IfOk result (λ v. v ≡ one literal) }
{
    let mut values = ValueSet::empty(alloc);
    values.insert(literal)?;
    Ok(Val::Set(values))
}

// The set of a literal, if there is one.
fn set(alloc: Global, literal: Option<&Literal>) -> Result<Val, Memory>
    ensures { IfOk result (λ v. v ≡ set_of (option_copied literal.entry)) }
{
    match literal {
        None => Ok(Val::Set(ValueSet::empty(alloc))),
        Some(literal) => single(alloc, literal.copy()?),
    }
}

// Why the first operand without a value has none.
fn first_reason(values: &[Val]) -> Option<Why>
    ensures { result ≡ first_reason values.now }
{
    for value in values {
        if let Val::Undefined(why) = value {
            return Some(*why);
        }
    }
    None
}

// On how many rows there is something.
fn count(values: &[Val]) -> usize
    ensures { result ≡ length (filter is_there values.now) }
{
    values.iter().filter(|value| is_there(value)).count()
}

fn is_there(value: &Val) -> bool
    ensures { result ≡ is_there value.now }
{
    match value {
        Val::Set(values) => values.len() != 0,
        Val::Element(_) | Val::Walked | Val::Undefined(_) => true,
    }
}

// The sum of the numbers of all rows.
fn sum(alloc: Global, values: &[Val]) -> Result<Val, Memory>
    ensures { IfOk result (λ v. v ≡ summed values.now) }
{
    if !can_add(values) {
        return Ok(Val::Undefined(Why::WrongKind));
    }
    match exact(total(values)) {
        Ok(sum) => single(alloc, Literal::Number(sum)),
        Err(why) => Ok(Val::Undefined(why)),
    }
}

// A sum where it fits 64 bits.
fn exact(sum: i128) -> Result<i64, Why>
    ensures { result ≡ exact sum }
{
    match i64::try_from(sum) {
        Ok(sum) => Ok(sum),
        Err(_) => Err(Why::Overflow),
    }
}

// Whether each row can add something.
fn can_add(values: &[Val]) -> bool
    ensures { result ≡ list_all (λ value. is_some (addend value)) values.now }
{
    values.iter().all(|value| addend(value).is_some())
}

// What a row adds to a sum.
fn addend(value: &Val) -> Option<i64>
    ensures { result ≡ addend value.now }
{
    match value {
        Val::Set(values) => addend_of(values.as_slice()),
        Val::Element(_) | Val::Walked | Val::Undefined(_) => None,
    }
}

// What a set adds to a sum.
fn addend_of(values: &[Literal]) -> Option<i64>
    ensures { result ≡ addend (Val.Set values.now) }
{
    match values.split_first() {
        None => Some(0),
        Some((Literal::Number(number), rest)) => {
            if rest.is_empty() { Some(*number) } else { None }
        }
        Some(_) => None,
    }
}

// The sum of what all rows add. It fits, since there are fewer than 2^64 rows.
fn total(values: &[Val]) -> i128
    ensures { result ≡ total values.now }
{
    let mut sum: i128 = 0;
    for value in values {
        sum += addend(value).unwrap_or(0) as i128;
    }
    sum
}
