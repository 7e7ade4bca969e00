ghost use Rattle.std.specs.Prelude.{◌≡◌, ◌++◌, [], IfOk, OnOk, Some, is_some, map};
ghost use Rattle.std.specs.List.{list_all};
ghost use Rattle.std.specs.Option.{option_copied, option_map, option_to_list};
ghost use Rattle.gc_build.specs.Kept.{has_places, holds, is_yes, keeps, when_context};
ghost use Rattle.gc_build.specs.Makers.{has_all, maker_of, makes};
ghost use Rattle.gc_build.specs.Names.{found_of, named_by, names_in};
ghost use Rattle.gc_expr.specs.Views.{numbered_expr};
ghost use Rattle.gc_rows.specs.Rows.{datum_at};
ghost use Rattle.gc_values.specs.ExprTruths.{truth_of};

use crate::made::made_of;
use crate::making::Making;
use crate::names::names_in;
use gc_base::{Memory, Steps, Sym};
use gc_build_numbers::Numbered;
use gc_build_recipe::{Chain, Variable};
use gc_expr::Expr;
use gc_rows::RowView;
use gc_values::{Truth3, truth};
use std::sync::ledger::Ledger;

/// The elements of the variables at the places of a chain, which are looked up once for all rows.
pub(crate) fn makers<'a>(
    making: &'a Making<'_>,
    places: &[Sym],
) -> Result<Vec<Option<&'a Numbered>>, Memory>
    ensures { IfOk result (λ makers. map option_copied makers.items ≡ map (maker_of making.now) places.now) }
{
    let setting = making.setting;
    let mut makers = Vec::with_capacity(setting.alloc, places.len())?;
    for place in places {
        makers.push(making.maker(*place))?;
    }
    Ok(makers)
}

/// The variables that a condition names, if there is one, which are looked up once for all rows.
pub(crate) fn named_by<'a>(
    making: &'a Making<'_>,
    condition: &Option<Expr>,
) -> Result<Vec<&'a Variable>, Memory>
    ensures { IfOk result (λ named. map (λ v. v.now) named.items ≡ named_by making.now (option_map numbered_expr condition.now)) }
{
    let setting = making.setting;
    match condition {
        None => Ok(Vec::new(setting.alloc)),
        Some(condition) => found_of(making, &names_in(setting.alloc, condition)?),
    }
}

// The variables of names, so far as the CONSTRUCT has them.
fn found_of<'a>(making: &'a Making<'_>, names: &[Sym]) -> Result<Vec<&'a Variable>, Memory>
    ensures { IfOk result (λ found. map (λ v. v.now) found.items ≡ found_of making.now names.now) }
{
    let setting = making.setting;
    let mut found = Vec::with_capacity(setting.alloc, names.len())?;
    for name in names {
        add_found(&mut found, making.variable(*name))?;
    }
    Ok(found)
}

fn add_found<'a>(
    found: &mut Vec<&'a Variable>,
    variable: Option<&'a Variable>,
) -> Result<(), Memory>
    ensures { OnOk result (map (λ v. v.now) found.new.items ≡ map (λ v. v.now) found.old.items ++ option_to_list (option_copied variable.entry)) }
{
    if let Some(variable) = variable {
        found.push(variable)?;
    }
    Ok(())
}

/// Whether the instance of a chain on the row at a place is kept: each of its places has an identity,
/// each path that it projects is bound, and its condition is true of what was made.
pub(crate) fn keeps<L: Ledger>(
    making: &Making<'_>,
    chain: &Chain,
    makers: &[Option<&Numbered>],
    named: &[&Variable],
    place: usize,
    row: &RowView<'_>,
    steps: &mut Steps<L>,
) -> Result<bool, Memory>
    requires makers { map option_copied makers.now ≡ map (maker_of making.now) chain.now.places }
    requires named { map (λ v. v.now) named.now ≡ named_by making.now chain.now.condition }
    ensures { IfOk result (λ kept. kept ≡ keeps making.now chain.now place row.now) }
{
    if !has_places(making, chain, makers, place) {
        return Ok(false);
    }
    if !has_paths(chain.projected.as_slice(), row) {
        return Ok(false);
    }
    holds(making, &chain.condition, named, place, row, steps)
}

// Whether the row at a place makes an element of each variable of a chain, of which these are the elements.
fn has_places(
    making: &Making<'_>,
    chain: &Chain,
    makers: &[Option<&Numbered>],
    place: usize,
) -> bool
    requires { map option_copied makers.now ≡ map (maker_of making.now) chain.now.places }
    ensures { result ≡ has_places making.now chain.now place }
{
    has_all(makers, place)
}

// Whether the row at a place makes an element of each of these.
fn has_all(makers: &[Option<&Numbered>], place: usize) -> bool
    ensures { result ≡ has_all place (map option_copied makers.now) }
{
    for maker in makers {
        if !makes(*maker, place) {
            return false;
        }
    }
    true
}

// Whether the row at a place makes an element of a variable.
fn makes(maker: Option<&Numbered>, place: usize) -> bool
    ensures { result ≡ makes place (option_copied maker.entry) }
{
    match maker {
        None => false,
        Some(maker) => maker.number_in(place).is_some(),
    }
}

// Whether a row binds each of these variables.
fn has_paths(paths: &[Sym], row: &RowView<'_>) -> bool
    ensures { result ≡ list_all (λ p. is_some (datum_at row.now p)) paths.now }
{
    paths.iter().all(|path| row.get(*path).is_some())
}

// Whether a condition, if there is one, is true of what the row at a place makes.
fn holds<L: Ledger>(
    making: &Making<'_>,
    condition: &Option<Expr>,
    named: &[&Variable],
    place: usize,
    row: &RowView<'_>,
    steps: &mut Steps<L>,
) -> Result<bool, Memory>
    requires { map (λ v. v.now) named.now ≡ named_by making.now (option_map numbered_expr condition.now) }
    ensures { IfOk result (λ is_true. is_true ≡ holds (option_map numbered_expr condition.now) (when_context making.now place row.now)) }
{
    match condition {
        None => Ok(true),
        Some(condition) => is_true(making, condition, named, place, row, steps),
    }
}

// Whether a condition is true of what the row at a place makes of the variables that it names.
fn is_true<L: Ledger>(
    making: &Making<'_>,
    condition: &Expr,
    named: &[&Variable],
    place: usize,
    row: &RowView<'_>,
    steps: &mut Steps<L>,
) -> Result<bool, Memory>
    requires { map (λ v. v.now) named.now ≡ named_by making.now (Some (numbered_expr condition.now)) }
    ensures { IfOk result (λ is_true. is_true ≡ holds (Some (numbered_expr condition.now)) (when_context making.now place row.now)) }
{
    let found = truth_of(making, condition, named, place, row, steps)?;
    Ok(is_yes(found))
}

// The truth of a condition on what the row at a place makes of the variables that it names.
fn truth_of<L: Ledger>(
    making: &Making<'_>,
    condition: &Expr,
    named: &[&Variable],
    place: usize,
    row: &RowView<'_>,
    steps: &mut Steps<L>,
) -> Result<Truth3, Memory>
    requires { map (λ v. v.now) named.now ≡ found_of making.now (names_in (numbered_expr condition.now)) }
    ensures { IfOk result (λ t. t ≡ truth_of (when_context making.now place row.now) [] (numbered_expr condition.now)) }
{
    let setting = making.setting;
    let made = made_of(making, named, place, row)?;
    truth(
        setting.alloc,
        condition,
        row,
        setting.reads,
        setting.graphs,
        &made,
        &[],
        steps,
    )
}

fn is_yes(found: Truth3) -> bool
    ensures { result ≡ is_yes found }
{
    match found {
        Truth3::Yes => true,
        Truth3::No => false,
        Truth3::Unknown => false,
    }
}
