ghost use Rattle.std.specs.Prelude.{◌≡◌, IfOk, map};
ghost use Rattle.std.specs.Option.{option_copied};
ghost use Rattle.gc_build.specs.Kept.{is_kept, kept_from, kept_of};
ghost use Rattle.gc_build.specs.Makers.{maker_of};
ghost use Rattle.gc_build.specs.Names.{named_by};

use crate::instances::{keeps, makers, named_by};
use crate::making::Making;
use gc_base::{Memory, Steps};
use gc_build_numbers::Numbered;
use gc_build_recipe::{Chain, Variable};
use gc_rows::SymList;
use std::marker::Model;
use std::sync::ledger::Ledger;

/// The instances of a chain: its places, the paths that it projects, and whether that on each row is
/// kept.
#[derive(Drop)]
pub(crate) struct Kept<'a> {
    pub places: &'a SymList,
    pub projected: &'a SymList,
    rows: Vec<bool>,
}

impl<'a> Model for Kept<'a> {
    ghost use Rattle.gc_build.specs.Kept.{Kept};

    ghost Value = { Kept };

    ghost view = { λ k. record { places = k.places.now; projected = k.projected.now; rows = k.rows.items } };
}

impl Kept<'_> {
    /// Whether the instance on the row at a place is kept.
    pub(crate) fn is_kept(&self, place: usize) -> bool
        ensures { result ≡ is_kept place self.now }
    {
        match self.rows.get(place) {
            None => false,
            Some(kept) => *kept,
        }
    }
}

/// The instances of each chain, in the order of the chains.
pub(crate) fn kept_instances<'a, L: Ledger>(
    making: &Making<'_>,
    chains: &'a [Chain],
    steps: &mut Steps<L>,
) -> Result<Vec<Kept<'a>>, Memory>
    ensures { IfOk result (λ kept. kept.items ≡ map (kept_of making.now) chains.now) }
{
    let setting = making.setting;
    let mut kept = Vec::with_capacity(setting.alloc, chains.len())?;
    for chain in chains {
        kept.push(kept_of(making, chain, steps)?)?;
    }
    Ok(kept)
}

// The instances of a chain.
fn kept_of<'a, L: Ledger>(
    making: &Making<'_>,
    chain: &'a Chain,
    steps: &mut Steps<L>,
) -> Result<Kept<'a>, Memory>
    ensures { IfOk result (λ kept. kept ≡ kept_of making.now chain.now) }
{
    let makers = makers(making, chain.places.as_slice())?;
    let named = named_by(making, &chain.condition)?;
    let rows = kept_rows(making, chain, &makers, &named, steps)?;
    Ok(Kept {
        places: &chain.places,
        projected: &chain.projected,
        rows,
    })
}

// Whether the instance of a chain on each row of the table is kept.
fn kept_rows<L: Ledger>(
    making: &Making<'_>,
    chain: &Chain,
    makers: &[Option<&Numbered>],
    named: &[&Variable],
    steps: &mut Steps<L>,
) -> Result<Vec<bool>, Memory>
    requires makers { map option_copied makers.now ≡ map (maker_of making.now) chain.now.places }
    requires named { map (λ v. v.now) named.now ≡ named_by making.now chain.now.condition }
    ensures { IfOk result (λ kept. kept.items ≡ kept_from making.now chain.now 0 making.now.setting.rows) }
{
    let setting = making.setting;
    let table = setting.table;
    let mut kept = Vec::with_capacity(setting.alloc, table.len())?;
    for place in 0..table.len() {
        let row = table.row(place);
        kept.push(keeps(making, chain, makers, named, place, &row, steps)?)?;
    }
    Ok(kept)
}
