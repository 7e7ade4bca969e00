ghost use Rattle.std.specs.Prelude.{◌≡◌, ◌++◌, ℕ, IfOk, OnOk};
ghost use Rattle.std.specs.List.{list_any};
ghost use Rattle.std.specs.Option.{option_copied};
ghost use Rattle.gc_build.specs.Kept.{has_instance, is_claimed};
ghost use Rattle.gc_build.specs.Standing.{has_kept, projected, standing, standing_as};
ghost use Rattle.gc_build.specs.Walking.{has_either};
ghost use Rattle.gc_build.specs.Walks.{has_walk};
ghost use Rattle.gc_build_recipe.specs.Places.{listed};

use crate::kept::Kept;
use gc_base::{Memory, Sym};
use gc_build_numbers::Element;
use gc_build_recipe::{Grouped, OfVariable};
use std::alloc::Global;
use std::marker::Model;

/// A variable at a place of a chain, or a path that a chain projects, with the instances of the chain.
#[derive(Drop)]
pub(crate) struct Standing<'a> {
    var: Sym,
    kept: &'a Kept<'a>,
}

impl<'a> Model for Standing<'a> {
    ghost use Rattle.gc_build.specs.Standing.{Standing};

    ghost Value = { Standing };

    ghost view = { λ s. record { var = s.var; kept = s.kept.now } };
}

impl OfVariable for Standing<'_> {
    ghost var_of = { λ s. s.var };

    fn var(&self) -> Sym {
        self.var
    }
}

/// The variables at the places of chains with these instances, in the order of the chains.
pub(crate) fn places_of<'a>(
    alloc: Global,
    kept: &'a [Kept<'a>],
) -> Result<Vec<Standing<'a>>, Memory>
    ensures { IfOk result (λ found. found.items ≡ standing kept.now) }
{
    let mut found = Vec::new(alloc);
    for one in kept {
        add_variables(&mut found, one, one.places.as_slice())?;
    }
    Ok(found)
}

/// The paths that chains with these instances project, in the order of the chains.
pub(crate) fn projected_of<'a>(
    alloc: Global,
    kept: &'a [Kept<'a>],
) -> Result<Vec<Standing<'a>>, Memory>
    ensures { IfOk result (λ found. found.items ≡ projected kept.now) }
{
    let mut found = Vec::new(alloc);
    for one in kept {
        add_variables(&mut found, one, one.projected.as_slice())?;
    }
    Ok(found)
}

// Adds variables of a chain.
fn add_variables<'a>(
    found: &mut Vec<Standing<'a>>,
    kept: &'a Kept<'a>,
    variables: &[Sym],
) -> Result<(), Memory>
    ensures { OnOk result (found.new.items ≡ found.old.items ++ standing_as kept.now variables.now) }
{
    for var in variables {
        found.push(Standing { var: *var, kept })?;
    }
    Ok(())
}

/// The instances of all chains, of which those of a variable are found by its number. Contracts see the
/// instances.
#[derive(Drop)]
pub(crate) struct Instances<'a> {
    pub all: &'a [Kept<'a>],
    by_variable: Grouped<'a, Standing<'a>>,
    by_path: Grouped<'a, Standing<'a>>,
}

/// The instances of the chains that have the walk of a path: those that store it, and those that project it.
#[derive(Clone, Copy)]
pub(crate) struct Walking<'a> {
    stored: Option<&'a Vec<&'a Standing<'a>>>,
    projected: Option<&'a Vec<&'a Standing<'a>>>,
}

impl<'a> Model for Instances<'a> {
    ghost use Rattle.std.specs.Prelude.{◌≡◌, List};
    ghost use Rattle.gc_build.specs.Kept.{Kept};
    ghost use Rattle.gc_build.specs.Standing.{projected, standing};

    ghost Value = { List Kept };

    ghost view = { λ i. i.all.now };

    ghost invariant = { λ i. (i.by_variable ≡ standing i.all.now) × (i.by_path ≡ projected i.all.now) };
}

impl<'a> Instances<'a> {
    /// These instances, where this stands at the places of their chains, and these paths are projected.
    pub(crate) fn of(
        alloc: Global,
        all: &'a [Kept<'a>],
        found: &'a [Standing<'a>],
        paths: &'a [Standing<'a>],
    ) -> Result<Instances<'a>, Memory>
        requires places { found.now ≡ standing all.now }
        requires paths { paths.now ≡ projected all.now }
        ensures { IfOk result (λ instances. instances ≡ all.now) }
    {
        let by_variable = Grouped::of(alloc, found)?;
        let by_path = Grouped::of(alloc, paths)?;
        Ok(Instances {
            all,
            by_variable,
            by_path,
        })
    }

    /// Those of the chains that have a variable.
    pub(crate) fn of_variable(&self, var: Sym) -> Option<&Vec<&'a Standing<'a>>>
        ensures { (place : ℕ) → has_kept place (listed (option_copied result)) ≡ has_instance self.now var place }
    {
        self.by_variable.of_variable(var)
    }

    /// Those of the chains that have the walk of a path.
    pub(crate) fn of_path(&self, path: Sym) -> Walking<'_>
        ensures { (place : ℕ) → has_either place result ≡ has_walk self.now path place }
    {
        Walking {
            stored: self.by_variable.of_variable(path),
            projected: self.by_path.of_variable(path),
        }
    }
}

/// Whether an instance on the row at a place is kept that has the walk of a path, where these are the
/// instances of the chains that have it.
pub(crate) fn has_walk(kept: &Instances<'_>, path: Sym, own: Walking<'_>, place: usize) -> bool
    requires { (row : ℕ) → has_either row own ≡ has_walk kept.now path row }
    ensures { result ≡ has_walk kept.now path place }
{
    has_either(own, place)
}

// Whether one of these instances is kept on the row at a place.
fn has_either(own: Walking<'_>, place: usize) -> bool
    ensures { result ≡ has_either place own.entry }
{
    has_kept(own.stored, place) || has_kept(own.projected, place)
}

/// Whether an instance is kept that has an element of a variable, where these are the instances of the
/// chains that have the variable.
pub(crate) fn is_claimed(
    kept: &Instances<'_>,
    var: Sym,
    own: Option<&Vec<&Standing<'_>>>,
    element: &Element,
) -> bool
    requires { (place : ℕ) → has_kept place (listed (option_copied own)) ≡ has_instance kept.now var place }
    ensures { result ≡ is_claimed kept.now var element.now }
{
    is_kept_on(own, element.group.rows.as_slice())
}

// Whether one of some instances is kept on one of these rows.
fn is_kept_on(own: Option<&Vec<&Standing<'_>>>, rows: &[u64]) -> bool
    ensures { result ≡ list_any (λ row. has_kept row (listed (option_copied own.entry))) rows.now }
{
    rows.iter().any(|row| has_kept(own, *row as usize))
}

// Whether one of some instances is kept on the row at a place.
fn has_kept(own: Option<&Vec<&Standing<'_>>>, place: usize) -> bool
    ensures { result ≡ has_kept place (listed (option_copied own.entry)) }
{
    let Some(own) = own else {
        return false;
    };
    for one in own {
        if one.kept.is_kept(place) {
            return true;
        }
    }
    false
}
