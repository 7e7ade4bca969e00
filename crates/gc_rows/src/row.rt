ghost use Rattle.std.specs.Prelude.{◌≡◌, [], IfOk, OnOk, OnErr};
ghost use Rattle.std.specs.Option.{option_copied};
ghost use Rattle.std.specs.Ordering.{nat_cmp};
ghost use Rattle.gc_base.specs.Places.{IsPlaceOrGap};
ghost use Rattle.gc_rows.specs.declared.row.Binding.{Binding};
ghost use Rattle.gc_rows.specs.Rows.{datum_at, bind, IsRow, IsOver};
ghost use Rattle.gc_rows.specs.Algebra.{restricted};

use crate::datum::Datum;
use crate::variables::is_listed;
use gc_base::{Duplicate, Memory, Sequence, Sym};
use std::alloc::Global;
use std::marker::Model;
use std::mem::{drop, replace};

/// A variable with what it stands for.
#[derive(Debug, Drop)]
pub struct Binding {
    pub var: Sym,
    pub datum: Datum,
}

/// A finite map from variables to data. A variable that it lacks is unbound. Contracts see the list
/// of its bindings, which ascends by variable.
#[derive(Debug, Drop)]
pub struct Row {
    bindings: Vec<Binding>,
}

impl Model for Row {
    ghost use Rattle.std.specs.Prelude.{List};
    ghost use Rattle.gc_rows.specs.declared.row.Binding.{Binding};

    ghost Value = { List Binding };

    ghost use Rattle.gc_rows.specs.Rows.{IsRow};

    ghost view = { λ r. r.bindings.items };

    ghost invariant = { λ r. IsRow r.bindings.items };
}

/// A list of variables.
pub type SymList = Sequence<Sym>;

/// A list of rows.
pub type RowList = Sequence<Row>;

impl Row {
    /// The row that binds nothing. It takes no memory yet.
    pub fn empty(alloc: Global) -> Row
        ensures { result ≡ [] }
    {
        Row {
            bindings: Vec::new(alloc),
        }
    }

    /// The row that binds nothing, with room for some bindings.
    pub fn with_room(alloc: Global, bindings: usize) -> Result<Row, Memory>
        ensures { IfOk result (λ row. row ≡ []) }
    {
        Ok(Row {
            bindings: Vec::with_capacity(alloc, bindings)?,
        })
    }

    /// A copy with room for some more bindings, which then take no more memory.
    pub fn copy_with_room(&self, more: usize) -> Result<Row, Memory>
        ensures { IfOk result (λ row. row ≡ self.now) }
    {
        let room = self.bindings.len().saturating_add(more);
        let mut bindings = Vec::with_capacity(*self.bindings.allocator(), room)?;
        for binding in self.bindings() {
            bindings.push(binding.copy()?)?;
        }
        Ok(Row { bindings })
    }

    /// What a variable stands for, or `None` exactly where it is unbound.
    pub fn get(&self, var: Sym) -> Option<&Datum>
        ensures { option_copied result ≡ datum_at self.now var }
    {
        match self.search(var) {
            Ok(place) => Some(&self.bindings[place].datum),
            Err(_) => None,
        }
    }

    /// Binds a variable to a datum, in place of any that it had. Other variables stay as they are.
    pub fn put(&mut self, var: Sym, datum: Datum) -> Result<(), Memory>
        ensures ok { OnOk result (self.new ≡ bind self.old (record { var = var; datum = datum })) }
        ensures err { OnErr result (self.new ≡ self.old) }
    {
        let binding = Binding { var, datum };
        match self.search(var) {
            Ok(place) => drop(replace(&mut self.bindings[place], binding)),
            Err(place) => self.bindings.insert(place, binding)?,
        }
        Ok(())
    }

    /// All bindings, by variable.
    pub fn bindings(&self) -> &[Binding]
        ensures bindings { result.now ≡ self.now }
        ensures ascends { IsRow self.now }
    {
        &self.bindings
    }

    /// The row with its bindings of these variables alone.
    pub fn restricted(&self, keep: &[Sym]) -> Result<Row, Memory>
        ensures kept { IfOk result (λ row. row ≡ restricted keep.now self.now) }
        ensures over { IfOk result (IsOver keep.now) }
    {
        let mut bindings = Vec::new(*self.bindings.allocator());
        for binding in self.bindings() {
            if is_listed(keep, binding.var) {
                bindings.push(binding.copy()?)?;
            }
        }
        Ok(Row { bindings })
    }

    // Where the variable is bound, or would be. The bindings of a short row are gone over, which takes less than to
    // halve them.
    fn search(&self, var: Sym) -> Result<usize, usize>
        ensures { IsPlaceOrGap (λ b. nat_cmp b.var.0 var.0) self.now result }
    {
        if self.bindings.len() <= 8 {
            self.gone_over(var)
        } else {
            self.halved(var)
        }
    }

    // The same, by going over the bindings.
    fn gone_over(&self, var: Sym) -> Result<usize, usize>
        ensures { IsPlaceOrGap (λ b. nat_cmp b.var.0 var.0) self.now result }
    {
        let bindings = self.bindings();
        for (place, binding) in bindings.iter().enumerate() {
            if binding.var.0 == var.0 {
                return Ok(place);
            }
            if binding.var.0 > var.0 {
                return Err(place);
            }
        }
        Err(bindings.len())
    }

    // The same, by halving.
    fn halved(&self, var: Sym) -> Result<usize, usize>
        ensures { IsPlaceOrGap (λ b. nat_cmp b.var.0 var.0) self.now result }
    {
        self.bindings
            .binary_search_by(|binding| binding.var.0.cmp(&var.0))
    }
}

impl Duplicate for Binding {
    fn copy(&self) -> Result<Binding, Memory> {
        Ok(Binding {
            var: self.var,
            datum: self.datum.copy()?,
        })
    }
}

impl Duplicate for Row {
    fn copy(&self) -> Result<Row, Memory> {
        self.copy_with_room(0)
    }
}
