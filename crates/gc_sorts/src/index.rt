ghost use Rattle.std.specs.Prelude.{◌≡◌, ◌++◌, ◌∷◌, ◌+◌, [], ◌-◌, ◌≤◌, ◌↔◌, ℕ, length, take, true, IsTrue, Some, None, slice_index_or, nat_eq, IfOk, OnOk, OnErr};
ghost use Rattle.std.specs.List.{list_all};
ghost use Rattle.gc_base.specs.declared.place.Sym.{Sym as Number};
ghost use Rattle.gc_base.specs.Words.{is_word};
ghost use Rattle.gc_expr.specs.Views.{name_of};
ghost use Rattle.gc_ast.specs.Names.{same_name};
ghost use Rattle.gc_sorts.specs.Graphs.{has_name};
ghost use Rattle.gc_sorts.specs.Orders.{first_place, slot};

use gc_ast::NameTable;
use gc_base::{Memory, Sym};
use std::alloc::Global;
use std::marker::Model;

/// Names in the order in which they came, each by its number in a name table, and the place where
/// each stands first. All numbers that the table lacks stand for one name, which has no bytes.
#[derive(Drop)]
pub(crate) struct Index<'a> {
    names: &'a NameTable,
    syms: Vec<Sym>,
    first: Vec<Option<usize>>,
}

impl<'a> Model for Index<'a> {
    ghost use Rattle.std.specs.Prelude.{◌≡◌, ◌≤◌, ◌+◌, ℕ, None, true, length, map, slice_index_or};
    ghost use Rattle.std.specs.List.{IsDistinct, list_all, position};
    ghost use Rattle.gc_base.specs.Words.{is_word};
    ghost use Rattle.gc_expr.specs.Views.{name_of};
    ghost use Rattle.gc_ast.specs.Names.{same_name};
    ghost use Rattle.gc_sorts.specs.Orders as orders;
    ghost use Rattle.gc_sorts.specs.Orders.{has_slot};

    ghost Value = { orders.Order };

    ghost view = { λ x. record { names = x.names.now; order = map (name_of x.names.now) x.syms.items } };

    ghost invariant = { λ x. (list_all is_word x.names.now ≡ true) × IsDistinct same_name x.names.now ×
        (length x.first.items ≡ length x.names.now + 1) × ((k : ℕ) → k ≤ length x.names.now → slice_index_or x.first.items k None ≡ position
        (has_slot (length x.names.now) k) x.syms.items) };
}

impl<'a> Index<'a> {
    /// No names yet.
    pub fn of(alloc: Global, names: &'a NameTable) -> Result<Index<'a>, Memory>
        ensures names { IfOk result (λ index. index.names ≡ names.now) }
        ensures order { IfOk result (λ index. index.order ≡ []) }
    {
        read_words(names);
        let _distinct = names.as_slice();
        let first = no_places(alloc, names.len())?;
        Ok(Index {
            names,
            syms: Vec::new(alloc),
            first,
        })
    }

    /// The slot of a number. Another number stands for the same name exactly where it has the same slot.
    pub fn slot(&self, sym: Sym) -> usize
        ensures slot { result ≡ slot (length self.now.names) sym }
        ensures within { result ≤ length self.now.names }
        ensures same { (other : Number) → same_name (name_of self.now.names sym) (name_of self.now.names other) ≡ nat_eq result
            (slot (length self.now.names) other) }
    {
        slot(self.names, sym)
    }

    /// How many names came.
    pub fn len(&self) -> usize
        ensures { result ≡ length self.now.order }
    {
        self.syms.len()
    }

    /// The place where a name stands first, if it came.
    pub fn first(&self, sym: Sym) -> Option<usize>
        ensures { result ≡ first_place self.now.order (name_of self.now.names sym) }
    {
        self.first[slot(self.names, sym)]
    }

    /// Whether a name came.
    pub fn has(&self, sym: Sym) -> bool
        ensures { result ≡ has_name self.now.order (name_of self.now.names sym) }
    {
        self.first(sym).is_some()
    }

    /// Adds a name at the end.
    pub fn push(&mut self, sym: Sym) -> Result<(), Memory>
        ensures names { self.new.names ≡ self.old.names }
        ensures order { OnOk result (self.new.order ≡ self.old.order ++ name_of self.old.names sym ∷ []) }
        ensures err { OnErr result (self.new.order ≡ self.old.order) }
    {
        let place = self.syms.len();
        let at = slot(self.names, sym);
        self.syms.push(sym)?;
        if self.first[at].is_none() {
            self.first[at] = Some(place);
        }
        Ok(())
    }

    /// Keeps the first n names, or all where there are no more.
    pub fn cut(&mut self, n: usize)
        ensures names { self.new.names ≡ self.old.names }
        ensures order { self.new.order ≡ take n self.old.order }
    {
        while self.syms.len() > n {
            self.drop_last();
        }
    }

    // Takes the last name away, if there is one.
    fn drop_last(&mut self)
        ensures names { self.new.names ≡ self.old.names }
        ensures order { self.new.order ≡ take (length self.old.order - 1) self.old.order }
    {
        let Some(sym) = self.syms.pop() else {
            return;
        };
        let place = self.syms.len();
        let at = slot(self.names, sym);
        if is_place(self.first[at], place) {
            self.first[at] = None;
        }
    }
}

// Whether a first place is this one.
fn is_place(first: Option<usize>, place: usize) -> bool
    ensures { IsTrue result ↔ (first ≡ Some place) }
{
    match first {
        Some(other) => other == place,
        None => false,
    }
}

// The slot of a number.
fn slot(names: &NameTable, sym: Sym) -> usize
    ensures { result ≡ slot (length names.now) sym }
{
    (sym.0 as usize).min(names.len() as usize)
}

/// Reads each name of a table, which is a word by its type.
pub(crate) fn read_words(names: &NameTable)
    ensures { list_all is_word names.now ≡ true }
{
    for name in names.as_slice() {
        let _word = name.bytes();
    }
}

// A place for each slot of a table of so many names, none of which came.
fn no_places(alloc: Global, count: u32) -> Result<Vec<Option<usize>>, Memory>
    ensures length { IfOk result (λ first. length first.items ≡ count + 1) }
    ensures none { IfOk result (λ first. (k : ℕ) → k ≤ count → slice_index_or first.items k None ≡ None) }
{
    let mut first = Vec::with_capacity(alloc, count as usize + 1)?;
    for _ in 0..=count {
        first.push(None)?;
    }
    Ok(first)
}
