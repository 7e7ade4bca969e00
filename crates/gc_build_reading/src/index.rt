ghost use Rattle.std.specs.Prelude.{◌≡◌, ◌++◌, ◌||◌, ◌==◌, ◌∷◌, [], IfOk, OnOk, false, not};
ghost use Rattle.gc_base.specs.declared.place.Sym.{Sym as Variable};
ghost use Rattle.gc_rows.specs.Rows.{lists};
ghost use Rattle.gc_build_reading.specs.Indexes.{copied_in, has, makings_in, terms_in};
ghost use Rattle.gc_build_reading.specs.Namings.{scope};
ghost use Rattle.gc_build_reading.specs.Variables.{copied_by, own_terms};
ghost use Rattle.gc_lower.specs.Scopes.{is_found_in};

use crate::naming::Naming;
use crate::terms::{CopyOf, TermOf, TermOfList};
use gc_base::{BlockNo, Memory, Sym};
use gc_build_recipe::{Term, TermList};
use indexmap::{IndexMap, IndexSet};
use std::alloc::Global;

/// A set of variables.
#[derive(Drop)]
pub(crate) struct Vars {
    numbers: IndexSet<u32>,
}

impl Vars {
    /// No variables yet.
    pub(crate) fn new(alloc: Global) -> Vars
        ensures { (x : Variable) → has result x ≡ false }
    {
        Vars {
            numbers: IndexSet::new(alloc),
        }
    }

    /// These variables.
    fn of(alloc: Global, vars: &[Sym]) -> Result<Vars, Memory>
        ensures { IfOk result (λ set. (x : Variable) → has set x ≡ lists vars.now x) }
    {
        let mut set = Vars::new(alloc);
        for var in vars {
            set.add(*var)?;
        }
        Ok(set)
    }

    /// Adds a variable, and says whether it is new.
    pub(crate) fn add(&mut self, var: Sym) -> Result<bool, Memory>
        ensures new { IfOk result (λ is_new. is_new ≡ not (has self.old var)) }
        ensures has { OnOk result ((x : Variable) → has self.new x ≡ (has self.old x || (var.0 == x.0))) }
    {
        Ok(self.numbers.insert(var.0)?)
    }

    /// Whether a variable is among them.
    pub(crate) fn has(&self, var: Sym) -> bool
        ensures { result ≡ has self.now var }
    {
        self.numbers.contains(&var.0)
    }
}

/// The terms of variables.
#[derive(Drop)]
pub(crate) struct Terms {
    lists: IndexMap<u32, TermList>,
}

impl Terms {
    // The terms of each variable, in their order.
    fn of(alloc: Global, list: TermOfList) -> Result<Terms, Memory>
        ensures { IfOk result (λ terms. (x : Variable) → terms_in terms x ≡ own_terms list x) }
    {
        let mut terms = Terms {
            lists: IndexMap::new(alloc),
        };
        for one in list.into_vec() {
            terms.add(alloc, one)?;
        }
        Ok(terms)
    }

    fn add(&mut self, alloc: Global, one: TermOf) -> Result<(), Memory>
        ensures { OnOk result ((x : Variable) → terms_in self.new x ≡ terms_in self.old x ++ own_terms (one ∷ []) x) }
    {
        let TermOf { var, term } = one;
        match self.lists.get_mut(&var.0) {
            Some(list) => list.push(term)?,
            None => {
                let mut list = TermList::new(alloc);
                list.push(term)?;
                self.lists.insert(var.0, list)?;
            }
        }
        Ok(())
    }

    /// The terms of a variable.
    pub(crate) fn of_variable(&self, var: Sym) -> &[Term]
        ensures { result.now ≡ terms_in self.now var }
    {
        match self.lists.get(&var.0) {
            Some(list) => list.as_slice(),
            None => &[],
        }
    }
}

/// What variables copy.
#[derive(Drop)]
pub(crate) struct Copies {
    copied: IndexMap<u32, Sym>,
}

impl Copies {
    // What each variable copies. It goes backward, so that the first of several stays.
    fn of(alloc: Global, list: &[CopyOf]) -> Result<Copies, Memory>
        ensures { IfOk result (λ copies. (x : Variable) → copied_in copies x ≡ copied_by list.now x) }
    {
        let mut copied = IndexMap::new(alloc);
        let mut at = list.len();
        while at > 0 {
            at -= 1;
            copied.insert(list[at].var.0, list[at].copied)?;
        }
        Ok(Copies { copied })
    }

    /// What a variable copies, if it does.
    pub(crate) fn of_variable(&self, var: Sym) -> Option<Sym>
        ensures { result ≡ copied_in self.now var }
    {
        self.copied.get(&var.0).copied()
    }
}

/// What is said of the making of each variable.
#[derive(Drop)]
pub(crate) struct Index<'a> {
    pub naming: &'a Naming<'a>,
    pub block: BlockNo,
    pub bound: Vars,
    pub terms: Terms,
    pub copies: Copies,
}

impl<'a> Index<'a> {
    /// Of the MATCH, which is the block of a number, and the variables that it binds; the GROUP terms and
    /// the copies.
    pub(crate) fn of(
        alloc: Global,
        naming: &'a Naming<'a>,
        block: BlockNo,
        bound: &[Sym],
        terms: TermOfList,
        copies: &[CopyOf],
    ) -> Result<Index<'a>, Memory>
        ensures { IfOk result (λ index. makings_in index
            ≡ record {
              is_bound = lists bound.now;
              is_found = is_found_in (scope naming.now) block.0;
              terms = own_terms terms;
              copied = copied_by copies.now;
            }) }
    {
        let bound = Vars::of(alloc, bound)?;
        let terms = Terms::of(alloc, terms)?;
        let copies = Copies::of(alloc, copies)?;
        Ok(Index {
            naming,
            block,
            bound,
            terms,
            copies,
        })
    }
}
