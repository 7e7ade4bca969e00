ghost use Rattle.std.specs.Prelude.{◌≡◌, [], Some, IfOk};
ghost use Rattle.gc_expr.specs.Views.{numbered_expr};
ghost use Rattle.gc_group.specs.Folds.{literals_of};
ghost use Rattle.gc_build_numbers.specs.Keys.{term_part};
ghost use Rattle.gc_build_numbers.specs.Readers.{Reads, terms_of};
ghost use Rattle.gc_build_numbers.specs.Settings.{on_row};
ghost use Rattle.gc_values.specs.ExprValues.{value_of};
ghost use Rattle.std.specs.Option.{option_map};

use crate::setting::Setting;
use gc_base::{Duplicate, Memory, Name, Steps, Sym, ValueSet};
use gc_build_recipe::{Grouping, Term};
use gc_expr::{Expr, ExprNode};
use gc_rows::{Counted, Datum, RowView};
use gc_values::{MadeList, Val, ValList, value};
use std::alloc::Global;
use std::marker::Model;
use std::sync::ledger::Ledger;

/// A term with the expression that reads its property, if it is one. Contracts see the term.
#[derive(Drop)]
pub(crate) struct Reader<'a> {
    term: &'a Term,
    property: Option<Expr>,
}

impl<'a> Model for Reader<'a> {
    ghost use Rattle.gc_build_numbers.specs.Readers.{Reads};
    ghost use Rattle.gc_build_recipe.specs.declared.variable.Term.{Term};

    ghost Value = { Term };

    ghost view = { λ r. r.term.now };

    ghost invariant = { λ r. Reads r.term.now r.property };
}

impl<'a> Reader<'a> {
    /// The reader of a term.
    fn of(alloc: Global, term: &'a Term) -> Result<Reader<'a>, Memory>
        ensures { IfOk result (λ reader. reader ≡ term.now) }
    {
        let property = match &term.property {
            None => None,
            Some(name) => Some(property_of(alloc, term.var, name.copy()?)?),
        };
        Ok(Reader { term, property })
    }

    /// The part of the key of a row for this term.
    pub(crate) fn part<L: Ledger>(
        &self,
        setting: &Setting<'_>,
        row: &RowView<'_>,
        steps: &mut Steps<L>,
    ) -> Result<Option<Datum>, Memory>
        ensures { IfOk result (λ part. part ≡ term_part (on_row setting.now row.now) self.now) }
    {
        match (row.get(self.term.var), &self.property) {
            (None, _) => Ok(None),
            (Some(datum), None) => Ok(Some(datum.copy()?)),
            (Some(_), Some(property)) => {
                let values = literals(setting, property, row, steps)?;
                let counted = Counted::of(setting.alloc, values)?;
                Ok(Some(Datum::Value(counted)))
            }
        }
    }
}

/// The readers of the terms of a grouping.
pub(crate) fn readers(alloc: Global, grouping: &Grouping) -> Result<Vec<Reader<'_>>, Memory>
    ensures { IfOk result (λ readers. readers.items ≡ terms_of grouping.now) }
{
    match grouping {
        Grouping::Bound | Grouping::EachRow | Grouping::Walk => Ok(Vec::new(alloc)),
        Grouping::Terms(terms) => readers_of(alloc, terms.as_slice()),
        Grouping::Link {
            source: _,
            target: _,
            terms,
        } => readers_of(alloc, terms.as_slice()),
    }
}

fn readers_of(alloc: Global, terms: &[Term]) -> Result<Vec<Reader<'_>>, Memory>
    ensures { IfOk result (λ readers. readers.items ≡ terms.now) }
{
    let mut readers = Vec::with_capacity(alloc, terms.len())?;
    for term in terms {
        readers.push(Reader::of(alloc, term)?)?;
    }
    Ok(readers)
}

#[tactic(auto, unfolding(gc_expr::specs::Views::numbered_expr, gc_expr::specs::Views::numbered_node))]
// The expression `x.k`.
fn property_of(alloc: Global, var: Sym, name: Name) -> Result<Expr, Memory>
    ensures { IfOk result (λ e. (t : Term) → t.var ≡ var → t.property ≡ Some name → Reads t (Some e)) }
{
    let of = Expr {
        token: 0,
        node: ExprNode::Var(var),
    };
    Ok(Expr {
        token: 0,
        node: ExprNode::Property(Box::new(alloc, of)?, name),
    })
}

// The literals of the value of an expression on a row: those of a set.
fn literals<L: Ledger>(
    setting: &Setting<'_>,
    expr: &Expr,
    row: &RowView<'_>,
    steps: &mut Steps<L>,
) -> Result<ValueSet, Memory>
    ensures { IfOk result (λ set. set ≡ literals_of (value_of (on_row setting.now row.now) [] (numbered_expr expr.now))) }
{
    let alloc = setting.alloc;
    let made = MadeList::new(alloc);
    let folded = ValList::new(alloc);
    let value = value(
        alloc,
        expr,
        row,
        setting.reads,
        setting.graphs,
        &made,
        &folded,
        steps,
    )?;
    match value {
        Val::Set(literals) => Ok(literals),
        Val::Element(_) | Val::Walked | Val::Undefined(_) => Ok(ValueSet::empty(alloc)),
    }
}
