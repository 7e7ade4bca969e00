//! The searches of a certificate, one after another.
ghost use Rattle.std.specs.Prelude.{◌≤◌, IfOk, map};
ghost use Rattle.std.specs.List.{AllByRecursion};
ghost use Rattle.gc_automata.specs.Automata.{automaton_of};
ghost use Rattle.gc_automata.specs.Machines.{IsAutomatonOf};
ghost use Rattle.gc_cert_text.specs.Certificates.{told};
ghost use Rattle.gc_cert_text.specs.FormedSearches.{IsFormedSearch};
ghost use Rattle.gc_regx.specs.Trees.{ARegex};
ghost use Rattle.gc_regx.specs.Views.{regex_tree};
ghost use Rattle.gc_check_text.specs.Checked.{AreChecked, IsCheck, IsSoundVerdict};

use crate::refusal::CheckRefusal;
use gc_automata::{Automaton, RegexRefusal};
use gc_base::{Memory, Steps};
use gc_cert::SearchDoc;
use gc_cert_text::SearchDocList;
use gc_check::{Verdict, check_search};
use gc_prod::Product;
use gc_regx::Regex;
use std::alloc::Global;
use std::sync::ledger::Ledger;

// Whether each search is accepted, or else the first that is rejected.
pub(crate) fn check_searches<L: Ledger>(
    alloc: Global,
    searches: &SearchDocList,
    steps: &mut Steps<L>,
) -> Result<(), CheckRefusal>
    requires { AllByRecursion IsFormedSearch (map told searches.now) }
    ensures { AreChecked searches.now result }
{
    for i in 0..searches.len() {
        check_one(alloc, i, searches.at(i), steps)?;
    }
    Ok(())
}

// Whether the search of a number is accepted.
fn check_one<L: Ledger>(
    alloc: Global,
    number: u32,
    search: &SearchDoc,
    steps: &mut Steps<L>,
) -> Result<(), CheckRefusal>
    requires { IsFormedSearch (told search.now) }
    ensures { IsCheck number search.now result }
{
    match verdict_on(alloc, search, steps)? {
        Verdict::Accepted => Ok(()),
        Verdict::Rejected(rule) => Err(CheckRefusal::Rejected {
            search: number,
            rule,
        }),
    }
}

// The verdict on a search.
fn verdict_on<L: Ledger>(
    alloc: Global,
    search: &SearchDoc,
    steps: &mut Steps<L>,
) -> Result<Verdict, Memory>
    requires { IsFormedSearch (told search.now) }
    ensures { IfOk result (IsSoundVerdict search.now) }
{
    let automaton = automaton_of(alloc, &search.expression)?;
    let product = Product::of(alloc, &search.graph, &automaton, &search.segments, steps)?;
    Ok(check_search(search, &product, steps))
}

// The automaton of an expression that has one.
fn automaton_of(alloc: Global, expression: &Regex) -> Result<Automaton, Memory>
    requires { (automaton_of {k = ARegex} (regex_tree expression.now)).states ≤ 1024 }
    ensures { IfOk result (IsAutomatonOf (regex_tree expression.now)) }
{
    match Automaton::of(alloc, expression) {
        Ok(automaton) => Ok(automaton),
        Err(RegexRefusal::Memory) => Err(Memory),
        Err(RegexRefusal::TooManyStates) => unreachable!(),
    }
}
