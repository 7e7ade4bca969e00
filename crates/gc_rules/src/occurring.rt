ghost use Rattle.std.specs.Prelude.{◌≡◌, ◌++◌, IfOk, OnOk};
ghost use Rattle.std.specs.List.{flat_map};
ghost use Rattle.gc_alg.specs.Instances.{variables_of};
ghost use Rattle.gc_alg.specs.Views.{block_tree, conjunct_tree, exists_tree, part_tree};
ghost use Rattle.gc_rules.specs.Occurrences.{occurring};

use crate::expressions::push_expression;
use gc_alg::{Atom, Block, Conjunct, ExistsBlock, Part};
use gc_base::{Memory, Sym};
use std::alloc::Global;

/// The variables that occur in a conjunct, its EXISTS queries at any depth included.
pub(crate) fn occurring(alloc: Global, conjunct: &Conjunct) -> Result<Vec<Sym>, Memory>
    ensures { IfOk result (λ vars. vars.items ≡ occurring (conjunct_tree conjunct.now)) }
{
    let mut vars = Vec::new(alloc);
    push_conjunct(&mut vars, conjunct)?;
    Ok(vars)
}

#[tactic(auto, using(crate::proofs::OccurringViews::conjunct_occurs))]
#[cycle(occurring)]
fn push_conjunct(vars: &mut Vec<Sym>, conjunct: &Conjunct) -> Result<(), Memory>
    ensures { OnOk result (vars.new.items ≡ vars.old.items ++ occurring (conjunct_tree conjunct.now)) }
{
    push_expression(vars, &conjunct.condition)?;
    push_queries(vars, &conjunct.subqueries)
}

#[cycle(occurring)]
fn push_queries(vars: &mut Vec<Sym>, queries: &[ExistsBlock]) -> Result<(), Memory>
    ensures { OnOk result (vars.new.items ≡ vars.old.items ++ flat_map (λ q. occurring (exists_tree q)) queries.now) }
{
    for query in queries {
        push_query(vars, query)?;
    }
    Ok(())
}

#[tactic(auto, using(crate::proofs::OccurringViews::query_occurs))]
#[cycle(occurring)]
fn push_query(vars: &mut Vec<Sym>, query: &ExistsBlock) -> Result<(), Memory>
    ensures { OnOk result (vars.new.items ≡ vars.old.items ++ occurring (exists_tree query.now)) }
{
    push_all(vars, query.outer.as_slice())?;
    push_block(vars, &query.block)
}

#[tactic(auto, using(crate::proofs::OccurringViews::block_occurs))]
#[cycle(occurring)]
fn push_block(vars: &mut Vec<Sym>, block: &Block) -> Result<(), Memory>
    ensures { OnOk result (vars.new.items ≡ vars.old.items ++ occurring (block_tree block.now)) }
{
    push_parts(vars, &block.parts)
}

#[cycle(occurring)]
fn push_parts(vars: &mut Vec<Sym>, parts: &[Part]) -> Result<(), Memory>
    ensures { OnOk result (vars.new.items ≡ vars.old.items ++ flat_map (λ p. occurring (part_tree p)) parts.now) }
{
    for part in parts {
        push_part(vars, part)?;
    }
    Ok(())
}

#[tactic(auto, using(crate::proofs::OccurringViews::part_occurs))]
#[cycle(occurring)]
fn push_part(vars: &mut Vec<Sym>, part: &Part) -> Result<(), Memory>
    ensures { OnOk result (vars.new.items ≡ vars.old.items ++ occurring (part_tree part.now)) }
{
    push_atoms(vars, &part.atoms)?;
    push_conjuncts(vars, &part.conjuncts)
}

#[cycle(occurring)]
fn push_conjuncts(vars: &mut Vec<Sym>, conjuncts: &[Conjunct]) -> Result<(), Memory>
    ensures { OnOk result (vars.new.items ≡ vars.old.items ++ flat_map (λ c. occurring (conjunct_tree c)) conjuncts.now) }
{
    for conjunct in conjuncts {
        push_conjunct(vars, conjunct)?;
    }
    Ok(())
}

/// Adds the variables of atoms.
pub(crate) fn push_atoms(vars: &mut Vec<Sym>, atoms: &[Atom]) -> Result<(), Memory>
    ensures { OnOk result (vars.new.items ≡ vars.old.items ++ flat_map (λ a. variables_of a.what) atoms.now) }
{
    for atom in atoms {
        atom.what.push_variables(vars)?;
    }
    Ok(())
}

// Adds variables.
fn push_all(vars: &mut Vec<Sym>, more: &[Sym]) -> Result<(), Memory>
    ensures { OnOk result (vars.new.items ≡ vars.old.items ++ more.now) }
{
    for var in more {
        vars.push(*var)?;
    }
    Ok(())
}
