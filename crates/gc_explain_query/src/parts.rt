ghost use Rattle.std.specs.Prelude.{◌≡◌, ◌++◌, map, IfOk, OnOk};
ghost use Rattle.std.specs.List.{flat_map};
ghost use Rattle.gc_alg.specs.Instances.{variables_of};
ghost use Rattle.gc_alg.specs.Views.{block_tree, part_tree};
ghost use Rattle.gc_explain.specs.WholePlans.{seen};
ghost use Rattle.gc_explain_query.specs.QueryLines.{block_lines, part_lines};

use gc_alg::{Atom, Block, Part};
use gc_base::{Memory, Sym};
use gc_explain::{needs_of, plan_steps, push_lines};
use gc_ppg::GraphList;
use gc_stats::estimates;
use std::alloc::Global;

/// Adds the lines of the parts of a block, where variables around it are bound.
#[tactic(auto, using(gc_alg::proofs::Items::parts_are))]
pub fn push_block(
    text: &mut Vec<u8>,
    block: &Block,
    around: &[Sym],
    graphs: &GraphList,
) -> Result<(), Memory>
    ensures { OnOk result (text.new.items ≡ text.old.items ++ block_lines graphs.now around.now (block_tree block.now)) }
{
    push_parts(text, &block.parts, around, graphs)
}

fn push_parts(
    text: &mut Vec<u8>,
    parts: &[Part],
    around: &[Sym],
    graphs: &GraphList,
) -> Result<(), Memory>
    ensures { OnOk result (text.new.items ≡ text.old.items ++ flat_map (part_lines graphs.now around.now) (map part_tree parts.now)) }
{
    for part in parts {
        push_part(text, part, around, graphs)?;
    }
    Ok(())
}

/// Adds the lines of a part, where variables around it are bound.
#[tactic(auto, using(gc_alg::proofs::Items::atoms_are))]
pub fn push_part(
    text: &mut Vec<u8>,
    part: &Part,
    around: &[Sym],
    graphs: &GraphList,
) -> Result<(), Memory>
    ensures { OnOk result (text.new.items ≡ text.old.items ++ part_lines graphs.now around.now (part_tree part.now)) }
{
    let alloc = *text.allocator();
    let estimates = estimates(alloc, &part.atoms, graphs)?;
    let needs = needs_of(alloc, part, around)?;
    let steps = plan_steps(alloc, &part.atoms, &estimates, &needs, around)?;
    push_lines(text, &steps)
}

/// The variables that the EXISTS queries of a part see.
#[tactic(auto, using(gc_alg::proofs::Items::atoms_are))]
pub fn seen(alloc: Global, part: &Part, around: &[Sym]) -> Result<Vec<Sym>, Memory>
    ensures { IfOk result (λ vars. vars.items ≡ seen around.now (part_tree part.now)) }
{
    let mut vars = variables(alloc, &part.atoms)?;
    vars.extend_from_slice(around)?;
    Ok(vars)
}

// The variables of atoms.
fn variables(alloc: Global, atoms: &[Atom]) -> Result<Vec<Sym>, Memory>
    ensures { IfOk result (λ vars. vars.items ≡ flat_map (λ a. variables_of a.what) atoms.now) }
{
    let mut vars = Vec::new(alloc);
    for atom in atoms {
        atom.what.push_variables(&mut vars)?;
    }
    Ok(vars)
}
