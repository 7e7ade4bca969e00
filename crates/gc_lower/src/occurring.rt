ghost use Rattle.std.specs.Prelude.{◌≡◌, ◌∷◌, [], ◌||◌, map, IfOk};
ghost use Rattle.std.specs.List.{list_any};
ghost use Rattle.gc_alg.specs.Instances.{listed};
ghost use Rattle.gc_alg.specs.Trees.{row};
ghost use Rattle.gc_alg.specs.Views.{block_tree, conjunct_tree, part_tree};
ghost use Rattle.gc_rows.specs.Rows.{lists};
ghost use Rattle.gc_lower.specs.Blocks.{in_atom, in_conjuncts, in_part, in_parts, occurs_in, outer_of};

use gc_alg::{Atom, AtomWhat, Block, Conjunct, Part};
use gc_base::{Memory, Sequence, Sym};
use gc_rows::{SymList, each_once, is_listed};
use gc_values::ReadUse;
use std::alloc::Global;

/// Of the variables around a block those that occur in it, each once.
pub(crate) fn outer_of(alloc: Global, around: &[ReadUse], block: &Block) -> Result<SymList, Memory>
    ensures { IfOk result (λ outer. outer ≡ outer_of around.now (block_tree block.now)) }
{
    let vars = read_variables(alloc, around)?;
    let once = each_once(alloc, &vars)?;
    let mut outer = Vec::new(alloc);
    for var in once.as_slice() {
        if occurs_in(block, *var) {
            outer.push(*var)?;
        }
    }
    Ok(Sequence::from_vec(outer))
}

fn read_variables(alloc: Global, reads: &[ReadUse]) -> Result<Vec<Sym>, Memory>
    ensures { IfOk result (λ vars. vars.items ≡ map (λ r. r.var) reads.now) }
{
    let mut vars = Vec::with_capacity(alloc, reads.len())?;
    for read in reads {
        vars.push(read.var)?;
    }
    Ok(vars)
}

// Whether a variable occurs in a block.
#[tactic(auto, using(gc_alg::proofs::Layers::block_is))]
fn occurs_in(block: &Block, var: Sym) -> bool
    ensures { result ≡ occurs_in (block_tree block.now) var }
{
    in_parts(&block.parts, var)
}

fn in_parts(parts: &[Part], var: Sym) -> bool
    ensures { result ≡ in_parts var (row (map part_tree parts.now)) }
{
    for part in parts {
        if in_part(part, var) {
            return true;
        }
    }
    false
}

#[tactic(auto, using(gc_alg::proofs::Layers::part_is))]
fn in_part(part: &Part, var: Sym) -> bool
    ensures { result ≡ in_part var (part_tree part.now) }
{
    in_atoms(&part.atoms, var) || in_conjuncts(&part.conjuncts, var)
}

fn in_conjuncts(conjuncts: &[Conjunct], var: Sym) -> bool
    ensures { result ≡ in_conjuncts var (row (map conjunct_tree conjuncts.now)) }
{
    for conjunct in conjuncts {
        if conjunct.mentions(var) {
            return true;
        }
    }
    false
}

fn in_atoms(atoms: &[Atom], var: Sym) -> bool
    ensures { result ≡ list_any (in_atom var) atoms.now }
{
    atoms.iter().any(|atom| in_atom(atom, var))
}

fn in_atom(atom: &Atom, var: Sym) -> bool
    ensures { result ≡ in_atom var atom.now }
{
    match &atom.what {
        AtomWhat::Node { x, .. } => is_listed(&[*x], var),
        AtomWhat::Property { x, value, .. } => in_two(*x, *value, var),
        AtomWhat::Reach { x, y, .. } => in_two(*x, *y, var),
        AtomWhat::Edge { x, e, y, .. } => in_three(*x, *e, *y, var),
        AtomWhat::Stored { x, p, y, .. } => in_three(*x, *p, *y, var),
        AtomWhat::All { x, p, y, .. } => in_three(*x, *p, *y, var),
        AtomWhat::Found { x, p, y, cost, .. } => in_found(*x, *p, *y, *cost, var),
    }
}

fn in_two(x: Sym, y: Sym, var: Sym) -> bool
    ensures { result ≡ lists (x ∷ y ∷ []) var }
{
    is_listed(&[x, y], var)
}

fn in_three(x: Sym, between: Sym, y: Sym, var: Sym) -> bool
    ensures { result ≡ lists (x ∷ between ∷ y ∷ []) var }
{
    is_listed(&[x, between, y], var)
}

fn in_found(x: Sym, p: Sym, y: Sym, cost: Option<Sym>, var: Sym) -> bool
    ensures { result ≡ lists (x ∷ p ∷ y ∷ listed cost) var }
{
    match cost {
        None => in_three(x, p, y, var),
        Some(cost) => is_listed(&[x, p, y, cost], var),
    }
}
