ghost use Rattle.std.specs.Prelude.{◌≡◌};
ghost use Rattle.std.specs.List.{flat_map};
ghost use Rattle.std.specs.Option.{option_copied};
ghost use Rattle.gc_alg.specs.Trees.{atoms_of};
ghost use Rattle.gc_alg.specs.Views.{block_tree, part_tree};
ghost use Rattle.gc_build.specs.AllPaths.{all_atom, first_all, is_all_of};

use gc_alg::{Atom, AtomWhat, Block, Part};
use gc_base::Sym;
use gc_prod::SegmentTable;

/// What is read of a MATCH: its block, and the segments of views on its graphs.
#[derive(Drop)]
pub(crate) struct Patterns<'a> {
    pub block: &'a Block,
    pub segments: &'a SegmentTable,
}

/// The atom of the first ALL pattern that binds a variable, if one does.
pub(crate) fn all_atom(block: &Block, path: Sym) -> Option<&Atom>
    ensures { option_copied result ≡ all_atom (block_tree block.now) path }
{
    all_in_parts(&block.parts, path)
}

fn all_in_parts(parts: &[Part], path: Sym) -> Option<&Atom>
    ensures { option_copied result ≡ first_all path (flat_map (λ p. atoms_of (part_tree p)) parts.now) }
{
    for part in parts {
        if let Some(atom) = all_in(part, path) {
            return Some(atom);
        }
    }
    None
}

fn all_in(part: &Part, path: Sym) -> Option<&Atom>
    ensures { option_copied result ≡ first_all path (atoms_of (part_tree part.now)) }
{
    first_all(&part.atoms, path)
}

fn first_all(atoms: &[Atom], path: Sym) -> Option<&Atom>
    ensures { option_copied result ≡ first_all path atoms.now }
{
    atoms.iter().find(|atom| is_all_of(path, &atom.what))
}

fn is_all_of(path: Sym, what: &AtomWhat) -> bool
    ensures { result ≡ is_all_of path what.now }
{
    match what {
        AtomWhat::All { p, .. } => p.0 == path.0,
        _ => false,
    }
}
