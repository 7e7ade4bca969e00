ghost use Rattle.std.specs.Prelude.{◌≡◌, ◌++◌, map, IfOk, OnOk};
ghost use Rattle.std.specs.List.{flat_map, list_any};
ghost use Rattle.gc_alg.specs.Trees.{row};
ghost use Rattle.gc_alg.specs.Views.{block_tree, conjunct_tree, exists_tree, part_tree};
ghost use Rattle.gc_query.specs.UsedViews.{each_use_once, same_use, used_by, uses_in};

use gc_alg::{Atom, AtomWhat, Block, Conjunct, ExistsBlock, Part, ViewUse};
use gc_base::Memory;
use std::alloc::Global;

/// A view, by its number, on the graph of a number.
#[derive(Drop)]
pub(crate) struct ViewOn {
    pub view: u32,
    pub graph: u32,
}

/// The views that a block uses, each once on each graph, in the order of first use.
pub(crate) fn uses_of(alloc: Global, block: &Block) -> Result<Vec<ViewOn>, Memory>
    ensures { IfOk result (λ uses. uses.items ≡ each_use_once (uses_in (block_tree block.now))) }
{
    let mut all = Vec::new(alloc);
    push_block(&mut all, block)?;
    each_once(alloc, &all)
}

// Each use once, in the order of the first.
fn each_once(alloc: Global, all: &[ViewOn]) -> Result<Vec<ViewOn>, Memory>
    ensures { IfOk result (λ uses. uses.items ≡ each_use_once all.now) }
{
    let mut uses = Vec::new(alloc);
    for one in all {
        if !is_among(&uses, one) {
            uses.push(ViewOn {
                view: one.view,
                graph: one.graph,
            })?;
        }
    }
    Ok(uses)
}

fn is_among(uses: &[ViewOn], one: &ViewOn) -> bool
    ensures { result ≡ list_any (same_use one.now) uses.now }
{
    uses.iter()
        .any(|used| one.view == used.view && one.graph == used.graph)
}

#[tactic(auto, using(gc_alg::proofs::Layers::block_is), unfolding(crate::specs::UsedViews::uses_in))]
#[cycle(uses)]
fn push_block(uses: &mut Vec<ViewOn>, block: &Block) -> Result<(), Memory>
    ensures { OnOk result (uses.new.items ≡ uses.old.items ++ uses_in (block_tree block.now)) }
{
    push_parts(uses, &block.parts)
}

#[tactic(auto, unfolding(crate::specs::UsedViews::uses_in))]
#[cycle(uses)]
fn push_parts(uses: &mut Vec<ViewOn>, parts: &[Part]) -> Result<(), Memory>
    ensures { OnOk result (uses.new.items ≡ uses.old.items ++ uses_in (row (map part_tree parts.now))) }
{
    for part in parts {
        push_part(uses, part)?;
    }
    Ok(())
}

#[tactic(auto, using(gc_alg::proofs::Layers::part_is), unfolding(crate::specs::UsedViews::uses_in))]
#[cycle(uses)]
fn push_part(uses: &mut Vec<ViewOn>, part: &Part) -> Result<(), Memory>
    ensures { OnOk result (uses.new.items ≡ uses.old.items ++ uses_in (part_tree part.now)) }
{
    push_atoms(uses, &part.atoms)?;
    push_conjuncts(uses, &part.conjuncts)
}

#[tactic(auto, unfolding(crate::specs::UsedViews::uses_in))]
#[cycle(uses)]
fn push_conjuncts(uses: &mut Vec<ViewOn>, conjuncts: &[Conjunct]) -> Result<(), Memory>
    ensures { OnOk result (uses.new.items ≡ uses.old.items ++ uses_in (row (map conjunct_tree conjuncts.now))) }
{
    for conjunct in conjuncts {
        push_conjunct(uses, conjunct)?;
    }
    Ok(())
}

#[tactic(auto, using(gc_alg::proofs::Layers::conjunct_is), unfolding(crate::specs::UsedViews::uses_in))]
#[cycle(uses)]
fn push_conjunct(uses: &mut Vec<ViewOn>, conjunct: &Conjunct) -> Result<(), Memory>
    ensures { OnOk result (uses.new.items ≡ uses.old.items ++ uses_in (conjunct_tree conjunct.now)) }
{
    push_queries(uses, &conjunct.subqueries)
}

#[tactic(auto, unfolding(crate::specs::UsedViews::uses_in))]
#[cycle(uses)]
fn push_queries(uses: &mut Vec<ViewOn>, queries: &[ExistsBlock]) -> Result<(), Memory>
    ensures { OnOk result (uses.new.items ≡ uses.old.items ++ uses_in (row (map exists_tree queries.now))) }
{
    for query in queries {
        push_query(uses, query)?;
    }
    Ok(())
}

#[tactic(auto, using(gc_alg::proofs::Layers::exists_is), unfolding(crate::specs::UsedViews::uses_in))]
#[cycle(uses)]
fn push_query(uses: &mut Vec<ViewOn>, query: &ExistsBlock) -> Result<(), Memory>
    ensures { OnOk result (uses.new.items ≡ uses.old.items ++ uses_in (exists_tree query.now)) }
{
    push_block(uses, &query.block)
}

// The views that atoms use.
fn push_atoms(uses: &mut Vec<ViewOn>, atoms: &[Atom]) -> Result<(), Memory>
    ensures { OnOk result (uses.new.items ≡ uses.old.items ++ flat_map used_by atoms.now) }
{
    for atom in atoms {
        push_atom(uses, atom)?;
    }
    Ok(())
}

fn push_atom(uses: &mut Vec<ViewOn>, atom: &Atom) -> Result<(), Memory>
    ensures { OnOk result (uses.new.items ≡ uses.old.items ++ used_by atom.now) }
{
    match &atom.what {
        AtomWhat::Reach { views, .. }
        | AtomWhat::Found { views, .. }
        | AtomWhat::All { views, .. } => push_views(uses, atom.graph, views.as_slice()),
        AtomWhat::Node { .. }
        | AtomWhat::Edge { .. }
        | AtomWhat::Property { .. }
        | AtomWhat::Stored { .. } => Ok(()),
    }
}

// Views on the graph of a number.
fn push_views(uses: &mut Vec<ViewOn>, graph: u32, views: &[ViewUse]) -> Result<(), Memory>
    ensures { OnOk result (uses.new.items ≡ uses.old.items ++ map (λ used. record { view = used.view.0; graph = graph }) views.now) }
{
    for used in views {
        uses.push(ViewOn {
            view: used.view.0,
            graph,
        })?;
    }
    Ok(())
}
