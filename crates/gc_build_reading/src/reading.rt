ghost use Rattle.std.specs.Prelude.{◌≡◌, map, IfOk};
ghost use Rattle.gc_ast.specs.QueryViews.{basic_tree, item_tree};
ghost use Rattle.gc_ast.specs.Trees.{row};
ghost use Rattle.gc_lower.specs.Namings.{scope_of};
ghost use Rattle.gc_build_reading.specs.Indexes.{makings_in};
ghost use Rattle.gc_build_reading.specs.Namings.{names_of, scope};
ghost use Rattle.gc_build_reading.specs.Recipes.{makings_of, recipe_by, recipe_of};
ghost use Rattle.gc_build_reading.specs.Places.{places_of};
ghost use Rattle.gc_build_reading.specs.Variables.{first_places, variables_at};

use crate::index::Index;
use crate::instances::{chains_of, graphs_of};
use crate::naming::Naming;
use crate::placing::{first_places, places_of};
use crate::told::Told;
use crate::varying::variables;
use gc_ast::{Basic, ItemList};
use gc_base::{BlockNo, Memory, Sym};
use gc_build_recipe::{Recipe, VariableList};
use gc_sorts::Checked;
use std::alloc::Global;

/// What a CONSTRUCT of a checked file asks for, where its MATCH binds the `bound` variables. Nothing but
/// want of memory is refused.
pub fn recipe(
    alloc: Global,
    checked: &Checked,
    basic: &Basic,
    bound: &[Sym],
) -> Result<Recipe, Memory>
    ensures { IfOk result (λ r. r ≡ recipe_of (scope_of checked.now 0) bound.now (basic_tree checked.now.file.names basic.now)) }
{
    let naming = Naming { checked };
    let block = naming.match_at(basic.token);
    recipe_by(alloc, &naming, bound, block, &basic.items)
}

// The recipe of items, where the MATCH is the block of a number.
fn recipe_by(
    alloc: Global,
    naming: &Naming<'_>,
    bound: &[Sym],
    block: BlockNo,
    items: &ItemList,
) -> Result<Recipe, Memory>
    ensures { IfOk result (λ r. r ≡ recipe_by (scope naming.now) bound.now block.0 (row (map (item_tree (names_of naming.now)) items.now.items))) }
{
    let told = Told::of(alloc, naming, items)?;
    let index = Index::of(
        alloc,
        naming,
        block,
        bound,
        told.terms,
        told.copies.as_slice(),
    )?;
    let variables = variables_of(alloc, naming, &index, items)?;
    let chains = chains_of(alloc, naming, items)?;
    let graphs = graphs_of(alloc, naming, items)?;
    Ok(Recipe {
        variables,
        labels: told.labels,
        assignments: told.assignments,
        lost_labels: told.lost_labels,
        lost_properties: told.lost_properties,
        chains,
        graphs,
    })
}

// The variables of items.
fn variables_of(
    alloc: Global,
    naming: &Naming<'_>,
    index: &Index<'_>,
    items: &ItemList,
) -> Result<VariableList, Memory>
    ensures { IfOk result (λ variables. variables
        ≡ variables_at (makings_in index.now) (first_places (places_of (scope naming.now) (row (map (item_tree (names_of naming.now)) items.now.items))))) }
{
    let places = places_of(alloc, naming, items)?;
    let firsts = first_places(alloc, &places)?;
    variables(alloc, index, &firsts)
}
