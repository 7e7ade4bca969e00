ghost use Rattle.std.specs.Prelude.{◌≡◌, IfOk, OnErr, OnOk};
ghost use Rattle.std.specs.List.{AllByRecursion};
ghost use Rattle.gc_ast.specs.PatternViews.{named};
ghost use Rattle.gc_catalog.specs.NamedGraphs.{AreBelow};
ghost use Rattle.gc_query.specs.Steps.{free_word, with_named};
ghost use Rattle.gc_spec.specs.Coherence.{AreCoherent};

use gc_base::{Duplicate, Memory, Name, NameAt};
use gc_catalog::{AddRefusal, Catalog};
use gc_ppg::Graph;
use gc_sorts::Checked;

/// Puts a graph behind those of a catalog, under its name where that is a word which no graph has. Patterns will be
/// matched in it, so it gets its index.
pub(crate) fn stand_named(
    checked: &Checked,
    name: NameAt,
    graph: Graph,
    catalog: &mut Catalog,
) -> Result<(), Memory>
    requires coherent { AllByRecursion (λ h. AreCoherent h graph) catalog.old.graphs }
    requires below { AreBelow catalog.old.next graph }
    ensures added { OnOk result (catalog.new ≡ with_named catalog.old (free_word catalog.old.names (named checked.now.file.names name).name) graph) }
    ensures same { OnErr result (catalog.new ≡ catalog.old) }
{
    let graph = graph.indexed()?;
    match free_word(checked, name, catalog)? {
        Some(word) => match catalog.add(word, graph) {
            Ok(_) => Ok(()),
            Err(AddRefusal::Memory) => Err(Memory),
            // The word is free.
            Err(AddRefusal::NameTaken) => unreachable!(),
        },
        None => {
            catalog.add_unnamed(graph)?;
            Ok(())
        }
    }
}

// The name at a place, where it is a word that no graph has.
fn free_word(checked: &Checked, name: NameAt, catalog: &Catalog) -> Result<Option<Name>, Memory>
    ensures { IfOk result (λ word. word ≡ free_word catalog.now.names (named checked.now.file.names name).name) }
{
    let names = &checked.file().names;
    if name.sym.0 < names.len() {
        unless_taken(names.name(name.sym), catalog)
    } else {
        Ok(None)
    }
}

// A word, where no graph has it as its name.
fn unless_taken(word: &Name, catalog: &Catalog) -> Result<Option<Name>, Memory>
    ensures { IfOk result (λ found. found ≡ free_word catalog.now.names word.now) }
{
    let _word = word.bytes();
    if catalog.number_of(word).is_some() {
        return Ok(None);
    }
    Ok(Some(word.copy()?))
}
