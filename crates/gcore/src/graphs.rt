ghost use Rattle.std.specs.Prelude.{◌≡◌, ◌≤◌, ◌++◌, ◌∷◌, [], None, Some, max, true, OnOk};
ghost use Rattle.std.specs.List.{AllByRecursion};
ghost use Rattle.gc_spec.specs.Coherence.{AreCoherent};
ghost use Rattle.gc_catalog.specs.NamedGraphs.{number_of};
ghost use Rattle.gcore.specs.GraphSteps.{ReadsGraphs};
ghost use Rattle.gcore.specs.Outcomes.{free_above};
ghost use Rattle.gcore.specs.Pairs.{names_differ};
ghost use Rattle.gcore.specs.Steps.{Reading};

use crate::inputs::read_graph;
use crate::pair::Pair;
use crate::stop::Stop;
use gc_base::{Duplicate, Memory, Name};
use gc_catalog::{AddRefusal, Catalog};
use gc_io::Folder;
use gc_ppg::{Coherence, Graph, a_graph_that_agrees_is_coherent};
use std::alloc::Global;

/// The catalog of graph files, one after another, each beside what identities stand for in the
/// graphs of the files before it.
pub fn read_graphs<F: Folder>(
    alloc: Global,
    folder: &mut F,
    pairs: &[Pair],
) -> Result<Catalog, Stop>
    requires { names_differ pairs.now ≡ true }
    ensures outcome { ReadsGraphs (record { files = F.files folder.old; faults_before = F.faults folder.old; faults_after = F.faults folder.new })
        pairs.now result }
    ensures later { F.faults folder.old ≤ F.faults folder.new }
    ensures kept { F.files folder.new ≡ F.files folder.old }
{
    let mut catalog = Catalog::new(alloc);
    let mut seen = Coherence::new(alloc);
    for pair in pairs {
        let graph = read_graph(alloc, folder, &pair.file, &seen)?;
        seen.add(&graph)?;
        a_graph_that_agrees_is_coherent();
        add_loaded(&mut catalog, &pair.name, graph)?;
    }
    Ok(catalog)
}

/// Puts a graph that is loaded or made into a catalog, under a name that is not there.
pub fn add_loaded(catalog: &mut Catalog, name: &Name, graph: Graph) -> Result<(), Memory>
    requires coherent { AllByRecursion (λ h. AreCoherent h graph) catalog.old.graphs }
    requires fresh { number_of catalog.old.names name.now ≡ None }
    ensures graphs { OnOk result (catalog.new.graphs ≡ catalog.old.graphs ++ graph ∷ []) }
    ensures names { OnOk result (catalog.new.names ≡ catalog.old.names ++ Some name.now ∷ []) }
    ensures next { OnOk result (catalog.new.next ≡ max catalog.old.next (free_above (graph ∷ []))) }
{
    let free = catalog.next().max(graph.first_free());
    catalog.set_next(free);
    match catalog.add(name.copy()?, graph) {
        Ok(_) => Ok(()),
        Err(AddRefusal::NameTaken) => unreachable!(),
        Err(AddRefusal::Memory) => Err(Memory),
    }
}
