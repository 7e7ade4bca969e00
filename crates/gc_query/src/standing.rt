ghost use Rattle.std.specs.Prelude.{◌≡◌, ◌≤◌, ◌∷◌, ◌++◌, [], Ok, OnOk};
ghost use Rattle.gc_query.specs.Answered.{AreStood, IsLonger, RisesOver, standing_at};
ghost use Rattle.gc_ast.specs.PatternViews.{named};
ghost use Rattle.gc_query.specs.Queries.{with_made};
ghost use Rattle.gc_query.specs.Steps.{free_word};
ghost use Rattle.gc_sets.specs.Origins.{ComesFrom};
ghost use Rattle.gc_spec.specs.PropertyGraph.{IsGraph};
ghost use Rattle.std.specs.List.{AllByRecursion};

use crate::fault::QueryRefusal;
use crate::made::Made;
use crate::naming::stand_named;
use gc_base::NameAt;
use gc_catalog::Catalog;
use gc_ppg::GraphList;
use gc_sorts::Checked;

/// Puts a graph, which comes from those of a catalog, behind them, under its name where that is a word which no
/// graph has, and gives the next identity.
pub(crate) fn stand(
    checked: &Checked,
    name: NameAt,
    catalog: &mut Catalog,
    made: Made,
) -> Result<u64, QueryRefusal>
    requires comes { ComesFrom catalog.old.graphs catalog.old.next made.next made.graph }
    requires later { catalog.old.next ≤ made.next }
    requires most { made.next ≤ 9007199254740992 }
    ensures rises { RisesOver made.next catalog.new result }
    ensures due { AreStood (λ under. under ≡ Ok (with_made (standing_at catalog.old made.next) made)) catalog.new result }
    ensures longer { IsLonger catalog.old catalog.new }
    ensures added { OnOk result (catalog.new.graphs ≡ catalog.old.graphs ++ made.graph ∷ []) }
    ensures names { OnOk result (catalog.new.names ≡ catalog.old.names ++ free_word catalog.old.names (named checked.now.file.names name).name ∷ []) }
{
    let _valid = catalog.next();
    let free = made.next;
    catalog.set_next(free);
    stand_named(checked, name, made.graph, catalog)?;
    Ok(free)
}

/// Each of some graphs is one, which its type remembers.
pub(crate) fn are_graphs(graphs: &GraphList)
    ensures { AllByRecursion IsGraph graphs.now }
{
    for graph in graphs.as_slice() {
        let _valid = graph.node_count();
    }
}
