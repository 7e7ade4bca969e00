ghost use Rattle.std.specs.Prelude.{◌≡◌, List, map, true};
ghost use Rattle.std.specs.List.{AllByRecursion};
ghost use Rattle.gc_spec.specs.Coherence.{AreCoherent, shapes_of};
ghost use Rattle.gc_spec.specs.PropertyGraph.{PropertyGraph};
ghost use Rattle.gc_ppg.specs.Shapes.{graph_agrees};

/// A graph whose every element agrees with what identities stand for in some graphs is coherent with each
/// of them.
pub fn a_graph_that_agrees_is_coherent()
    ensures { (graphs : List PropertyGraph) (g : PropertyGraph) → graph_agrees (map shapes_of graphs) g ≡ true → AllByRecursion (λ h. AreCoherent h g) graphs }
{}
