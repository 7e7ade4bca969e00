ghost use Rattle.std.specs.Prelude.{◌≡◌, ◌∷◌, ◌++◌, ◌≤◌, ℕ, List, []};
ghost use Rattle.std.specs.List.{Contains};
ghost use Rattle.gc_spec.specs.Coherence.{AreCoherent};
ghost use Rattle.gc_spec.specs.PropertyGraph.{IsGraph, PropertyGraph};
ghost use Rattle.gc_sets.specs.Differences.{difference};
ghost use Rattle.gc_sets.specs.Intersections.{IsIntersection};
ghost use Rattle.gc_sets.specs.Origins.{AreMadeInTurn, AreStanding, ComesFrom};
ghost use Rattle.gc_sets.specs.Unions.{IsUnion};

/// Two graphs agree that come from graphs which stand together, where the second was made after the first.
pub fn graphs_that_are_made_in_turn_agree()
    ensures { (graphs : List PropertyGraph) (next after : ℕ) (a b : PropertyGraph) → AreStanding graphs next
        → AreMadeInTurn graphs next after a b → AreCoherent a b }
{}

/// A graph that comes from graphs which stand together can stand behind them.
pub fn a_graph_stands_with_those_that_it_comes_from()
    ensures { (graphs : List PropertyGraph) (next after : ℕ) (g : PropertyGraph) → AreStanding graphs next → next ≤ after
        → ComesFrom graphs next after g → AreStanding (graphs ++ g ∷ []) after }
{}

/// What comes from graphs that come from others, comes from these.
pub fn what_comes_from_made_graphs_comes_from_theirs()
    ensures { (graphs others : List PropertyGraph) (next middle after : ℕ) (g : PropertyGraph) → next ≤ middle → middle ≤ after
        → ((h : PropertyGraph) → Contains others h → ComesFrom graphs next middle h) → ComesFrom others middle after g → ComesFrom graphs next after g }
{}

/// The union, the intersection and the difference of two graphs come from where these do.
pub fn what_is_combined_comes_from_where_its_graphs_do()
    ensures union { (graphs : List PropertyGraph) (next after : ℕ) (a b g : PropertyGraph) → AreMadeInTurn graphs next after a b
        → IsGraph a → IsGraph b → IsUnion a b g → ComesFrom graphs next after g }
    ensures intersection { (graphs : List PropertyGraph) (next after : ℕ) (a b g : PropertyGraph) → AreMadeInTurn graphs next after a b
        → IsGraph a → IsGraph b → IsIntersection a b g → ComesFrom graphs next after g }
    ensures difference { (graphs : List PropertyGraph) (next after : ℕ) (a b : PropertyGraph) → AreMadeInTurn graphs next after a b
        → IsGraph a → ComesFrom graphs next after (difference a b) }
{}
