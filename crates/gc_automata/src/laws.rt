ghost use Rattle.std.specs.Prelude.{◌≡◌, ◌-◌, ℕ};
ghost use Rattle.gc_base.specs.declared.walk.Walk.{Walk};
ghost use Rattle.gc_regx.specs.Trees.{RegexTree, ARegex};
ghost use Rattle.gc_automata.specs.Automata.{automaton_of};
ghost use Rattle.gc_automata.specs.Conformance.{Conforms};
ghost use Rattle.gc_automata.specs.Moves.{Network, IsNetwork};
ghost use Rattle.gc_automata.specs.Runs.{Runs};
ghost use Rattle.gc_regx.specs.Expressions.{HasParts};

/// The run law. On a network whose edges and segments go from node to node, a run of an expression's
/// automaton from the first state to the last passes a walk at a cost exactly where the walk conforms
/// to the expression at that cost.
pub fn runs_pass_the_conforming_walks()
    ensures conform { (network : Network) → IsNetwork network → (tree : RegexTree ARegex) → HasParts tree → (w : Walk) (c : ℕ)
        → Runs network ((automaton_of tree).transitions 0) 0 ((automaton_of tree).states - 1) w c → Conforms network tree w c }
    ensures pass { (network : Network) → IsNetwork network → (tree : RegexTree ARegex) → (w : Walk) (c : ℕ)
        → Conforms network tree w c → Runs network ((automaton_of tree).transitions 0) 0 ((automaton_of tree).states - 1) w c }
{}
