ghost use Rattle.std.specs.Prelude.{ℕ};
ghost use Rattle.gc_base.specs.Walks.{end_of};
ghost use Rattle.gc_base.specs.declared.walk.Walk.{Walk};
ghost use Rattle.gc_automata.specs.Moves.{IsNetwork, IsThere};
ghost use Rattle.gc_automata.specs.Runs.{Runs};
ghost use Rattle.gc_prod.specs.declared.moves.Pair.{Pair};
ghost use Rattle.gc_prod.specs.Leading.{Leads, Passed, pair};
ghost use Rattle.gc_prod.specs.Products.{Setting};

/// The law of moves. On a network whose edges and segments go from node to node, moves lead from a
/// pair to a pair exactly where a run passes a walk between their nodes, from state to state.
pub fn moves_make_the_runs()
    ensures lead { (setting : Setting) → (from to : ℕ) (w : Walk) (c : ℕ) → Runs setting.network setting.machine.transitions from to w c
        → (n : ℕ) × Leads setting n (pair w.start from) (pair (end_of w) to) }
    ensures pass { (setting : Setting) → IsNetwork setting.network → (n : ℕ) (p q : Pair) → IsThere setting.network p.node → Leads setting n p q → Passed setting p q }
{}
