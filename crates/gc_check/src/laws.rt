ghost use Rattle.std.specs.Prelude.{◌≡◌};
ghost use Rattle.std.specs.List.{AllByRecursion};
ghost use Rattle.gc_automata.specs.Moves.{IsNetwork};
ghost use Rattle.gc_cert.specs.Acceptance.{Accepts, IsProductOf, network_of};
ghost use Rattle.gc_cert.specs.declared.document.SearchDoc.{SearchDoc};
ghost use Rattle.gc_cert.specs.Shortest.{IsShortest};
ghost use Rattle.gc_prod.specs.Products.{Setting};
ghost use Rattle.gc_regx.specs.Expressions.{HasParts};
ghost use Rattle.gc_regx.specs.Views.{regex_tree};
ghost use Rattle.gc_check.specs.declared.rule.Verdict.{Verdict};
ghost use Rattle.gc_check.specs.Verdicts.{IsVerdict};

/// The law of acceptance. Where the document of a search is accepted, each of its walks goes from the start,
/// conforms to the expression on the document's graph and segments at the stated cost, and no conforming walk
/// between its ends costs less.
pub fn accepted_walks_are_shortest()
    ensures { (d : SearchDoc) (setting : Setting) → IsProductOf d setting → IsNetwork (network_of d) → HasParts (regex_tree d.expression) → Accepts d setting
        → AllByRecursion (λ w. IsShortest (network_of d) (regex_tree d.expression) d.start w.walk w.cost) d.walks }
{}

/// A document has one verdict: where all rules hold it is accepted, and else the first that does not is told.
pub fn verdicts_are_exact()
    ensures { (d : SearchDoc) (setting : Setting) (v w : Verdict) → IsVerdict d setting v → IsVerdict d setting w → v ≡ w }
{}
