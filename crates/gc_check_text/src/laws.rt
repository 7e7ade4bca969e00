ghost use Rattle.std.specs.Prelude.{◌≡◌, ℕ, List, Result, Err};
ghost use Rattle.gc_check_text.specs.Outcomes.{IsOutcome};
ghost use Rattle.gc_check_text.specs.declared.refusal.CheckRefusal.{CheckRefusal};
ghost use Rattle.gc_check_text.specs.declared.refusal.CheckRefusal.TheVariants.{Memory};

use gc_cert_text::certificates_are_formed;

/// Bytes have one outcome, unless memory is short: the same number of searches that are accepted, the same refusal,
/// or the same search that is rejected, with the same rule.
pub fn outcomes_are_exact()
    ensures { (bytes : List ℕ) (r q : Result ℕ CheckRefusal) → IsOutcome bytes r → IsOutcome bytes q
        → (r ≡ Err Memory → ⊥) → (q ≡ Err Memory → ⊥) → r ≡ q }
{
    certificates_are_formed();
}
