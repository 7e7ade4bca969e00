ghost use Rattle.std.specs.Prelude.{◌≡◌, false, None};
ghost use Rattle.gc_sorts.specs.declared.breach.Breach.{Breach};
ghost use Rattle.gc_sorts.specs.Breaches.{Breaches, is_before, first_among, IsFirst};

/// The first of some breaches is one of them, and none of them comes before it; where there is no first
/// there are none. Of two that differ one comes before the other, so there is one first breach.
pub fn the_first_breach_is_the_first()
    ensures first { (bs : Breaches) → IsFirst (first_among None bs) bs }
    ensures one { (b c : Breach) → is_before b c ≡ false → is_before c b ≡ false → b ≡ c }
{}
