ghost use Rattle.std.specs.Prelude.{◌≡◌, Some, refl};
ghost use Rattle.std.specs.Ordering.{eq_by_cmp};
ghost use Rattle.std.specs.Cmp.{eq_by_cmp_equiv, partial_equiv_from_equiv, partial_order_from_total};
ghost use Rattle.gc_base.specs.LiteralLaws.{literal_order_total};
ghost use Rattle.gc_base.specs.Literals.{literal_order, kind_number};

use crate::duplicate::Duplicate;
use crate::memory::Memory;
use crate::text::Str;
use std::cmp::Ordering;

/// A single value of a property.
#[derive(Debug, Drop)]
pub enum Literal {
    Truth(bool),
    Number(i64),
    Text(Str),
}

/// The order of literals: FALSE, TRUE, the numbers by size, the texts by bytes.
pub fn literal_cmp(a: &Literal, b: &Literal) -> Ordering
    ensures { result ≡ literal_order a.now b.now }
{
    a.cmp(b)
}

impl Duplicate for Literal {
    fn copy(&self) -> Result<Literal, Memory> {
        match self {
            Literal::Truth(truth) => Ok(Literal::Truth(*truth)),
            Literal::Number(number) => Ok(Literal::Number(*number)),
            Literal::Text(text) => Ok(Literal::Text(text.copy()?)),
        }
    }
}

impl Literal {
    fn kind_number(&self) -> u8
        ensures { result ≡ kind_number self.now }
    {
        match self {
            Literal::Truth(_) => 0,
            Literal::Number(_) => 1,
            Literal::Text(_) => 2,
        }
    }
}

impl PartialEq for Literal {
    ghost eq = { eq_by_cmp literal_order };

    ghost laws = { partial_equiv_from_equiv (eq_by_cmp_equiv literal_order_total) };

    fn eq(&self, other: &Literal) -> bool {
        self.cmp(other).is_eq()
    }
}

impl Eq for Literal {
    ghost laws = { eq_by_cmp_equiv literal_order_total };
}

impl PartialOrd for Literal {
    ghost partial_cmp = { λ a b. Some (literal_order a b) };

    ghost laws = { partial_order_from_total literal_order_total };

    fn partial_cmp(&self, other: &Literal) -> Option<Ordering> {
        Some(self.cmp(other))
    }
}

impl Ord for Literal {
    ghost cmp = { literal_order };

    ghost total = { literal_order_total };

    ghost matches_partial_cmp = { λ a b. refl };

    ghost matches_eq = { λ a b. refl };

    fn cmp(&self, other: &Literal) -> Ordering {
        match (self, other) {
            (Literal::Truth(a), Literal::Truth(b)) => a.cmp(b),
            (Literal::Number(a), Literal::Number(b)) => a.cmp(b),
            (Literal::Text(a), Literal::Text(b)) => a.cmp(b),
            _ => self.kind_number().cmp(&other.kind_number()),
        }
    }
}
