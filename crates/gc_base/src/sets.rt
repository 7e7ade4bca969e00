ghost use Rattle.std.specs.Prelude.{◌≡◌, true};
ghost use Rattle.gc_base.specs.Words.{is_word};
ghost use Rattle.gc_base.specs.Literals.{IsLiteral};
ghost use Rattle.gc_base.specs.LiteralLaws.{literal_order_exact, text_order_exact};

use crate::ascending::{Ascending, Item};
use crate::literal::Literal;
use crate::name::Name;

/// The values of a property, by the order of literals.
pub type ValueSet = Ascending<Literal>;

/// The labels of an element, by their bytes.
pub type LabelSet = Ascending<Name>;

impl Item for Name {
    ghost is_valid = { λ name. is_word name ≡ true };

    ghost exact = { text_order_exact };

    fn known(&self) {
        let _bytes = self.bytes();
    }
}

impl Item for Literal {
    ghost is_valid = { IsLiteral };

    ghost exact = { literal_order_exact };

    fn known(&self) {
        match self {
            Literal::Truth(_) => {}
            Literal::Number(number) => {
                let _number = *number;
            }
            Literal::Text(text) => {
                let _text = text.text();
            }
        }
    }
}
