ghost use Rattle.std.specs.Prelude.{◌≡◌, ◌+◌, ◌<◌, ◌≤◌, ◌^◌, length, slice_get, Some};

use crate::token::Token;
use gc_base::{Duplicate, Memory, Numbered, Place};
use std::marker::Model;

/// The tokens of a text and their places. Contracts see the list of the tokens, and the list of the
/// places where they begin, which ends with the end of the text.
#[derive(Debug, Drop)]
pub struct Tokens {
    pub(crate) tokens: Numbered<Token>,
    pub(crate) places: Numbered<Place>,
    pub(crate) end: Place,
}

impl Model for Tokens {
    ghost use Rattle.std.specs.Prelude.{◌≡◌, ◌++◌, ◌∷◌, [], length};
    ghost use Rattle.gc_lex.specs.Lexis.{TokenList};

    ghost Value = { TokenList };

    ghost view = { λ t. record { tokens = t.tokens; places = t.places ++ t.end ∷ [] } };

    ghost invariant = { λ t. length t.tokens ≡ length t.places };
}

impl Tokens {
    /// How many tokens there are.
    pub fn len(&self) -> u32
        ensures count { result ≡ length self.now.tokens }
        ensures bound { length self.now.tokens < 2 ^ 32 }
        ensures places { length self.now.places ≡ length self.now.tokens + 1 }
    {
        self.tokens.len()
    }

    /// The token of a number below the length.
    pub fn at(&self, i: u32) -> &Token
        requires { i < length self.now.tokens }
        ensures { slice_get self.now.tokens i ≡ Some result.now }
    {
        self.tokens.at(i)
    }

    /// The place where the token of a number begins, and at the length the end of the text.
    pub fn place(&self, i: u32) -> Place
        requires { i ≤ length self.now.tokens }
        ensures { slice_get self.now.places i ≡ Some result }
    {
        if i < self.places.len() {
            *self.places.at(i)
        } else {
            self.end
        }
    }

    /// All tokens, in order.
    pub fn as_slice(&self) -> &[Token]
        ensures { result.now ≡ self.now.tokens }
    {
        self.tokens.as_slice()
    }
}

impl Duplicate for Tokens {
    fn copy(&self) -> Result<Tokens, Memory> {
        Ok(Tokens {
            tokens: self.tokens.copy()?,
            places: self.places.copy()?,
            end: self.end,
        })
    }
}
