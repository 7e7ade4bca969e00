ghost use Rattle.std.specs.Prelude.{◌≡◌, length, Ok, IfOk, IfErr};
ghost use Rattle.gc_lex.specs.Lexis.{lexed, tokens_within, IsDue};

use crate::items::{Item, item_at};
use crate::places::{START, moved};
use crate::refusal::LexRefusal;
use crate::tokens::Tokens;
use gc_base::Numbered;
use std::alloc::Global;

/// The tokens of a text with their places, or the first thing that is wrong with it.
///
/// A text that is not UTF-8 is refused before all else. Of the other refusals the one that is met
/// first from the left is given, and a text that is never closed is met at the end.
pub fn lex(alloc: Global, text: &[u8]) -> Result<Tokens, LexRefusal>
    ensures tokens { IfOk result (λ tokens. lexed text.now ≡ Ok tokens) }
    ensures refusal { IfErr result (IsDue (lexed text.now)) }
{
    match str::from_utf8(text) {
        Ok(text) => tokens_of(alloc, text),
        Err(error) => Err(LexRefusal::NotUtf8(moved(text, 0, error.valid_up_to(), START))),
    }
}

/// The tokens of a text that is UTF-8.
fn tokens_of(alloc: Global, text: &str) -> Result<Tokens, LexRefusal>
    ensures tokens { IfOk result (λ tokens. tokens_within (length text.now) text.now 0 ≡ Ok tokens) }
    ensures refusal { IfErr result (IsDue (tokens_within (length text.now) text.now 0)) }
{
    let bytes = text.as_bytes();
    let mut tokens = Numbered::new(alloc);
    let mut places = Numbered::new(alloc);
    let mut at = 0;
    let mut place = START;
    'items: loop {
        match item_at(alloc, text, at)? {
            Item::End => {
                return Ok(Tokens {
                    tokens,
                    places,
                    end: place,
                });
            }
            Item::Gap(n) => {
                place = moved(bytes, at, at + n, place);
                at += n;
            }
            Item::Spelled(token, n) => {
                tokens.push(token)?;
                places.push(place)?;
                place = moved(bytes, at, at + n, place);
                at += n;
            }
            Item::BadCharacter(n) => {
                return Err(LexRefusal::BadCharacter(moved(bytes, at, at + n, place)));
            }
            Item::OpenText => return Err(LexRefusal::OpenText(place)),
            Item::NumberTooLarge => return Err(LexRefusal::NumberTooLarge(place)),
        }
    }
}
