ghost use Rattle.std.specs.Prelude.{◌≡◌};
ghost use Rattle.gc_parse.specs.Depths.{IsDepthFault, is_opening, is_closing, one_if};

use gc_lex::{Mark, Token, Tokens};

/// How many brackets may be open at once.
const MOST_OPEN: u64 = 64;

/// The number of the first token with which the brackets are too deep.
pub(crate) fn depth_fault(tokens: &Tokens) -> Option<u32>
    ensures { IsDepthFault tokens.now.tokens result }
{
    let mut opened = 0u64;
    let mut closed = 0u64;
    for number in 0..tokens.len() {
        let token = tokens.at(number);
        opened += one_if(is_opening(token));
        closed += one_if(is_closing(token));
        if opened > closed + MOST_OPEN {
            return Some(number);
        }
    }
    None
}

// 1 where it is so.
fn one_if(is: bool) -> u64
    ensures { result ≡ one_if is }
{
    if is { 1 } else { 0 }
}

fn is_opening(token: &Token) -> bool
    ensures { result ≡ is_opening token.now }
{
    matches!(
        token,
        Token::Symbol(Mark::OpenParenthesis | Mark::OpenBracket | Mark::OpenBrace)
    )
}

fn is_closing(token: &Token) -> bool
    ensures { result ≡ is_closing token.now }
{
    matches!(
        token,
        Token::Symbol(Mark::CloseParenthesis | Mark::CloseBracket | Mark::CloseBrace)
    )
}
