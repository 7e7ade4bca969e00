ghost use Rattle.std.specs.Prelude.{◌≡◌, false, slice_get, Some, IfOk, OnOk};
ghost use Rattle.gc_base.specs.Words.{is_reserved};
ghost use Rattle.gc_lex.specs.declared.token.Token.TheVariants.{Word};
ghost use Rattle.gc_parse_source.specs.Sources.{AreNumbersOf, IsNumberOf, Extends, names_among, with_token};

use gc_ast::NameTable;
use gc_base::{Memory, Name, Sym, is_reserved};
use gc_lex::Token;
use std::alloc::Global;

/// The names among tokens, numbered by first occurrence, and for each token its number, if it is a
/// name.
pub(crate) fn numbered(alloc: Global, tokens: &[Token]) -> Result<(NameTable, Vec<Sym>), Memory>
    ensures numbers { IfOk result (λ numbered. AreNumbersOf numbered.0 tokens.now numbered.1.items) }
    ensures names { IfOk result (λ numbered. numbered.0 ≡ names_among tokens.now) }
{
    let mut names = NameTable::new(alloc);
    let mut syms = Vec::with_capacity(alloc, tokens.len())?;
    for token in tokens {
        syms.push(number_of(&mut names, token)?)?;
    }
    Ok((names, syms))
}

// The number of a token; of one that is no name any number.
fn number_of(names: &mut NameTable, token: &Token) -> Result<Sym, Memory>
    ensures extends { Extends names.old names.new }
    ensures number { IfOk result (IsNumberOf names.new token.now) }
    ensures names { OnOk result (names.new ≡ with_token names.old token.now) }
{
    match token {
        Token::Word(word) => number_of_word(names, word),
        _ => Ok(Sym(0)),
    }
}

fn number_of_word(names: &mut NameTable, word: &Name) -> Result<Sym, Memory>
    ensures extends { Extends names.old names.new }
    ensures number { IfOk result (λ sym. is_reserved word.now ≡ false → slice_get names.new sym.0 ≡ Some word.now) }
    ensures names { OnOk result (names.new ≡ with_token names.old (Word word.now)) }
{
    if is_reserved(word) {
        Ok(Sym(0))
    } else {
        names.intern(word)
    }
}
