ghost use Rattle.std.specs.Prelude.{◌≡◌, ◌∷◌, ◌+◌, ◌<◌, ◌^◌, [], drop, length, true, Some, IfOk};
ghost use Rattle.gc_base.specs.Words.{is_reserved};
ghost use Rattle.gc_expr.specs.Views.{name_of};
ghost use Rattle.gc_parse_readers.specs.Kinds.{among, begins, kind, mark_kind, word_kind, name_kind, number_kind, text_kind};
ghost use Rattle.gc_parse_readers.specs.Readers.{means_mark, means_the_word, means_word, means_number, means_text, means_name};

use crate::numbering::numbered;
use crate::refusal::Refusal;
use gc_ast::NameTable;
use gc_base::{Duplicate, Memory, Name, NameAt, Str, Sym, is_reserved};
use gc_lex::{Mark, Token, Tokens};
use std::alloc::Global;
use std::marker::Model;

/// The tokens of a file, with the number of each name among them. A place is the number of a token,
/// or how many there are.
#[derive(Drop)]
pub struct Source<'a> {
    alloc: Global,
    tokens: &'a [Token],
    count: u32,
    syms: Vec<Sym>,
    names: NameTable,
}

impl<'a> Model for Source<'a> {
    ghost use Rattle.std.specs.Prelude.{◌≡◌, length, ◌<◌, ◌^◌};
    ghost use Rattle.gc_parse_source.specs.Sources as sources;
    ghost use Rattle.gc_parse_source.specs.Sources.{AreNumbersOf};

    ghost Value = { sources.Tokens };

    ghost view = { λ s. record { tokens = s.tokens.now; names = s.names } };

    ghost invariant = { λ s. (length s.tokens.now < 2 ^ 32) × (s.count ≡ length s.tokens.now) × AreNumbersOf s.names s.tokens.now s.syms.items };
}

impl<'a> Source<'a> {
    ghost use Rattle.gc_ast.specs.PatternViews.{named_if};
    ghost use Rattle.gc_parse_readers.specs.PatternReaders.{read_name_if};
    ghost use Rattle.gc_parse_source.specs.Results.{Gives, Takes, Passes};
    ghost use Rattle.gc_parse_source.specs.Sources.{names_among};
    ghost use Rattle.gc_parse_readers.specs.Points.{bare};

    /// The tokens with the numbers of their names.
    pub fn of(alloc: Global, tokens: &'a Tokens) -> Result<Source<'a>, Memory>
        ensures tokens { IfOk result (λ source. source.tokens ≡ tokens.now.tokens) }
        ensures names { IfOk result (λ source. source.names ≡ names_among tokens.now.tokens) }
    {
        let count = tokens.len();
        let tokens = tokens.as_slice();
        let (names, syms) = numbered(alloc, tokens)?;
        Ok(Source {
            alloc,
            tokens,
            count,
            syms,
            names,
        })
    }

    /// How many tokens there are.
    pub fn len(&self) -> u32
        ensures { result ≡ length self.now.tokens }
    {
        self.count
    }

    /// The names by number.
    pub fn into_names(self) -> NameTable
        ensures { result ≡ self.entry.names }
    {
        self.names
    }

    /// Where the trees go.
    pub fn alloc(&self) -> Global {
        self.alloc
    }

    /// Whether this symbol stands at a place.
    pub fn is_at(&self, at: u32, mark: Mark) -> bool
        ensures stands { result ≡ begins (mark_kind mark ∷ []) (drop at self.now.tokens) }
        ensures within { result ≡ true → at + 1 < 2 ^ 32 }
    {
        match self.tokens.get(at as usize) {
            Some(token) => is_mark(token, mark),
            None => false,
        }
    }

    /// Whether this reserved word stands at a place.
    pub fn is_word_at(&self, at: u32, word: &str) -> bool
        requires { is_reserved word.now ≡ true }
        ensures stands { result ≡ begins (word_kind word.now ∷ []) (drop at self.now.tokens) }
        ensures within { result ≡ true → at + 1 < 2 ^ 32 }
    {
        match self.tokens.get(at as usize) {
            Some(token) => is_word(token, word),
            None => false,
        }
    }

    /// Whether a name stands at a place.
    pub fn is_name_at(&self, at: u32) -> bool
        ensures stands { result ≡ begins (name_kind ∷ []) (drop at self.now.tokens) }
        ensures within { result ≡ true → at + 1 < 2 ^ 32 }
    {
        match self.tokens.get(at as usize) {
            Some(token) => is_name(token),
            None => false,
        }
    }

    /// Whether a number stands at a place.
    pub fn is_number_at(&self, at: u32) -> bool
        ensures { result ≡ begins (number_kind ∷ []) (drop at self.now.tokens) }
    {
        match self.tokens.get(at as usize) {
            Some(token) => is_number(token),
            None => false,
        }
    }

    /// Whether a text stands at a place.
    pub fn is_text_at(&self, at: u32) -> bool
        ensures { result ≡ begins (text_kind ∷ []) (drop at self.now.tokens) }
    {
        match self.tokens.get(at as usize) {
            Some(token) => is_text(token),
            None => false,
        }
    }

    /// Passes a symbol.
    pub fn mark(&self, at: u32, mark: Mark) -> Result<u32, Refusal>
        ensures { Passes (means_mark mark) self.now.tokens at result }
    {
        if self.is_at(at, mark) {
            Ok(at + 1)
        } else {
            Err(Refusal::Syntax(at))
        }
    }

    /// Passes a reserved word.
    pub fn the_word(&self, at: u32, word: &str) -> Result<u32, Refusal>
        requires { is_reserved word.now ≡ true }
        ensures { Passes (means_the_word word.now) self.now.tokens at result }
    {
        if self.is_word_at(at, word) {
            Ok(at + 1)
        } else {
            Err(Refusal::Syntax(at))
        }
    }

    /// Takes any word.
    pub fn word(&self, at: u32) -> Result<(Name, u32), Refusal>
        ensures { Takes means_word (λ w. w) self.now.tokens at result }
    {
        match self.tokens.get(at as usize) {
            Some(Token::Word(word)) => Ok((word.copy()?, at + 1)),
            _ => Err(Refusal::Syntax(at)),
        }
    }

    /// Takes a number.
    pub fn number(&self, at: u32) -> Result<(i64, u32), Refusal>
        ensures { Takes means_number (λ n. n) self.now.tokens at result }
    {
        match self.tokens.get(at as usize) {
            Some(Token::Number(number)) => Ok((*number, at + 1)),
            _ => Err(Refusal::Syntax(at)),
        }
    }

    /// Takes a text.
    pub fn text(&self, at: u32) -> Result<(Str, u32), Refusal>
        ensures { Takes means_text (λ t. t) self.now.tokens at result }
    {
        match self.tokens.get(at as usize) {
            Some(Token::Text(text)) => Ok((text.copy()?, at + 1)),
            _ => Err(Refusal::Syntax(at)),
        }
    }

    /// Takes a name.
    pub fn name(&self, at: u32) -> Result<(NameAt, u32), Refusal>
        ensures taken { Takes means_name (λ x. name_of self.now.names x.sym) self.now.tokens at result }
        ensures token { IfOk result (λ taken. taken.0.token ≡ at) }
    {
        if !self.is_name_at(at) {
            return Err(Refusal::Syntax(at));
        }
        let sym = self.syms[at as usize];
        Ok((NameAt { sym, token: at }, at + 1))
    }

    #[tactic(auto, unfolding(gc_parse_readers::specs::PatternReaders::read_name_if))]
    /// Takes a name, if one stands there.
    pub fn name_if(&self, at: u32) -> Result<(Option<NameAt>, u32), Refusal>
        ensures { Gives (named_if self.now.names) self.now.tokens result (read_name_if (bare at) (drop at self.now.tokens)) }
    {
        if !self.is_name_at(at) {
            return Ok((None, at));
        }
        let (name, at) = self.name(at)?;
        Ok((Some(name), at))
    }

    /// Takes a name, with its bytes beside its number.
    pub fn name_with_bytes(&self, at: u32) -> Result<((NameAt, Name), u32), Refusal>
        ensures taken { Takes means_name (λ x. x.1) self.now.tokens at result }
        ensures number { IfOk result (λ taken. name_of self.now.names taken.0.0.sym ≡ taken.0.1) }
        ensures token { IfOk result (λ taken. taken.0.0.token ≡ at) }
    {
        let (name, next) = self.name(at)?;
        let (bytes, _) = self.word(at)?;
        Ok(((name, bytes), next))
    }
}

// Whether a token is a symbol.
fn is_mark(token: &Token, mark: Mark) -> bool
    ensures { result ≡ among (mark_kind mark ∷ []) (kind token.now) }
{
    match token {
        Token::Symbol(other) => *other == mark,
        _ => false,
    }
}

// Whether a token is a reserved word.
fn is_word(token: &Token, word: &str) -> bool
    requires { is_reserved word.now ≡ true }
    ensures { result ≡ among (word_kind word.now ∷ []) (kind token.now) }
{
    match token {
        Token::Word(other) => other.bytes() == word.as_bytes(),
        _ => false,
    }
}

// Whether a token is a name.
fn is_name(token: &Token) -> bool
    ensures { result ≡ among (name_kind ∷ []) (kind token.now) }
{
    match token {
        Token::Word(word) => !is_reserved(word),
        _ => false,
    }
}

// Whether a token is a number.
fn is_number(token: &Token) -> bool
    ensures { result ≡ among (number_kind ∷ []) (kind token.now) }
{
    matches!(token, Token::Number(_))
}

// Whether a token is a text.
fn is_text(token: &Token) -> bool
    ensures { result ≡ among (text_kind ∷ []) (kind token.now) }
{
    matches!(token, Token::Text(_))
}
