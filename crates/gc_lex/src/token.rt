use gc_base::{Duplicate, Memory, Name, Str};

/// A symbol of the language, one variant for each spelling.
#[derive(Clone, Copy, Debug, PartialEq, Eq)]
pub enum Mark {
    /// `:=`
    Assign,
    /// `<=`
    AtMost,
    /// `>=`
    AtLeast,
    /// `<>`
    Differs,
    /// `(`
    OpenParenthesis,
    /// `)`
    CloseParenthesis,
    /// `[`
    OpenBracket,
    /// `]`
    CloseBracket,
    /// `{`
    OpenBrace,
    /// `}`
    CloseBrace,
    /// `<`
    Less,
    /// `>`
    Greater,
    /// `,`
    Comma,
    /// `;`
    Semicolon,
    /// `:`
    Colon,
    /// `.`
    Dot,
    /// `=`
    Equals,
    /// `+`
    Plus,
    /// `-`
    Minus,
    /// `*`
    Star,
    /// `/`
    Slash,
    /// `%`
    Percent,
    /// `|`
    Bar,
    /// `!`
    Bang,
    /// `~`
    Tilde,
    /// `@`
    AtSign,
    /// `_`
    LowLine,
}

/// A token of a query file.
#[derive(Debug, Drop, PartialEq, Eq)]
pub enum Token {
    /// A word, reserved or not.
    Word(Name),
    /// A number, which is never negative.
    Number(i64),
    /// A text, with its escapes resolved.
    Text(Str),
    /// A symbol.
    Symbol(Mark),
}

impl Duplicate for Mark {
    fn copy(&self) -> Result<Mark, Memory> {
        Ok(*self)
    }
}

impl Duplicate for Token {
    fn copy(&self) -> Result<Token, Memory> {
        match self {
            Token::Word(name) => Ok(Token::Word(name.copy()?)),
            Token::Number(number) => Ok(Token::Number(*number)),
            Token::Text(text) => Ok(Token::Text(text.copy()?)),
            Token::Symbol(mark) => Ok(Token::Symbol(*mark)),
        }
    }
}
