//! Writing pieces: tokens, and the white space that parts them.
ghost use Rattle.std.specs.Prelude.{◌≡◌, ◌++◌, ◌∷◌, [], OnOk, replicate, ◌+◌};
ghost use Rattle.std.specs.List.{flat_map};
ghost use Rattle.gc_lex.specs.declared.token.Token.TheVariants.{Number, Text};
ghost use Rattle.gc_regx.specs.Views.{regex_tree};
ghost use Rattle.gc_print_query.specs.Pieces.{Blank, Line, Lexeme, Angled, apart, is_opening, last_behind, run_together, with_piece};
ghost use Rattle.gc_print_query.specs.ExpressionPieces.{word, mark_piece};
ghost use Rattle.gc_print_query.specs.TokenTexts.{escaped, mark_text};
ghost use Rattle.gc_base.specs.Words.{is_word_part};

use gc_base::Memory;
use gc_lex::Mark;
use gc_print::print_regex;
use gc_regx::Regex;
use std::alloc::Global;

#[tactic(auto, using(crate::proofs::WrittenPieces::last_get))]
// The last byte of a text, or 0.
fn last_byte(text: &[u8]) -> u8
    ensures { result ≡ last_behind 0 text.now }
{
    if text.is_empty() {
        return 0;
    }
    text[text.len() - 1]
}

fn is_word_part(byte: u8) -> bool
    ensures { result ≡ is_word_part byte }
{
    byte.is_ascii_alphanumeric() || byte == b'_'
}

// Whether two bytes could be read as of one token.
fn run_together(last: u8, first: u8) -> bool
    ensures { result ≡ run_together last first }
{
    (is_word_part(last) && is_word_part(first))
        || ((last == b':' || (last == b'<' || last == b'>')) && (first == b'=' || first == b'>'))
}

// Bytes behind a text, with a space where they would run together with it.
fn write_apart(text: &mut Vec<u8>, bytes: &[u8]) -> Result<(), Memory>
    ensures { OnOk result (text.new.items ≡ text.old.items ++ apart (last_behind 0 text.old.items) bytes.now) }
{
    if let Some(first) = bytes.first() {
        if run_together(last_byte(text), *first) {
            text.push(b' ')?;
        }
    }
    text.extend_from_slice(bytes)?;
    Ok(())
}

#[tactic(auto, unfolding(crate::specs::Pieces::with_piece, crate::specs::TokenTexts::spelled))]
/// A word.
pub(crate) fn write_word(text: &mut Vec<u8>, bytes: &[u8]) -> Result<(), Memory>
    ensures { OnOk result (text.new.items ≡ with_piece text.old.items (word bytes.now)) }
{
    write_apart(text, bytes)
}

#[tactic(auto, unfolding(crate::specs::Pieces::with_piece, crate::specs::TokenTexts::spelled))]
/// A symbol.
pub(crate) fn write_mark(text: &mut Vec<u8>, mark: Mark) -> Result<(), Memory>
    ensures { OnOk result (text.new.items ≡ with_piece text.old.items (mark_piece mark)) }
{
    write_apart(text, mark_text(mark))
}

// How a symbol is written.
fn mark_text(mark: Mark) -> &'static [u8]
    ensures { result.now ≡ mark_text mark }
{
    match mark {
        Mark::Assign => b":=",
        Mark::AtMost => b"<=",
        Mark::AtLeast => b">=",
        Mark::Differs => b"<>",
        Mark::OpenParenthesis => b"(",
        Mark::CloseParenthesis => b")",
        Mark::OpenBracket => b"[",
        Mark::CloseBracket => b"]",
        Mark::OpenBrace => b"{",
        Mark::CloseBrace => b"}",
        Mark::Less => b"<",
        Mark::Greater => b">",
        Mark::Comma => b",",
        Mark::Semicolon => b";",
        Mark::Colon => b":",
        Mark::Dot => b".",
        Mark::Equals => b"=",
        Mark::Plus => b"+",
        Mark::Minus => b"-",
        Mark::Star => b"*",
        Mark::Slash => b"/",
        Mark::Percent => b"%",
        Mark::Bar => b"|",
        Mark::Bang => b"!",
        Mark::Tilde => b"~",
        Mark::AtSign => b"@",
        Mark::LowLine => b"_",
    }
}

#[tactic(auto, unfolding(crate::specs::Pieces::with_piece, crate::specs::TokenTexts::spelled))]
/// A number.
pub(crate) fn write_number(text: &mut Vec<u8>, number: i64) -> Result<(), Memory>
    ensures { OnOk result (text.new.items ≡ with_piece text.old.items (Lexeme (Number number))) }
{
    let mut digits = itoa::Buffer::new();
    write_apart(text, digits.format(number).as_bytes())
}

#[tactic(auto, unfolding(crate::specs::Pieces::with_piece, crate::specs::TokenTexts::spelled))]
/// A text, between two `"`.
pub(crate) fn write_text(text: &mut Vec<u8>, contents: &str) -> Result<(), Memory>
    ensures { OnOk result (text.new.items ≡ with_piece text.old.items (Lexeme (Text contents.now))) }
{
    text.push(b'"')?;
    write_escaped(text, contents.as_bytes())?;
    text.push(b'"')?;
    Ok(())
}

// Bytes of a text with their escapes.
fn write_escaped(text: &mut Vec<u8>, bytes: &[u8]) -> Result<(), Memory>
    ensures { OnOk result (text.new.items ≡ text.old.items ++ flat_map escaped bytes.now) }
{
    for byte in bytes {
        write_byte(text, *byte)?;
    }
    Ok(())
}

fn write_byte(text: &mut Vec<u8>, byte: u8) -> Result<(), Memory>
    ensures { OnOk result (text.new.items ≡ text.old.items ++ escaped byte) }
{
    match byte {
        b'"' => text.extend_from_slice(b"\\\"")?,
        b'\\' => text.extend_from_slice(b"\\\\")?,
        b'\n' => text.extend_from_slice(b"\\n")?,
        b'\t' => text.extend_from_slice(b"\\t")?,
        _ => text.push(byte)?,
    }
    Ok(())
}

fn is_opening(byte: u8) -> bool
    ensures { result ≡ is_opening byte }
{
    byte == b'(' || byte == b'['
}

#[tactic(auto, unfolding(crate::specs::Pieces::with_piece))]
/// A space, but not directly behind what opens.
pub(crate) fn write_blank(text: &mut Vec<u8>) -> Result<(), Memory>
    ensures { OnOk result (text.new.items ≡ with_piece text.old.items Blank) }
{
    if !is_opening(last_byte(text)) {
        text.push(b' ')?;
    }
    Ok(())
}

#[tactic(auto, unfolding(crate::specs::Pieces::with_piece))]
/// A line feed, and so many times two spaces.
pub(crate) fn write_line(text: &mut Vec<u8>, depth: usize) -> Result<(), Memory>
    ensures { OnOk result (text.new.items ≡ with_piece text.old.items (Line depth)) }
{
    text.push(b'\n')?;
    write_spaces(text, depth)?;
    write_spaces(text, depth)
}

fn write_spaces(text: &mut Vec<u8>, count: usize) -> Result<(), Memory>
    ensures { OnOk result (text.new.items ≡ text.old.items ++ replicate count 32) }
{
    for i in 0..count {
        text.push(b' ')?;
    }
    Ok(())
}

#[tactic(auto, unfolding(crate::specs::Pieces::with_piece))]
/// A regular path expression between `<` and `>`.
pub(crate) fn write_angled(text: &mut Vec<u8>, regex: &Regex) -> Result<(), Memory>
    ensures { OnOk result (text.new.items ≡ with_piece text.old.items (Angled (regex_tree regex.now))) }
{
    let alloc = *text.allocator();
    let inside = print_regex(alloc, regex)?;
    text.push(b'<')?;
    text.extend_from_slice(inside.as_slice())?;
    text.push(b'>')?;
    Ok(())
}
