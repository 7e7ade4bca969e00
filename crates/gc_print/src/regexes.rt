ghost use Rattle.std.specs.Prelude.{◌≡◌, ◌++◌, ◌∷◌, map, IfOk, OnOk};
ghost use Rattle.std.specs.List.{flat_map, join_with_byte};
ghost use Rattle.gc_regx.specs.Views.{regex_tree};
ghost use Rattle.gc_print.specs.RegexTexts.{byte_before, enclosed, part_of, regex_text};

use crate::looseness::{Looseness, is_looser, looseness_of};
use gc_base::{Bytes, Memory};
use gc_regx::{Regex, RegexList};
use std::alloc::Global;

/// The text of a regular path expression: its units without spaces, one space between parts that
/// follow one another, `|` between branches, and parentheses only where a part would else bind
/// otherwise.
pub fn print_regex(alloc: Global, regex: &Regex) -> Result<Bytes, Memory>
    ensures { IfOk result (λ text. text ≡ regex_text (regex_tree regex.now)) }
{
    let mut text = Vec::new(alloc);
    write_regex(&mut text, regex)?;
    Ok(Bytes::from_vec(text))
}

#[tactic(auto, using(crate::proofs::PartTexts::star_text), unfolding(gc_regx::specs::Views::regex_tree, crate::specs::RegexTexts::text_of))]
#[cycle(regexes)]
fn write_regex(text: &mut Vec<u8>, regex: &Regex) -> Result<(), Memory>
    ensures { OnOk result (text.new.items ≡ text.old.items ++ regex_text (regex_tree regex.now)) }
{
    match regex {
        Regex::Label(label) => write_all(text, &[b":", label.bytes()]),
        Regex::Back(label) => write_all(text, &[b":", label.bytes(), b"-"]),
        Regex::Any => write_all(text, &[b"_"]),
        Regex::AnyBack => write_all(text, &[b"_-"]),
        Regex::Test(label) => write_all(text, &[b"!:", label.bytes()]),
        Regex::View(view) => write_all(text, &[b"~", view.bytes()]),
        Regex::Cat(parts) => write_parts(text, parts, b' ', Looseness::Star),
        Regex::Alt(parts) => write_parts(text, parts, b'|', Looseness::Juxtaposition),
        Regex::Star(part) => {
            write_part(text, part, Looseness::Unit)?;
            write_all(text, &[b"*"])
        }
    }
}

#[cycle(regexes)]
// Parts with a byte between them; one that is looser than allowed stands in parentheses.
fn write_parts(
    text: &mut Vec<u8>,
    parts: &RegexList,
    between: u8,
    most: Looseness,
) -> Result<(), Memory>
    ensures { OnOk result (text.new.items ≡ text.old.items ++ join_with_byte between (map (λ part. enclosed most (part_of (regex_tree part))) parts.now.items)) }
{
    for (i, part) in parts.iter().enumerate() {
        write_between(text, between, i)?;
        write_part(text, part, most)?;
    }
    Ok(())
}

// The byte, but not before the first part.
fn write_between(text: &mut Vec<u8>, between: u8, i: usize) -> Result<(), Memory>
    ensures { OnOk result (text.new.items ≡ text.old.items ++ byte_before i between) }
{
    if i > 0 {
        text.push(between)?;
    }
    Ok(())
}

#[tactic(auto, unfolding(gc_regx::specs::Views::regex_tree, crate::specs::RegexTexts::text_of))]
#[cycle(regexes)]
// A part, in parentheses where it is looser than allowed.
fn write_part(text: &mut Vec<u8>, part: &Regex, most: Looseness) -> Result<(), Memory>
    ensures { OnOk result (text.new.items ≡ text.old.items ++ enclosed most (part_of (regex_tree part.now))) }
{
    if !is_looser(looseness_of(part), most) {
        return write_regex(text, part);
    }
    text.push(b'(')?;
    write_regex(text, part)?;
    text.push(b')')?;
    Ok(())
}

// Pieces one after another.
fn write_all(text: &mut Vec<u8>, pieces: &[&[u8]]) -> Result<(), Memory>
    ensures { OnOk result (text.new.items ≡ text.old.items ++ flat_map (λ piece. piece.now) pieces.now) }
{
    for piece in pieces {
        text.extend_from_slice(piece)?;
    }
    Ok(())
}
