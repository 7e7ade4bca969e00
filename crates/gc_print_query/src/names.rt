//! Writing names and labels.
ghost use Rattle.std.specs.Prelude.{◌≡◌, ◌∷◌, [], OnOk, map};
ghost use Rattle.std.specs.List.{flat_map};
ghost use Rattle.gc_expr.specs.Views.{name_of};
ghost use Rattle.gc_ast.specs.PatternViews.{named_if};
ghost use Rattle.gc_lex.specs.declared.token.Mark.TheVariants as mark;
ghost use Rattle.gc_print_query.specs.Pieces.{Blank, Line, before_list, joined, with_piece, written};
ghost use Rattle.gc_print_query.specs.ExpressionPieces.{word, mark_piece};
ghost use Rattle.gc_print_query.specs.QueryPieces.{copy_if, label, label_group, name_if, named_if as named_pieces, property_if};

use crate::pieces::{write_blank, write_line, write_mark, write_word};
use gc_ast::NameTable;
use gc_base::{LabelGroupList, Memory, Name, NameAt, NameList, Sym};
use gc_lex::Mark;

/// The name of a number.
pub(crate) fn write_name(text: &mut Vec<u8>, names: &NameTable, sym: Sym) -> Result<(), Memory>
    ensures { OnOk result (text.new.items ≡ with_piece text.old.items (word (name_of names.now sym))) }
{
    match names.as_slice().get(sym.0 as usize) {
        None => write_word(text, b""),
        Some(name) => write_word(text, name.bytes()),
    }
}

/// A name, if there is one.
pub(crate) fn write_name_if(
    text: &mut Vec<u8>,
    names: &NameTable,
    name: &Option<NameAt>,
) -> Result<(), Memory>
    ensures { OnOk result (text.new.items ≡ written text.old.items (name_if (named_if names.now name.now))) }
{
    match name {
        None => Ok(()),
        Some(name) => write_name(text, names, name.sym),
    }
}

/// A word and a name behind it, if there is one.
pub(crate) fn write_named_if(
    text: &mut Vec<u8>,
    names: &NameTable,
    bytes: &[u8],
    name: &Option<NameAt>,
) -> Result<(), Memory>
    ensures { OnOk result (text.new.items ≡ written text.old.items (named_pieces bytes.now (named_if names.now name.now))) }
{
    match name {
        None => Ok(()),
        Some(name) => {
            write_blank(text)?;
            write_word(text, bytes)?;
            write_blank(text)?;
            write_name(text, names, name.sym)
        }
    }
}

/// `=` and a name, if there is one.
pub(crate) fn write_copy_if(
    text: &mut Vec<u8>,
    names: &NameTable,
    name: &Option<NameAt>,
) -> Result<(), Memory>
    ensures { OnOk result (text.new.items ≡ written text.old.items (copy_if (named_if names.now name.now))) }
{
    match name {
        None => Ok(()),
        Some(name) => {
            write_mark(text, Mark::Equals)?;
            write_name(text, names, name.sym)
        }
    }
}

/// `.` and a property, if there is one.
pub(crate) fn write_property_if(text: &mut Vec<u8>, property: &Option<Name>) -> Result<(), Memory>
    ensures { OnOk result (text.new.items ≡ written text.old.items (property_if property.now)) }
{
    match property {
        None => Ok(()),
        Some(property) => {
            write_mark(text, Mark::Dot)?;
            write_word(text, property.bytes())
        }
    }
}

/// A comma and a space, but not before the first of a list.
pub(crate) fn write_comma(text: &mut Vec<u8>, i: usize) -> Result<(), Memory>
    ensures { OnOk result (text.new.items ≡ written text.old.items (before_list i (mark_piece mark.Comma ∷ Blank ∷ []))) }
{
    if i > 0 {
        write_mark(text, Mark::Comma)?;
        write_blank(text)?;
    }
    Ok(())
}

/// A comma and a line, but not before the first of a list.
pub(crate) fn write_comma_line(text: &mut Vec<u8>, i: usize, depth: usize) -> Result<(), Memory>
    ensures { OnOk result (text.new.items ≡ written text.old.items (before_list i (mark_piece mark.Comma ∷ Line depth ∷ []))) }
{
    if i > 0 {
        write_mark(text, Mark::Comma)?;
        write_line(text, depth)?;
    }
    Ok(())
}

// A `|`, but not before the first of a list.
fn write_bar(text: &mut Vec<u8>, i: usize) -> Result<(), Memory>
    ensures { OnOk result (text.new.items ≡ written text.old.items (before_list i (mark_piece mark.Bar ∷ []))) }
{
    if i > 0 {
        write_mark(text, Mark::Bar)?;
    }
    Ok(())
}

// Words with `|` between them.
fn write_choices(text: &mut Vec<u8>, words: &[Name]) -> Result<(), Memory>
    ensures { OnOk result (text.new.items ≡ written text.old.items (joined (mark_piece mark.Bar ∷ []) (map (λ w. word w ∷ []) words.now))) }
{
    for (i, name) in words.iter().enumerate() {
        write_bar(text, i)?;
        write_word(text, name.bytes())?;
    }
    Ok(())
}

// `:A|B`
fn write_label_group(text: &mut Vec<u8>, group: &NameList) -> Result<(), Memory>
    ensures { OnOk result (text.new.items ≡ written text.old.items (label_group group.now)) }
{
    write_mark(text, Mark::Colon)?;
    write_choices(text, group.as_slice())
}

/// The labels of a pattern.
pub(crate) fn write_label_groups(text: &mut Vec<u8>, groups: &LabelGroupList) -> Result<(), Memory>
    ensures { OnOk result (text.new.items ≡ written text.old.items (flat_map label_group groups.now)) }
{
    for group in groups.as_slice() {
        write_label_group(text, group)?;
    }
    Ok(())
}

/// A label.
pub(crate) fn write_label(text: &mut Vec<u8>, name: &Name) -> Result<(), Memory>
    ensures { OnOk result (text.new.items ≡ written text.old.items (label name.now)) }
{
    write_mark(text, Mark::Colon)?;
    write_word(text, name.bytes())
}

/// Labels one after another.
pub(crate) fn write_labels(text: &mut Vec<u8>, labels: &NameList) -> Result<(), Memory>
    ensures { OnOk result (text.new.items ≡ written text.old.items (flat_map label labels.now)) }
{
    for name in labels.as_slice() {
        write_label(text, name)?;
    }
    Ok(())
}
