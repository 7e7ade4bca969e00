//! Writing patterns.
ghost use Rattle.std.specs.Prelude.{◌≡◌, ◌∷◌, [], OnOk, map, codes};
ghost use Rattle.std.specs.List.{flat_map};
ghost use Rattle.gc_expr.specs.Views.{name_of};
ghost use Rattle.gc_ast.specs.PatternViews.{body_by, element_by, pattern_tree, property_use_by, located_tree};
ghost use Rattle.gc_lex.specs.declared.token.Mark.TheVariants as mark;
ghost use Rattle.gc_lex.specs.declared.token.Token.TheVariants.{Number};
ghost use Rattle.gc_print_query.specs.Pieces.{Blank, Lexeme, joined, written};
ghost use Rattle.gc_print_query.specs.ExpressionPieces.{mark_piece, word};
ghost use Rattle.gc_print_query.specs.QueryPieces.{braced, count_if, edge_end, edge_start, path_end, path_start, pieces_of};

use crate::names::{write_comma, write_label_groups, write_name, write_name_if, write_named_if};
use crate::pieces::{write_angled, write_blank, write_mark, write_number, write_word};
use gc_ast::{
    Chain, CountAt, Element, Located, NameTable, PathBody, Pattern, PropertyUse, PropertyUseList,
};
use gc_base::{Direction, Memory};
use gc_lex::Mark;

#[tactic(auto, unfolding(crate::specs::QueryPieces::pieces_of))]
// `k = v`
fn write_property(
    text: &mut Vec<u8>,
    names: &NameTable,
    property: &PropertyUse,
) -> Result<(), Memory>
    ensures { OnOk result (text.new.items ≡ written text.old.items (pieces_of 0 (property_use_by (name_of names.now) property.now))) }
{
    write_word(text, property.property.bytes())?;
    write_blank(text)?;
    write_mark(text, Mark::Equals)?;
    write_blank(text)?;
    write_name(text, names, property.value.sym)
}

// Properties with commas between them.
fn write_property_list(
    text: &mut Vec<u8>,
    names: &NameTable,
    properties: &[PropertyUse],
) -> Result<(), Memory>
    ensures { OnOk result (text.new.items ≡ written text.old.items (joined (mark_piece mark.Comma ∷ Blank ∷ [])
        (map (λ p. pieces_of 0 (property_use_by (name_of names.now) p)) properties.now))) }
{
    for (i, property) in properties.iter().enumerate() {
        write_comma(text, i)?;
        write_property(text, names, property)?;
    }
    Ok(())
}

#[tactic(auto, using(crate::proofs::WrittenPieces::written_append))]
// The same in braces, if there are any.
fn write_properties(
    text: &mut Vec<u8>,
    names: &NameTable,
    properties: &PropertyUseList,
) -> Result<(), Memory>
    ensures { OnOk result (text.new.items ≡ written text.old.items (braced (map (λ p. pieces_of 0 (property_use_by (name_of names.now) p)) properties.now))) }
{
    if properties.len() == 0 {
        return Ok(());
    }
    write_blank(text)?;
    write_mark(text, Mark::OpenBrace)?;
    write_property_list(text, names, properties.as_slice())?;
    write_mark(text, Mark::CloseBrace)
}

#[tactic(auto, using(crate::proofs::WrittenPieces::written_append), unfolding(crate::specs::QueryPieces::pieces_of))]
// What a node or an edge asks for.
fn write_element(text: &mut Vec<u8>, names: &NameTable, element: &Element) -> Result<(), Memory>
    ensures { OnOk result (text.new.items ≡ written text.old.items (pieces_of 0 (element_by (name_of names.now) element.now))) }
{
    write_name_if(text, names, &element.name)?;
    write_label_groups(text, &element.labels)?;
    write_properties(text, names, &element.properties)
}

/// The arrow of an edge, up to its brackets.
pub(crate) fn write_edge_start(text: &mut Vec<u8>, way: Direction) -> Result<(), Memory>
    ensures { OnOk result (text.new.items ≡ written text.old.items (edge_start way)) }
{
    if way == Direction::Backward {
        write_mark(text, Mark::Less)?;
    }
    write_mark(text, Mark::Minus)?;
    write_mark(text, Mark::OpenBracket)
}

/// The arrow of an edge, behind what is between its brackets.
pub(crate) fn write_edge_end(text: &mut Vec<u8>, way: Direction) -> Result<(), Memory>
    ensures { OnOk result (text.new.items ≡ written text.old.items (edge_end way)) }
{
    write_mark(text, Mark::CloseBracket)?;
    write_mark(text, Mark::Minus)?;
    if way == Direction::Forward {
        write_mark(text, Mark::Greater)?;
    }
    Ok(())
}

/// The arrow of a path, up to what it has.
pub(crate) fn write_path_start(text: &mut Vec<u8>) -> Result<(), Memory>
    ensures { OnOk result (text.new.items ≡ written text.old.items path_start) }
{
    write_mark(text, Mark::Minus)?;
    write_mark(text, Mark::Slash)
}

/// The arrow of a path, behind what it has.
pub(crate) fn write_path_end(text: &mut Vec<u8>) -> Result<(), Memory>
    ensures { OnOk result (text.new.items ≡ written text.old.items path_end) }
{
    write_mark(text, Mark::Slash)?;
    write_mark(text, Mark::Minus)?;
    write_mark(text, Mark::Greater)
}

// `3 SHORTEST`
fn write_count(text: &mut Vec<u8>, count: &CountAt) -> Result<(), Memory>
    ensures { OnOk result (text.new.items ≡ written text.old.items (Lexeme (Number count.now.count) ∷ Blank ∷ word (codes "SHORTEST") ∷ Blank ∷ [])) }
{
    write_number(text, count.count)?;
    write_blank(text)?;
    write_word(text, b"SHORTEST")?;
    write_blank(text)
}

// The same, if there is one.
fn write_count_if(text: &mut Vec<u8>, count: &Option<CountAt>) -> Result<(), Memory>
    ensures { OnOk result (text.new.items ≡ written text.old.items (count_if count.now)) }
{
    match count {
        None => Ok(()),
        Some(count) => write_count(text, count),
    }
}

#[tactic(auto, using(crate::proofs::WrittenPieces::written_append), unfolding(crate::specs::QueryPieces::pieces_of))]
// What a path asks for.
fn write_body(text: &mut Vec<u8>, names: &NameTable, body: &PathBody) -> Result<(), Memory>
    ensures { OnOk result (text.new.items ≡ written text.old.items (pieces_of 0 (body_by (name_of names.now) body.now))) }
{
    match body {
        PathBody::Reach { regex, views: _ } => write_angled(text, regex),
        PathBody::Found {
            k,
            name,
            regex,
            views: _,
            cost,
        } => {
            write_count_if(text, k)?;
            write_name(text, names, name.sym)?;
            write_angled(text, regex)?;
            write_named_if(text, names, b"COST", cost)
        }
        PathBody::All {
            name,
            regex,
            views: _,
        } => {
            write_word(text, b"ALL")?;
            write_blank(text)?;
            write_name(text, names, name.sym)?;
            write_angled(text, regex)
        }
        PathBody::Stored { name, labels } => {
            write_mark(text, Mark::AtSign)?;
            write_name(text, names, name.sym)?;
            write_label_groups(text, labels)
        }
    }
}

#[tactic(auto, using(crate::proofs::WrittenPieces::written_append), unfolding(crate::specs::QueryPieces::pieces_of))]
// A node or a link.
fn write_pattern(text: &mut Vec<u8>, names: &NameTable, pattern: &Pattern) -> Result<(), Memory>
    ensures { OnOk result (text.new.items ≡ written text.old.items (pieces_of 0 (pattern_tree names.now pattern.now))) }
{
    match pattern {
        Pattern::Node(element) => {
            write_mark(text, Mark::OpenParenthesis)?;
            write_element(text, names, element)?;
            write_mark(text, Mark::CloseParenthesis)
        }
        Pattern::Edge { way, element } => {
            write_edge_start(text, *way)?;
            write_element(text, names, element)?;
            write_edge_end(text, *way)
        }
        Pattern::Path {
            token: _,
            regex_at: _,
            body,
        } => {
            write_path_start(text)?;
            write_body(text, names, body)?;
            write_path_end(text)
        }
    }
}

/// A chain of nodes and links.
pub(crate) fn write_chain(
    text: &mut Vec<u8>,
    names: &NameTable,
    chain: &Chain,
) -> Result<(), Memory>
    ensures { OnOk result (text.new.items ≡ written text.old.items (flat_map (λ p. pieces_of 0 (pattern_tree names.now p)) chain.now.parts)) }
{
    for pattern in chain.parts.as_slice() {
        write_pattern(text, names, pattern)?;
    }
    Ok(())
}

#[tactic(auto, using(crate::proofs::WrittenPieces::written_append, crate::proofs::PatternPieces::chain_pieces), unfolding(crate::specs::QueryPieces::pieces_of))]
/// A chain with its graph.
pub(crate) fn write_located(
    text: &mut Vec<u8>,
    names: &NameTable,
    located: &Located,
) -> Result<(), Memory>
    ensures { OnOk result (text.new.items ≡ written text.old.items (pieces_of 0 (located_tree names.now located.now))) }
{
    write_chain(text, names, &located.chain)?;
    write_named_if(text, names, b"ON", &located.on)
}
