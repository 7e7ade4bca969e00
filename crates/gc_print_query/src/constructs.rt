//! Writing what a CONSTRUCT makes.
ghost use Rattle.std.specs.Prelude.{◌≡◌, ◌+◌, ◌∷◌, [], OnOk, map};
ghost use Rattle.std.specs.List.{flat_map};
ghost use Rattle.gc_expr.specs.Views.{name_of};
ghost use Rattle.gc_lex.specs.declared.token.Mark.TheVariants as mark;
ghost use Rattle.gc_ast.specs.QueryViews.{assign_tree, change_tree, item_tree, new_element_tree, part_tree};
ghost use Rattle.gc_print_query.specs.Pieces.{Blank, Line, joined, written};
ghost use Rattle.gc_print_query.specs.ExpressionPieces.{mark_piece, word};
ghost use Rattle.gc_print_query.specs.QueryPieces.{braced, lined, path, pieces_of};

use crate::lists::{deeper, write_grouped};
use crate::names::{
    write_comma, write_comma_line, write_copy_if, write_label, write_labels, write_name,
    write_name_if,
};
use crate::patterns::{write_edge_end, write_edge_start, write_path_end, write_path_start};
use crate::pieces::{write_blank, write_line, write_mark, write_word};
use crate::queries::{write_clause, write_formula};
use gc_ast::{
    Assign, AssignList, Change, ChangeList, ConstructPart, ConstructPartList, Item, ItemList,
    NameTable, NewElement,
};
use gc_base::{Memory, NameAt};
use gc_lex::Mark;

#[cycle(queries)]
/// The items of a CONSTRUCT, each on a line.
pub(crate) fn write_items(
    text: &mut Vec<u8>,
    names: &NameTable,
    depth: usize,
    items: &ItemList,
) -> Result<(), Memory>
    ensures { OnOk result (text.new.items ≡ written text.old.items (lined (depth + 1) (map (λ x. pieces_of depth (item_tree names.now x)) items.now.items))) }
{
    let next = deeper(depth)?;
    for (i, item) in items.iter().enumerate() {
        write_comma_line(text, i, next)?;
        write_item(text, names, depth, item)?;
    }
    Ok(())
}

#[tactic(auto, unfolding(gc_ast::specs::QueryViews::item_by, crate::specs::QueryPieces::pieces_of))]
#[cycle(queries)]
// A named graph, or a chain with its changes and its condition.
fn write_item(
    text: &mut Vec<u8>,
    names: &NameTable,
    depth: usize,
    item: &Item,
) -> Result<(), Memory>
    ensures { OnOk result (text.new.items ≡ written text.old.items (pieces_of depth (item_tree names.now item.now))) }
{
    match item {
        Item::Graph(name) => write_name(text, names, name.sym),
        Item::Chain {
            parts,
            changes,
            when,
        } => {
            let next = deeper(depth)?;
            write_construct_parts(text, names, depth, parts)?;
            write_changes(text, names, depth, changes)?;
            write_clause(text, names, next, depth, b"WHEN", when)
        }
    }
}

#[cycle(queries)]
// The nodes and links of a chain.
fn write_construct_parts(
    text: &mut Vec<u8>,
    names: &NameTable,
    depth: usize,
    parts: &ConstructPartList,
) -> Result<(), Memory>
    ensures { OnOk result (text.new.items ≡ written text.old.items (flat_map (λ p. pieces_of depth (part_tree names.now p)) parts.now.items)) }
{
    for part in parts {
        write_construct_part(text, names, depth, part)?;
    }
    Ok(())
}

#[tactic(auto, unfolding(gc_ast::specs::QueryViews::part_by, gc_ast::specs::QueryViews::new_element_by, crate::specs::QueryPieces::pieces_of))]
#[cycle(queries)]
// A node or a link of a chain.
fn write_construct_part(
    text: &mut Vec<u8>,
    names: &NameTable,
    depth: usize,
    part: &ConstructPart,
) -> Result<(), Memory>
    ensures { OnOk result (text.new.items ≡ written text.old.items (pieces_of depth (part_tree names.now part.now))) }
{
    match part {
        ConstructPart::Node(element) => {
            write_mark(text, Mark::OpenParenthesis)?;
            write_new_element(text, names, depth, element)?;
            write_mark(text, Mark::CloseParenthesis)
        }
        ConstructPart::Edge { way, element } => {
            write_edge_start(text, *way)?;
            write_new_element(text, names, depth, element)?;
            write_edge_end(text, *way)
        }
        ConstructPart::Projected { token: _, name } => write_projected(text, names, name),
        ConstructPart::Stored {
            token: _,
            name,
            labels,
            assigns,
        } => {
            write_path_start(text)?;
            write_mark(text, Mark::AtSign)?;
            write_name(text, names, name.sym)?;
            write_labels(text, labels)?;
            write_assigns(text, names, depth, assigns)?;
            write_path_end(text)
        }
    }
}

// `-/p/->`
fn write_projected(text: &mut Vec<u8>, names: &NameTable, name: &NameAt) -> Result<(), Memory>
    ensures { OnOk result (text.new.items ≡ written text.old.items (path (word (name_of names.now name.now.sym) ∷ []))) }
{
    write_path_start(text)?;
    write_name(text, names, name.sym)?;
    write_path_end(text)
}

#[cycle(queries)]
// What a node or an edge is to be.
fn write_new_element(
    text: &mut Vec<u8>,
    names: &NameTable,
    depth: usize,
    element: &NewElement,
) -> Result<(), Memory>
    ensures { OnOk result (text.new.items ≡ written text.old.items (pieces_of depth (new_element_tree names.now element.now))) }
{
    write_name_if(text, names, &element.name)?;
    write_copy_if(text, names, &element.copy)?;
    write_grouped(text, names, &element.group)?;
    write_labels(text, &element.labels)?;
    write_assigns(text, names, depth, &element.assigns)
}

#[cycle(queries)]
// Properties in braces, if there are any.
fn write_assigns(
    text: &mut Vec<u8>,
    names: &NameTable,
    depth: usize,
    assigns: &AssignList,
) -> Result<(), Memory>
    ensures { OnOk result (text.new.items ≡ written text.old.items (braced (map (λ a. pieces_of depth (assign_tree names.now a)) assigns.now.items))) }
{
    if assigns.len() == 0 {
        return Ok(());
    }
    write_blank(text)?;
    write_mark(text, Mark::OpenBrace)?;
    write_assign_list(text, names, depth, assigns)?;
    write_mark(text, Mark::CloseBrace)
}

#[cycle(queries)]
// Properties with commas between them.
fn write_assign_list(
    text: &mut Vec<u8>,
    names: &NameTable,
    depth: usize,
    assigns: &AssignList,
) -> Result<(), Memory>
    ensures { OnOk result (text.new.items ≡ written text.old.items (joined (mark_piece mark.Comma ∷ Blank ∷ [])
        (map (λ a. pieces_of depth (assign_tree names.now a)) assigns.now.items))) }
{
    for (i, assign) in assigns.iter().enumerate() {
        write_comma(text, i)?;
        write_assign(text, names, depth, assign)?;
    }
    Ok(())
}

#[tactic(auto, unfolding(gc_ast::specs::QueryViews::assign_by, gc_ast::specs::QueryViews::formula_by, crate::specs::QueryPieces::pieces_of))]
#[cycle(queries)]
// `k := e`
fn write_assign(
    text: &mut Vec<u8>,
    names: &NameTable,
    depth: usize,
    assign: &Assign,
) -> Result<(), Memory>
    ensures { OnOk result (text.new.items ≡ written text.old.items (pieces_of depth (assign_tree names.now assign.now))) }
{
    write_word(text, assign.property.bytes())?;
    write_blank(text)?;
    write_mark(text, Mark::Assign)?;
    write_blank(text)?;
    write_formula(text, names, depth, &assign.value)
}

#[cycle(queries)]
// Changes, each on a line.
fn write_changes(
    text: &mut Vec<u8>,
    names: &NameTable,
    depth: usize,
    changes: &ChangeList,
) -> Result<(), Memory>
    ensures { OnOk result (text.new.items ≡ written text.old.items
        (flat_map (λ c. Line (depth + 1) ∷ pieces_of depth (change_tree names.now c)) changes.now.items)) }
{
    let next = deeper(depth)?;
    for change in changes {
        write_line(text, next)?;
        write_change(text, names, depth, change)?;
    }
    Ok(())
}

#[tactic(auto, unfolding(gc_ast::specs::QueryViews::change_by, gc_ast::specs::QueryViews::assign_by, crate::specs::QueryPieces::pieces_of))]
#[cycle(queries)]
// SET or REMOVE.
fn write_change(
    text: &mut Vec<u8>,
    names: &NameTable,
    depth: usize,
    change: &Change,
) -> Result<(), Memory>
    ensures { OnOk result (text.new.items ≡ written text.old.items (pieces_of depth (change_tree names.now change.now))) }
{
    match change {
        Change::Assign { target, assign } => {
            write_changed(text, names, b"SET", target)?;
            write_mark(text, Mark::Dot)?;
            write_assign(text, names, depth, assign)
        }
        Change::AddLabel { target, label } => {
            write_changed(text, names, b"SET", target)?;
            write_label(text, label)
        }
        Change::DropProperty { target, property } => {
            write_changed(text, names, b"REMOVE", target)?;
            write_mark(text, Mark::Dot)?;
            write_word(text, property.bytes())
        }
        Change::DropLabel { target, label } => {
            write_changed(text, names, b"REMOVE", target)?;
            write_label(text, label)
        }
    }
}

// A word and the name of what is changed.
fn write_changed(
    text: &mut Vec<u8>,
    names: &NameTable,
    bytes: &[u8],
    target: &NameAt,
) -> Result<(), Memory>
    ensures { OnOk result (text.new.items ≡ written text.old.items (word bytes.now ∷ Blank ∷ word (name_of names.now target.now.sym) ∷ [])) }
{
    write_word(text, bytes)?;
    write_blank(text)?;
    write_name(text, names, target.sym)
}
