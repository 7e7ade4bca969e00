//! Writing the lists of a query that hold no expression.
ghost use Rattle.std.specs.Prelude.{◌≡◌, ◌+◌, ◌∷◌, ◌++◌, [], OnOk, IfOk, map, codes};
ghost use Rattle.std.specs.List.{flat_map};
ghost use Rattle.gc_expr.specs.Views.{name_of};
ghost use Rattle.gc_ast.specs.PatternViews.{group_term_tree, located_tree, pattern_tree};
ghost use Rattle.gc_lex.specs.declared.token.Mark.TheVariants as mark;
ghost use Rattle.gc_print_query.specs.Pieces.{Blank, joined, written};
ghost use Rattle.gc_print_query.specs.ExpressionPieces.{mark_piece, word};
ghost use Rattle.gc_print_query.specs.QueryPieces.{grouped, lined, pieces_of};

use crate::names::{write_comma, write_comma_line, write_name, write_property_if};
use crate::patterns::{write_chain, write_located};
use crate::pieces::{write_blank, write_mark, write_word};
use gc_ast::{Chain, GroupTerm, GroupTermList, Located, NameTable};
use gc_base::{Memory, NameAt};
use gc_lex::Mark;

/// One more than the depth of a line, which is no memory where it is beyond all numbers.
pub(crate) fn deeper(depth: usize) -> Result<usize, Memory>
    ensures { IfOk result (λ next. next ≡ depth + 1) }
{
    if depth == usize::MAX {
        return Err(Memory);
    }
    Ok(depth + 1)
}

/// Chains with their graphs, each on a line.
pub(crate) fn write_located_list(
    text: &mut Vec<u8>,
    names: &NameTable,
    depth: usize,
    list: &[Located],
) -> Result<(), Memory>
    ensures { OnOk result (text.new.items ≡ written text.old.items (lined depth (map (λ l. pieces_of 0 (located_tree names.now l)) list.now))) }
{
    for (i, located) in list.iter().enumerate() {
        write_comma_line(text, i, depth)?;
        write_located(text, names, located)?;
    }
    Ok(())
}

/// Chains, each on a line.
pub(crate) fn write_chains(
    text: &mut Vec<u8>,
    names: &NameTable,
    depth: usize,
    chains: &[Chain],
) -> Result<(), Memory>
    ensures { OnOk result (text.new.items ≡ written text.old.items
        (lined depth (map (λ c. flat_map (λ p. pieces_of 0 (pattern_tree names.now p)) c.parts) chains.now))) }
{
    for (i, chain) in chains.iter().enumerate() {
        write_comma_line(text, i, depth)?;
        write_chain(text, names, chain)?;
    }
    Ok(())
}

#[tactic(auto, unfolding(crate::specs::QueryPieces::pieces_of))]
// A term to group by.
fn write_group_term(text: &mut Vec<u8>, names: &NameTable, term: &GroupTerm) -> Result<(), Memory>
    ensures { OnOk result (text.new.items ≡ written text.old.items (pieces_of 0 (group_term_tree names.now term.now))) }
{
    write_name(text, names, term.name.sym)?;
    write_property_if(text, &term.property)
}

// Terms to group by.
fn write_group_terms(
    text: &mut Vec<u8>,
    names: &NameTable,
    terms: &[GroupTerm],
) -> Result<(), Memory>
    ensures { OnOk result (text.new.items ≡ written text.old.items
        (joined (mark_piece mark.Comma ∷ Blank ∷ []) (map (λ t. pieces_of 0 (group_term_tree names.now t)) terms.now))) }
{
    for (i, term) in terms.iter().enumerate() {
        write_comma(text, i)?;
        write_group_term(text, names, term)?;
    }
    Ok(())
}

/// GROUP and its terms, if there are any.
pub(crate) fn write_grouped(
    text: &mut Vec<u8>,
    names: &NameTable,
    terms: &GroupTermList,
) -> Result<(), Memory>
    ensures { OnOk result (text.new.items ≡ written text.old.items (grouped (map (λ t. pieces_of 0 (group_term_tree names.now t)) terms.now))) }
{
    if terms.len() == 0 {
        return Ok(());
    }
    write_blank(text)?;
    write_word(text, b"GROUP")?;
    write_blank(text)?;
    write_group_terms(text, names, terms.as_slice())
}

/// `PATH v = ` and the chains of a view.
pub(crate) fn write_path(
    text: &mut Vec<u8>,
    names: &NameTable,
    depth: usize,
    name: &NameAt,
    chains: &[Chain],
) -> Result<(), Memory>
    ensures { OnOk result (text.new.items ≡ written text.old.items
        ((word (codes "PATH") ∷ Blank ∷ word (name_of names.now name.now.sym) ∷ Blank ∷ mark_piece mark.Equals ∷ Blank ∷ []) ++ lined depth
        (map (λ c. flat_map (λ p. pieces_of 0 (pattern_tree names.now p)) c.parts) chains.now))) }
{
    write_path_name(text, names, name)?;
    write_chains(text, names, depth, chains)
}

// `PATH v = `
fn write_path_name(text: &mut Vec<u8>, names: &NameTable, name: &NameAt) -> Result<(), Memory>
    ensures { OnOk result (text.new.items ≡ written text.old.items
        (word (codes "PATH") ∷ Blank ∷ word (name_of names.now name.now.sym) ∷ Blank ∷ mark_piece mark.Equals ∷ Blank ∷ [])) }
{
    write_word(text, b"PATH")?;
    write_blank(text)?;
    write_name(text, names, name.sym)?;
    write_blank(text)?;
    write_mark(text, Mark::Equals)?;
    write_blank(text)
}
