//! Writing query files.
ghost use Rattle.std.specs.Prelude.{◌≡◌, OnOk, IfOk, map};
ghost use Rattle.std.specs.List.{flat_map};
ghost use Rattle.gc_ast.specs.QueryViews.{file_trees, statement_tree};
ghost use Rattle.gc_print_query.specs.Pieces.{written};
ghost use Rattle.gc_print_query.specs.QueryPieces.{pieces_of, statement_pieces};
ghost use Rattle.gc_print_query.specs.WrittenFiles.{file_text};

use crate::pieces::{write_blank, write_line, write_mark, write_word};
use crate::queries::{write_named_query, write_query};
use gc_ast::{File, NameTable, Statement, StatementList};
use gc_base::{Bytes, Memory};
use gc_lex::Mark;
use std::alloc::Global;

/// The text of a query file: each statement with a `;` and a line feed behind it, each clause on a
/// line of its own, queries in parentheses on lines that begin further to the right, and parentheses
/// only where the grammar needs them.
pub fn print_query(alloc: Global, file: &File) -> Result<Bytes, Memory>
    ensures { IfOk result (λ text. text ≡ file_text (file_trees file.now)) }
{
    let mut text = Vec::new(alloc);
    write_statements(&mut text, &file.names, &file.statements)?;
    Ok(Bytes::from_vec(text))
}

// The statements of a file.
fn write_statements(
    text: &mut Vec<u8>,
    names: &NameTable,
    statements: &StatementList,
) -> Result<(), Memory>
    ensures { OnOk result (text.new.items ≡ written text.old.items (flat_map (λ s. statement_pieces (statement_tree names.now s)) statements.now.items)) }
{
    for statement in statements {
        write_ended(text, names, statement)?;
    }
    Ok(())
}

// A statement and the `;` that ends it.
fn write_ended(text: &mut Vec<u8>, names: &NameTable, statement: &Statement) -> Result<(), Memory>
    ensures { OnOk result (text.new.items ≡ written text.old.items (statement_pieces (statement_tree names.now statement.now))) }
{
    write_statement(text, names, statement)?;
    write_mark(text, Mark::Semicolon)?;
    write_line(text, 0)
}

#[tactic(auto, unfolding(crate::specs::QueryPieces::pieces_of))]
// A statement.
fn write_statement(
    text: &mut Vec<u8>,
    names: &NameTable,
    statement: &Statement,
) -> Result<(), Memory>
    ensures { OnOk result (text.new.items ≡ written text.old.items (pieces_of 0 (statement_tree names.now statement.now))) }
{
    match statement {
        Statement::View { name, query } => {
            write_word(text, b"GRAPH")?;
            write_blank(text)?;
            write_word(text, b"VIEW")?;
            write_blank(text)?;
            write_named_query(text, names, 0, name, query)
        }
        Statement::Ask(query) => write_query(text, names, 0, query),
    }
}
