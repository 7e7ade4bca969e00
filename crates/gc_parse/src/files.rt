ghost use Rattle.std.specs.Prelude.{◌≡◌, ◌-◌, ◌<◌, ◌∷◌, [], drop, map};
ghost use Rattle.std.specs.Option.{option_map};
ghost use Rattle.gc_ast.specs.QueryViews.{statement_tree};
ghost use Rattle.gc_parse_readers.specs.Readers.{in_front};
ghost use Rattle.gc_parse_readers.specs.LaterReaders.{ended, read_next, read_unless_ended};
ghost use Rattle.gc_parse_readers.specs.QueryReaders.{nested, read_file, read_later, read_statement, read_view_statement};
ghost use Rattle.gc_parse_source.specs.Results.{Gives};
ghost use Rattle.gc_parse_readers.specs.Points.{bare};

use crate::queries::{named_query, query};
use gc_ast::{Statement, StatementList};
use gc_lex::Mark;
use gc_parse_source::{Refusal, Source, is_view_at, one};

#[tactic(auto, unfolding(gc_parse_readers::specs::QueryReaders::read_view_statement))]
// `GRAPH` `VIEW` name `AS` `(` query `)`
fn view_statement(source: &Source, room: u64, at: u32) -> Result<(Statement, u32), Refusal>
    requires { 0 < room }
    ensures { Gives (statement_tree source.now.names) source.now.tokens result
        (read_view_statement (nested (room - 1)) (bare at) (drop at source.now.tokens)) }
{
    let at = source.the_word(at, "GRAPH")?;
    let at = source.the_word(at, "VIEW")?;
    let ((name, query), at) = named_query(source, room, at)?;
    Ok((Statement::view(name, query), at))
}

#[tactic(auto, unfolding(gc_parse_readers::specs::QueryReaders::read_statement))]
// statement = `GRAPH` `VIEW` name `AS` `(` query `)` | query
fn statement(source: &Source, room: u64, at: u32) -> Result<(Statement, u32), Refusal>
    requires { 0 < room }
    ensures { Gives (statement_tree source.now.names) source.now.tokens result
        (read_statement room (nested (room - 1)) (bare at) (drop at source.now.tokens)) }
{
    if is_view_at(source, at) {
        return view_statement(source, room, at);
    }
    let (query, at) = query(source, room, at)?;
    Ok((Statement::ask(query), at))
}

#[tactic(auto, unfolding(gc_parse_readers::specs::QueryReaders::read_file))]
// file = statement { `;` statement } [ `;` ]
pub(crate) fn file_statements(
    source: &Source,
    room: u64,
    at: u32,
) -> Result<(StatementList, u32), Refusal>
    requires { 0 < room }
    ensures { Gives (λ statements. map (statement_tree source.now.names) statements.items) source.now.tokens result
        (read_file room (nested (room - 1)) (bare at) (drop at source.now.tokens)) }
{
    let (first, at) = statement(source, room, at)?;
    let (statements, at) = later_statements(source, room, at, first)?;
    Ok((statements, at))
}

// { `;` statement } [ `;` ] behind a first statement, up to the end
fn later_statements(
    source: &Source,
    room: u64,
    from: u32,
    first: Statement,
) -> Result<(StatementList, u32), Refusal>
    requires { 0 < room }
    ensures { Gives (λ statements. map (statement_tree source.now.names) statements.items) source.now.tokens result
        (in_front (statement_tree source.now.names first ∷ []) (read_later (read_statement room (nested (room - 1))) room (bare from)
        (drop from source.now.tokens))) }
{
    let mut statements = one(source.alloc(), first)?;
    let mut at = from;
    for _ in 0..room {
        let (found, next) = next_statement(source, room, at)?;
        let Some(statement) = found else {
            return Ok((statements, next));
        };
        statements.push(statement)?;
        at = next;
    }
    Err(Refusal::Syntax(at))
}

// [ `;` [ statement ] ], of which what is absent is the end
fn next_statement(source: &Source, room: u64, at: u32) -> Result<(Option<Statement>, u32), Refusal>
    requires { 0 < room }
    ensures { Gives (λ found. option_map (statement_tree source.now.names) found) source.now.tokens result
        (read_next (read_statement room (nested (room - 1))) (bare at) (drop at source.now.tokens)) }
{
    if is_end(source, at) {
        return Ok((None, at));
    }
    let at = source.mark(at, Mark::Semicolon)?;
    let (found, at) = statement_if(source, room, at)?;
    Ok((found, at))
}

// [ statement ], which is absent at the end
fn statement_if(source: &Source, room: u64, at: u32) -> Result<(Option<Statement>, u32), Refusal>
    requires { 0 < room }
    ensures { Gives (λ found. option_map (statement_tree source.now.names) found) source.now.tokens result
        (read_unless_ended (read_statement room (nested (room - 1))) (bare at) (drop at source.now.tokens)) }
{
    if is_end(source, at) {
        return Ok((None, at));
    }
    let (statement, at) = statement(source, room, at)?;
    Ok((Some(statement), at))
}

// Whether no token is left at a place.
fn is_end(source: &Source, at: u32) -> bool
    ensures { result ≡ ended (drop at source.now.tokens) }
{
    at >= source.len()
}
