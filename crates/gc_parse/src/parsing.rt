ghost use Rattle.std.specs.Prelude.{◌≡◌, ◌+◌, ◌++◌, ◌∷◌, [], length, map, take, IfOk};
ghost use Rattle.gc_ast.specs.QueryViews.{file_trees, statement_tree};
ghost use Rattle.gc_regx.specs.Views.{regex_tree};
ghost use Rattle.gc_grammar.specs.Queries.{SpellsFile, SpellsRegex, start};
ghost use Rattle.gc_parse.specs.Parses.{IsDueParse, IsDueWhole, IsParse, IsWhole, parsed, parsed_regex, read_expression, read_whole};
ghost use Rattle.gc_parse_readers.specs.QueryReaders.{file_reading};
ghost use Rattle.gc_parse_readers.specs.RegexReaders.{read_regex};
ghost use Rattle.gc_parse_source.specs.Sources.{names_among};

use crate::depth::depth_fault;
use crate::files::file_statements;
use crate::refusal::ParseRefusal;
use gc_ast::{File, PlaceList, StatementList};
use gc_base::Memory;
use gc_lex::Tokens;
use gc_parse_patterns::regex;
use gc_parse_source::{Refusal, Source};
use gc_regx::Regex;
use std::alloc::Global;

/// The regular path expression of a whole token list.
///
/// Brackets that are too deep are refused first, with the first token that is too deep; then a list
/// that spells no expression, with the first token with which no expression begins so, or the number
/// of tokens where more of them would have to come.
pub fn parse_regex(alloc: Global, tokens: &Tokens) -> Result<Regex, ParseRefusal>
    ensures right { IsParse SpellsRegex regex_tree tokens.now.tokens result }
    ensures due { IsDueParse regex_tree (parsed_regex tokens.now.tokens) result }
{
    if let Some(token) = depth_fault(tokens) {
        return Err(ParseRefusal::TooDeep(token));
    }
    Ok(whole_regex(alloc, tokens)?)
}

// The same where the brackets are not too deep.
fn whole_regex(alloc: Global, tokens: &Tokens) -> Result<Regex, Refusal>
    ensures right { IsWhole SpellsRegex regex_tree tokens.now.tokens result }
    ensures due { IsDueWhole regex_tree (read_expression (read_regex (length tokens.now.tokens + 1) start tokens.now.tokens)) result }
{
    let source = Source::of(alloc, tokens)?;
    regex_of(&source)
}

// The expression that all tokens spell.
fn regex_of(source: &Source) -> Result<Regex, Refusal>
    ensures right { IsWhole SpellsRegex regex_tree source.now.tokens result }
    ensures due { IsDueWhole regex_tree (read_expression (read_regex (length source.now.tokens + 1) start source.now.tokens)) result }
{
    let room = u64::from(source.len()) + 1;
    let (part, end) = regex(source, room, 0)?;
    if end < source.len() {
        return Err(Refusal::Syntax(end));
    }
    Ok(part.regex)
}

/// The query file of a whole token list, with the places of its tokens.
///
/// Brackets that are too deep are refused first, with the first token that is too deep; then a list
/// that spells no file, with the first token with which no file begins so, or the number of tokens
/// where more of them would have to come.
pub fn parse(alloc: Global, tokens: &Tokens) -> Result<File, ParseRefusal>
    ensures right { IsParse SpellsFile file_trees tokens.now.tokens result }
    ensures due { IsDueParse file_trees (parsed tokens.now.tokens) result }
    ensures places { IfOk result (λ file. file.places ++ file.end ∷ [] ≡ tokens.now.places) }
    ensures names { IfOk result (λ file. file.names ≡ names_among tokens.now.tokens) }
{
    if let Some(number) = depth_fault(tokens) {
        return Err(ParseRefusal::TooDeep(number));
    }
    Ok(whole_file(alloc, tokens)?)
}

// The same where the brackets are not too deep.
fn whole_file(alloc: Global, tokens: &Tokens) -> Result<File, Refusal>
    ensures right { IsWhole SpellsFile file_trees tokens.now.tokens result }
    ensures due { IsDueWhole file_trees (read_whole (file_reading (length tokens.now.tokens + 1) tokens.now.tokens)) result }
    ensures places { IfOk result (λ file. file.places ++ file.end ∷ [] ≡ tokens.now.places) }
    ensures names { IfOk result (λ file. file.names ≡ names_among tokens.now.tokens) }
{
    let source = Source::of(alloc, tokens)?;
    let statements = statements_of(&source)?;
    let places = places_of(alloc, tokens)?;
    let end = tokens.place(tokens.len());
    Ok(File::of(statements, source.into_names(), places, end))
}

// The statements that all tokens spell.
fn statements_of(source: &Source) -> Result<StatementList, Refusal>
    ensures right { IsWhole SpellsFile (λ statements. map (statement_tree source.now.names) statements.items) source.now.tokens result }
    ensures due { IsDueWhole (λ statements. map (statement_tree source.now.names) statements.items)
        (read_whole (file_reading (length source.now.tokens + 1) source.now.tokens)) result }
{
    let room = u64::from(source.len()) + 1;
    let (statements, _) = file_statements(source, room, 0)?;
    Ok(statements)
}

// The places of all tokens.
fn places_of(alloc: Global, tokens: &Tokens) -> Result<PlaceList, Memory>
    ensures { IfOk result (λ places. places ≡ take (length tokens.now.tokens) tokens.now.places) }
{
    let mut places = PlaceList::new(alloc);
    for number in 0..tokens.len() {
        places.push(tokens.place(number))?;
    }
    Ok(places)
}
