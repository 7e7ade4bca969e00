ghost use Rattle.std.specs.Prelude.{◌++◌, ◌∷◌, []};
ghost use Rattle.gc_ast.specs.QueryViews.{file_trees};
ghost use Rattle.gc_parse.specs.Parses.{parsed};
ghost use Rattle.gc_parse_source.specs.Sources.{names_among};
ghost use Rattle.gcore.specs.QueryFiles.{file_over, query_file_at, query_file_of, sorted_at, IsFileOf};

use crate::stop::Stop;
use crate::text_refusal::TextRefusal;
use gc_ast::File;
use gc_base::NameList;
use gc_lex::{Tokens, lex};
use gc_parse::{ParseRefusal, parse};
use gc_sorts::{Checked, SortRefusal, check};
use std::alloc::Global;

/// The query file of a text over graphs of these names, or what is wrong first: with its characters,
/// then with its tokens, then with where its names and expressions stand.
pub fn query_file(alloc: Global, text: &[u8], graphs: &NameList) -> Result<Checked, Stop>
    ensures { IsFileOf (query_file_of graphs.now text.now) result }
{
    let tokens = lex(alloc, text)?;
    file_of(alloc, &tokens, graphs)
}

// The query file of the tokens of a text.
fn file_of(alloc: Global, tokens: &Tokens, graphs: &NameList) -> Result<Checked, Stop>
    ensures { IsFileOf (query_file_at graphs.now (names_among tokens.now.tokens) tokens.now.places (parsed tokens.now.tokens)) result }
{
    match parse(alloc, tokens) {
        Ok(file) => sorted(alloc, file, graphs),
        Err(ParseRefusal::TooDeep(token)) => {
            Err(Stop::Text(TextRefusal::TooDeep(tokens.place(token))))
        }
        Err(ParseRefusal::Syntax(token)) => {
            Err(Stop::Text(TextRefusal::Syntax(tokens.place(token))))
        }
        Err(ParseRefusal::Memory) => Err(Stop::OutOfMemory),
    }
}

// A query file that breaks no sort rule.
fn sorted(alloc: Global, file: File, graphs: &NameList) -> Result<Checked, Stop>
    ensures { IsFileOf (sorted_at (file.places ++ file.end ∷ []) (file_over graphs.now file.names (file_trees file))) result }
{
    match check(alloc, file, graphs) {
        Ok(checked) => Ok(checked),
        Err(SortRefusal::Broken { rule, at }) => Err(Stop::Sorts(rule, at)),
        Err(SortRefusal::Memory) => Err(Stop::OutOfMemory),
    }
}
