ghost use Rattle.std.specs.Prelude.{drop};
ghost use Rattle.gc_ast.specs.PatternViews.{pattern_tree};
ghost use Rattle.gc_parse_readers.specs.PatternReaders.{read_edge_on, read_edge_back, read_edge_of, read_edge, read_element};
ghost use Rattle.gc_parse_patterns.specs.PatternViews.{edge_view};
ghost use Rattle.gc_parse_source.specs.Results.{Gives};
ghost use Rattle.gc_parse_readers.specs.Points.{bare};

use crate::elements::{element, placed};
use crate::unplaced::PlainElement;
use gc_ast::Pattern;
use gc_base::Direction;
use gc_lex::Mark;
use gc_parse_source::{Refusal, Source};

#[tactic(auto, unfolding(gc_parse_readers::specs::PatternReaders::read_edge_on))]
// `-` `[` element `]` `-` [ `>` ]
fn edge_on(source: &Source, room: u64, at: u32) -> Result<((PlainElement, Direction), u32), Refusal>
    ensures { Gives (edge_view source.now.names) source.now.tokens result (read_edge_on (read_element room) (bare at) (drop at source.now.tokens)) }
{
    let at = source.mark(at, Mark::Minus)?;
    let at = source.mark(at, Mark::OpenBracket)?;
    let (plain, at) = element(source, room, at)?;
    let at = source.mark(at, Mark::CloseBracket)?;
    let at = source.mark(at, Mark::Minus)?;
    if !source.is_at(at, Mark::Greater) {
        return Ok(((plain, Direction::Either), at));
    }
    let at = source.mark(at, Mark::Greater)?;
    Ok(((plain, Direction::Forward), at))
}

#[tactic(auto, unfolding(gc_parse_readers::specs::PatternReaders::read_edge_back))]
// `<` `-` `[` element `]` `-`
fn edge_back(
    source: &Source,
    room: u64,
    at: u32,
) -> Result<((PlainElement, Direction), u32), Refusal>
    ensures { Gives (edge_view source.now.names) source.now.tokens result (read_edge_back (read_element room) (bare at) (drop at source.now.tokens)) }
{
    let at = source.mark(at, Mark::Less)?;
    let at = source.mark(at, Mark::Minus)?;
    let at = source.mark(at, Mark::OpenBracket)?;
    let (plain, at) = element(source, room, at)?;
    let at = source.mark(at, Mark::CloseBracket)?;
    let at = source.mark(at, Mark::Minus)?;
    Ok(((plain, Direction::Backward), at))
}

#[tactic(auto, unfolding(gc_parse_readers::specs::PatternReaders::read_edge_of))]
// `-` `[` element `]` `-` [ `>` ] | `<` `-` `[` element `]` `-`
fn edge_of(source: &Source, room: u64, at: u32) -> Result<((PlainElement, Direction), u32), Refusal>
    ensures { Gives (edge_view source.now.names) source.now.tokens result (read_edge_of (read_element room) (bare at) (drop at source.now.tokens)) }
{
    if source.is_at(at, Mark::Minus) {
        edge_on(source, room, at)
    } else {
        edge_back(source, room, at)
    }
}

#[tactic(auto, unfolding(gc_parse_readers::specs::PatternReaders::read_edge))]
// edge = `-` `[` element `]` `-` [ `>` ] | `<` `-` `[` element `]` `-`
pub(crate) fn edge(source: &Source, room: u64, at: u32) -> Result<(Pattern, u32), Refusal>
    ensures { Gives (pattern_tree source.now.names) source.now.tokens result (read_edge room (bare at) (drop at source.now.tokens)) }
{
    let token = at;
    let ((plain, way), at) = edge_of(source, room, at)?;
    let element = placed(token, plain);
    Ok((Pattern::Edge { way, element }, at))
}
