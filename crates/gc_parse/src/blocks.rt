ghost use Rattle.std.specs.Prelude.{◌-◌, ◌<◌, ◌∷◌, [], drop, map, codes};
ghost use Rattle.gc_ast.specs.QueryViews.{basic_tree, block_tree, optional_tree};
ghost use Rattle.gc_parse_readers.specs.Kinds.{word_kind};
ghost use Rattle.gc_parse_readers.specs.Readers.{read_many};
ghost use Rattle.gc_parse_readers.specs.QueryReaders.{nested, read_basic, read_block, read_optional_block};
ghost use Rattle.gc_parse_source.specs.Results.{Gives};
ghost use Rattle.gc_parse_readers.specs.Points.{bare};

use crate::formulas::{condition_if, construct_items};
use gc_ast::{Basic, MatchBlock, OptionalBlock, OptionalList};
use gc_parse_patterns::patterns;
use gc_parse_source::{Refusal, Source};

#[tactic(auto, unfolding(gc_parse_readers::specs::QueryReaders::read_basic))]
#[cycle(query)]
// basic = `CONSTRUCT` item { `,` item } `MATCH` block { `OPTIONAL` block }
pub(crate) fn basic(source: &Source, room: u64, at: u32) -> Result<(Basic, u32), Refusal>
    requires { 0 < room }
    ensures { Gives (basic_tree source.now.names) source.now.tokens result (read_basic room (nested (room - 1)) (bare at) (drop at source.now.tokens)) }
{
    let token = at;
    let at = source.the_word(at, "CONSTRUCT")?;
    let (items, at) = construct_items(source, room, at)?;
    let at = source.the_word(at, "MATCH")?;
    let (main, at) = block(source, room, at)?;
    let (optionals, at) = optional_blocks(source, room, at)?;
    Ok((Basic::of(token, items, main, optionals), at))
}

#[tactic(auto, unfolding(gc_parse_readers::specs::QueryReaders::read_block, gc_parse_readers::specs::QueryReaders::read_where))]
#[cycle(query)]
// block = located { `,` located } [ `WHERE` expr ]
fn block(source: &Source, room: u64, at: u32) -> Result<(MatchBlock, u32), Refusal>
    requires { 0 < room }
    ensures { Gives (block_tree source.now.names) source.now.tokens result (read_block room (nested (room - 1)) (bare at) (drop at source.now.tokens)) }
{
    let (patterns, at) = patterns(source, room, at)?;
    let (filter, at) = condition_if(source, room, at, "WHERE")?;
    Ok((MatchBlock::of(patterns, filter), at))
}

#[cycle(query)]
// { `OPTIONAL` block }
fn optional_blocks(source: &Source, room: u64, from: u32) -> Result<(OptionalList, u32), Refusal>
    requires { 0 < room }
    ensures { Gives (λ blocks. map (optional_tree source.now.names) blocks.items) source.now.tokens result
        (read_many (word_kind (codes "OPTIONAL") ∷ []) (read_optional_block room (nested (room - 1))) room (bare from) (drop from source.now.tokens)) }
{
    let mut blocks = Vec::new(source.alloc());
    let mut at = from;
    for _ in 0..room {
        if !source.is_word_at(at, "OPTIONAL") {
            return Ok((blocks, at));
        }
        let (block, next) = optional_block(source, room, at)?;
        blocks.push(block)?;
        at = next;
    }
    Ok((blocks, at))
}

#[tactic(auto, unfolding(gc_parse_readers::specs::QueryReaders::read_optional_block))]
#[cycle(query)]
// `OPTIONAL` block
fn optional_block(source: &Source, room: u64, at: u32) -> Result<(OptionalBlock, u32), Refusal>
    requires { 0 < room }
    ensures { Gives (optional_tree source.now.names) source.now.tokens result
        (read_optional_block room (nested (room - 1)) (bare at) (drop at source.now.tokens)) }
{
    let token = at;
    let at = source.the_word(at, "OPTIONAL")?;
    let (block, at) = block(source, room, at)?;
    Ok((OptionalBlock::of(token, block), at))
}
