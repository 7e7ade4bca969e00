ghost use Rattle.std.specs.Prelude.{◌∷◌, [], drop, map};
ghost use Rattle.gc_lex.specs.declared.token.Mark.TheVariants as mark;
ghost use Rattle.gc_ast.specs.PatternViews.{located_tree, pattern_tree};
ghost use Rattle.gc_parse_readers.specs.Kinds.{mark_kind};
ghost use Rattle.gc_parse_readers.specs.Readers.{in_front, read_many, read_behind, read_separated, read_mark};
ghost use Rattle.gc_parse_readers.specs.PatternReaders.{read_located, read_vchain};
ghost use Rattle.gc_parse_readers.specs.Points.{bare};
ghost use Rattle.gc_parse_source.specs.Results.{Gives};

use crate::links::{located, vchain};
use gc_ast::{Chain, ChainList, Located, LocatedList};
use gc_lex::Mark;
use gc_parse_source::{Refusal, Source, alone};

/// The patterns of a MATCH: located { `,` located }
pub fn patterns(source: &Source, room: u64, at: u32) -> Result<(LocatedList, u32), Refusal>
    ensures { Gives (λ patterns. map (located_tree source.now.names) patterns) source.now.tokens result
        (read_separated (mark_kind mark.Comma ∷ []) (read_located room) (read_mark mark.Comma) room (bare at) (drop at source.now.tokens)) }
{
    let (first, at) = located(source, room, at)?;
    let (patterns, at) = later_located(source, room, at, first)?;
    Ok((patterns, at))
}

// { `,` located } behind a first pattern
fn later_located(
    source: &Source,
    room: u64,
    from: u32,
    first: Located,
) -> Result<(LocatedList, u32), Refusal>
    ensures { Gives (λ patterns. map (located_tree source.now.names) patterns) source.now.tokens result
        (in_front (located_tree source.now.names first ∷ []) (read_many (mark_kind mark.Comma ∷ [])
        (read_behind (read_mark mark.Comma) (read_located room)) room (bare from) (drop from source.now.tokens))) }
{
    let mut patterns = alone(source.alloc(), first)?;
    let mut at = from;
    for _ in 0..room {
        if !source.is_at(at, Mark::Comma) {
            return Ok((patterns, at));
        }
        let (pattern, next) = next_located(source, room, at)?;
        patterns.push(pattern)?;
        at = next;
    }
    Ok((patterns, at))
}

// `,` located
fn next_located(source: &Source, room: u64, at: u32) -> Result<(Located, u32), Refusal>
    ensures { Gives (located_tree source.now.names) source.now.tokens result
        (read_behind (read_mark mark.Comma) (read_located room) (bare at) (drop at source.now.tokens)) }
{
    let at = source.mark(at, Mark::Comma)?;
    let (pattern, at) = located(source, room, at)?;
    Ok((pattern, at))
}

/// The chains of a PATH: vchain { `,` vchain }
pub fn path_chains(source: &Source, room: u64, at: u32) -> Result<(ChainList, u32), Refusal>
    ensures { Gives (λ chains. map (λ c. map (pattern_tree source.now.names) c.parts) chains) source.now.tokens result
        (read_separated (mark_kind mark.Comma ∷ []) (read_vchain room) (read_mark mark.Comma) room (bare at) (drop at source.now.tokens)) }
{
    let (first, at) = vchain(source, room, at)?;
    let (chains, at) = later_chains(source, room, at, first)?;
    Ok((chains, at))
}

// { `,` vchain } behind a first chain
fn later_chains(
    source: &Source,
    room: u64,
    from: u32,
    first: Chain,
) -> Result<(ChainList, u32), Refusal>
    ensures { Gives (λ chains. map (λ c. map (pattern_tree source.now.names) c.parts) chains) source.now.tokens result
        (in_front (map (pattern_tree source.now.names) first.parts ∷ [])
        (read_many (mark_kind mark.Comma ∷ []) (read_behind (read_mark mark.Comma) (read_vchain room)) room (bare from) (drop from source.now.tokens))) }
{
    let mut chains = alone(source.alloc(), first)?;
    let mut at = from;
    for _ in 0..room {
        if !source.is_at(at, Mark::Comma) {
            return Ok((chains, at));
        }
        let (chain, next) = later_chain(source, room, at)?;
        chains.push(chain)?;
        at = next;
    }
    Ok((chains, at))
}

// `,` vchain
fn later_chain(source: &Source, room: u64, at: u32) -> Result<(Chain, u32), Refusal>
    ensures { Gives (λ (c : Chain). map (pattern_tree source.now.names) c.parts) source.now.tokens result
        (read_behind (read_mark mark.Comma) (read_vchain room) (bare at) (drop at source.now.tokens)) }
{
    let at = source.mark(at, Mark::Comma)?;
    let (chain, at) = vchain(source, room, at)?;
    Ok((chain, at))
}
