ghost use Rattle.std.specs.Prelude.{◌∷◌, [], drop, map};
ghost use Rattle.gc_ast.specs.PatternViews.{located_tree, named_if, pattern_tree};
ghost use Rattle.gc_parse_readers.specs.Readers.{read_both, read_many};
ghost use Rattle.gc_parse_source.specs.Turns.{in_front_in_turn};
ghost use Rattle.gc_parse_patterns.specs.PatternViews.{pair_tree};
ghost use Rattle.gc_parse_readers.specs.PatternReaders.{link_kinds, read_chain, read_edge, read_link, read_located, read_node, read_on_if, read_vchain};
ghost use Rattle.gc_parse_source.specs.Results.{Gives};
ghost use Rattle.gc_parse_readers.specs.Points.{bare};

use crate::edges::edge;
use crate::elements::node;
use crate::paths::path;
use gc_ast::{Chain, Located, Pattern, PatternList};
use gc_base::NameAt;
use gc_parse_source::{Refusal, Source, alone, is_link_at, is_path_at};

#[tactic(auto, unfolding(gc_parse_readers::specs::PatternReaders::read_link))]
// edge | path
fn link(source: &Source, room: u64, at: u32) -> Result<(Pattern, u32), Refusal>
    ensures { Gives (pattern_tree source.now.names) source.now.tokens result (read_link room (bare at) (drop at source.now.tokens)) }
{
    if is_path_at(source, at) {
        path(source, room, at)
    } else {
        edge(source, room, at)
    }
}

#[tactic(auto, unfolding(gc_parse_readers::specs::PatternReaders::read_vchain, gc_parse_readers::specs::PatternReaders::read_linked))]
// vchain = node { edge node }
pub(crate) fn vchain(source: &Source, room: u64, at: u32) -> Result<(Chain, u32), Refusal>
    ensures { Gives (λ (c : Chain). map (pattern_tree source.now.names) c.parts) source.now.tokens result
        (read_vchain room (bare at) (drop at source.now.tokens)) }
{
    let (first, at) = node(source, room, at)?;
    let (parts, at) = later_edges(source, room, at, first)?;
    Ok((Chain { parts }, at))
}

// { edge node } behind a first node
fn later_edges(
    source: &Source,
    room: u64,
    from: u32,
    first: Pattern,
) -> Result<(PatternList, u32), Refusal>
    ensures { Gives (λ parts. map (pattern_tree source.now.names) parts) source.now.tokens result
        (in_front_in_turn (pattern_tree source.now.names first ∷ []) (read_many link_kinds (read_both (read_edge room) (read_node room)) room
        (bare from) (drop from source.now.tokens))) }
{
    let mut parts = alone(source.alloc(), first)?;
    let mut at = from;
    for _ in 0..room {
        if !is_link_at(source, at) {
            return Ok((parts, at));
        }
        let ((edge, node), next) = edge_and_node(source, room, at)?;
        parts.push(edge)?;
        parts.push(node)?;
        at = next;
    }
    Ok((parts, at))
}

// edge node
fn edge_and_node(source: &Source, room: u64, at: u32) -> Result<((Pattern, Pattern), u32), Refusal>
    ensures { Gives (pair_tree source.now.names) source.now.tokens result
        (read_both (read_edge room) (read_node room) (bare at) (drop at source.now.tokens)) }
{
    let (edge, at) = edge(source, room, at)?;
    let (node, at) = node(source, room, at)?;
    Ok(((edge, node), at))
}

#[tactic(auto, unfolding(gc_parse_readers::specs::PatternReaders::read_chain, gc_parse_readers::specs::PatternReaders::read_linked))]
// chain = node { (edge | path) node }
fn chain(source: &Source, room: u64, at: u32) -> Result<(Chain, u32), Refusal>
    ensures { Gives (λ (c : Chain). map (pattern_tree source.now.names) c.parts) source.now.tokens result
        (read_chain room (bare at) (drop at source.now.tokens)) }
{
    let (first, at) = node(source, room, at)?;
    let (parts, at) = later_links(source, room, at, first)?;
    Ok((Chain { parts }, at))
}

// { (edge | path) node } behind a first node
fn later_links(
    source: &Source,
    room: u64,
    from: u32,
    first: Pattern,
) -> Result<(PatternList, u32), Refusal>
    ensures { Gives (λ parts. map (pattern_tree source.now.names) parts) source.now.tokens result
        (in_front_in_turn (pattern_tree source.now.names first ∷ []) (read_many link_kinds (read_both (read_link room) (read_node room)) room
        (bare from) (drop from source.now.tokens))) }
{
    let mut parts = alone(source.alloc(), first)?;
    let mut at = from;
    for _ in 0..room {
        if !is_link_at(source, at) {
            return Ok((parts, at));
        }
        let ((link, node), next) = link_and_node(source, room, at)?;
        parts.push(link)?;
        parts.push(node)?;
        at = next;
    }
    Ok((parts, at))
}

// (edge | path) node
fn link_and_node(source: &Source, room: u64, at: u32) -> Result<((Pattern, Pattern), u32), Refusal>
    ensures { Gives (pair_tree source.now.names) source.now.tokens result
        (read_both (read_link room) (read_node room) (bare at) (drop at source.now.tokens)) }
{
    let (link, at) = link(source, room, at)?;
    let (node, at) = node(source, room, at)?;
    Ok(((link, node), at))
}

#[tactic(auto, unfolding(gc_parse_readers::specs::PatternReaders::read_on_if))]
// [ `ON` name ]
fn on_if(source: &Source, at: u32) -> Result<(Option<NameAt>, u32), Refusal>
    ensures { Gives (named_if source.now.names) source.now.tokens result (read_on_if (bare at) (drop at source.now.tokens)) }
{
    if !source.is_word_at(at, "ON") {
        return Ok((None, at));
    }
    let at = source.the_word(at, "ON")?;
    let (name, at) = source.name(at)?;
    Ok((Some(name), at))
}

#[tactic(auto, unfolding(gc_parse_readers::specs::PatternReaders::read_located))]
// located = chain [ `ON` name ]
pub(crate) fn located(source: &Source, room: u64, at: u32) -> Result<(Located, u32), Refusal>
    ensures { Gives (located_tree source.now.names) source.now.tokens result (read_located room (bare at) (drop at source.now.tokens)) }
{
    let (chain, at) = chain(source, room, at)?;
    let (on, at) = on_if(source, at)?;
    Ok((Located { chain, on }, at))
}
