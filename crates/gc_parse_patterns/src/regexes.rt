ghost use Rattle.std.specs.Prelude.{◌≡◌, ◌-◌, ◌<◌, ◌∷◌, [], drop};
ghost use Rattle.gc_lex.specs.declared.token.Mark.TheVariants as mark;
ghost use Rattle.gc_parse_readers.specs.Kinds.{begins, mark_kind};
ghost use Rattle.gc_parse_readers.specs.Readers.{in_front, read_many, read_behind, read_mark};
ghost use Rattle.gc_parse_readers.specs.RegexReaders.{part_kinds, read_group, read_atom, read_star, read_cat, read_alt, read_regex};
ghost use Rattle.gc_parse_patterns.specs.RegexViews.{part_view, parts_view};
ghost use Rattle.gc_parse_source.specs.Results.{Gives};
ghost use Rattle.gc_parse_readers.specs.Points.{bare};

use crate::part::{any, branches, label, sequence, starred, test, view};
use crate::regex_part::Part;
use gc_lex::Mark;
use gc_parse_source::{Refusal, Source, one};

#[tactic(auto, using(gc_parse_readers::proofs::NestedRooms::regex_with_room), unfolding(gc_parse_readers::specs::RegexReaders::read_regex))]
#[cycle(regex)]
/// regex = cat { `|` cat }, over at most so many tokens
pub fn regex(source: &Source, room: u64, at: u32) -> Result<(Part, u32), Refusal>
    ensures { Gives (part_view source.now.names) source.now.tokens result (read_regex room (bare at) (drop at source.now.tokens)) }
{
    if room == 0 {
        return Err(Refusal::Syntax(at));
    }
    alternatives(source, room, at)
}

#[tactic(auto, unfolding(gc_parse_readers::specs::RegexReaders::read_alt))]
#[cycle(regex)]
fn alternatives(source: &Source, room: u64, at: u32) -> Result<(Part, u32), Refusal>
    requires { 0 < room }
    ensures { Gives (part_view source.now.names) source.now.tokens result (read_alt room (read_regex (room - 1)) (bare at) (drop at source.now.tokens)) }
{
    let (first, at) = juxtaposed(source, room, at)?;
    let (parts, at) = later_branches(source, room, at, first)?;
    Ok((branches(source.alloc(), parts)?, at))
}

// { `|` cat } behind a first branch
#[cycle(regex)]
fn later_branches(
    source: &Source,
    room: u64,
    from: u32,
    first: Part,
) -> Result<(Vec<Part>, u32), Refusal>
    requires { 0 < room }
    ensures { Gives (λ parts. parts_view source.now.names parts.items) source.now.tokens result
        (in_front (part_view source.now.names first ∷ []) (read_many (mark_kind mark.Bar ∷ [])
        (read_behind (read_mark mark.Bar) (read_cat room (read_regex (room - 1)))) room (bare from) (drop from source.now.tokens))) }
{
    let mut parts = one(source.alloc(), first)?;
    let mut at = from;
    for _ in 0..room {
        if !source.is_at(at, Mark::Bar) {
            return Ok((parts, at));
        }
        let (part, next) = later_branch(source, room, at)?;
        parts.push(part)?;
        at = next;
    }
    Ok((parts, at))
}

// `|` cat
#[cycle(regex)]
fn later_branch(source: &Source, room: u64, at: u32) -> Result<(Part, u32), Refusal>
    requires { 0 < room }
    ensures { Gives (part_view source.now.names) source.now.tokens result
        (read_behind (read_mark mark.Bar) (read_cat room (read_regex (room - 1))) (bare at) (drop at source.now.tokens)) }
{
    let at = source.mark(at, Mark::Bar)?;
    juxtaposed(source, room, at)
}

#[tactic(auto, unfolding(gc_parse_readers::specs::RegexReaders::read_cat))]
#[cycle(regex)]
// cat = star { star }
fn juxtaposed(source: &Source, room: u64, at: u32) -> Result<(Part, u32), Refusal>
    requires { 0 < room }
    ensures { Gives (part_view source.now.names) source.now.tokens result (read_cat room (read_regex (room - 1)) (bare at) (drop at source.now.tokens)) }
{
    let (first, at) = repeated(source, room, at)?;
    let (parts, at) = later_parts(source, room, at, first)?;
    Ok((sequence(source.alloc(), parts)?, at))
}

// { star } behind a first part
#[cycle(regex)]
fn later_parts(
    source: &Source,
    room: u64,
    from: u32,
    first: Part,
) -> Result<(Vec<Part>, u32), Refusal>
    requires { 0 < room }
    ensures { Gives (λ parts. parts_view source.now.names parts.items) source.now.tokens result
        (in_front (part_view source.now.names first ∷ []) (read_many part_kinds (read_star (read_regex (room - 1))) room (bare from)
        (drop from source.now.tokens))) }
{
    let mut parts = one(source.alloc(), first)?;
    let mut at = from;
    for _ in 0..room {
        if !is_part_at(source, at) {
            return Ok((parts, at));
        }
        let (part, next) = repeated(source, room, at)?;
        parts.push(part)?;
        at = next;
    }
    Ok((parts, at))
}

// Whether a part begins at a place.
fn is_part_at(source: &Source, at: u32) -> bool
    ensures { result ≡ begins part_kinds (drop at source.now.tokens) }
{
    source.is_at(at, Mark::Colon)
        || source.is_at(at, Mark::LowLine)
        || source.is_at(at, Mark::Bang)
        || source.is_at(at, Mark::Tilde)
        || source.is_at(at, Mark::OpenParenthesis)
}

#[tactic(auto, unfolding(gc_parse_readers::specs::RegexReaders::read_star))]
#[cycle(regex)]
// star = atom [ `*` ]
fn repeated(source: &Source, room: u64, at: u32) -> Result<(Part, u32), Refusal>
    requires { 0 < room }
    ensures { Gives (part_view source.now.names) source.now.tokens result (read_star (read_regex (room - 1)) (bare at) (drop at source.now.tokens)) }
{
    let (part, at) = atom(source, room, at)?;
    if !source.is_at(at, Mark::Star) {
        return Ok((part, at));
    }
    let at = source.mark(at, Mark::Star)?;
    Ok((starred(source.alloc(), part)?, at))
}

#[tactic(auto, unfolding(gc_parse_readers::specs::RegexReaders::read_atom))]
#[cycle(regex)]
// atom = `:` word [ `-` ] | `_` [ `-` ] | `!` `:` word | `~` name | `(` regex `)`
fn atom(source: &Source, room: u64, at: u32) -> Result<(Part, u32), Refusal>
    requires { 0 < room }
    ensures { Gives (part_view source.now.names) source.now.tokens result (read_atom (read_regex (room - 1)) (bare at) (drop at source.now.tokens)) }
{
    if source.is_at(at, Mark::Colon) {
        label(source, at)
    } else if source.is_at(at, Mark::LowLine) {
        any(source, at)
    } else if source.is_at(at, Mark::Bang) {
        test(source, at)
    } else if source.is_at(at, Mark::Tilde) {
        view(source, at)
    } else {
        group(source, room, at)
    }
}

#[tactic(auto, unfolding(gc_parse_readers::specs::RegexReaders::read_group))]
#[cycle(regex)]
// `(` regex `)`
fn group(source: &Source, room: u64, at: u32) -> Result<(Part, u32), Refusal>
    requires { 0 < room }
    ensures { Gives (part_view source.now.names) source.now.tokens result (read_group (read_regex (room - 1)) (bare at) (drop at source.now.tokens)) }
{
    let at = source.mark(at, Mark::OpenParenthesis)?;
    let (part, at) = regex(source, room - 1, at)?;
    let at = source.mark(at, Mark::CloseParenthesis)?;
    Ok((part, at))
}
