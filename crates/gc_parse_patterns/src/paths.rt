ghost use Rattle.std.specs.Prelude.{◌≡◌, ◌∷◌, [], drop};
ghost use Rattle.gc_ast.specs.PatternViews.{named_if, pattern_tree};
ghost use Rattle.gc_parse_readers.specs.Kinds.{begins, name_kind, number_kind};
ghost use Rattle.gc_parse_readers.specs.Readers.{read_optional};
ghost use Rattle.gc_parse_readers.specs.PatternReaders.{read_angled, read_count, read_reach, read_cost_if, read_found, read_all, read_stored, read_pathbody, read_path};
ghost use Rattle.gc_parse_patterns.specs.PatternViews.{angled_view, body_view};
ghost use Rattle.gc_parse_source.specs.Results.{Gives};
ghost use Rattle.gc_parse_readers.specs.Points.{bare};

use crate::labels::label_groups;
use crate::regex_part::Part;
use crate::regexes::regex;
use gc_ast::{CountAt, PathBody, Pattern};
use gc_base::{NameAt, Sequence};
use gc_lex::Mark;
use gc_parse_source::{Refusal, Source};

#[tactic(auto, unfolding(gc_parse_readers::specs::PatternReaders::read_angled))]
// `<` regex `>`, with the token of the `<`
fn angled(source: &Source, room: u64, at: u32) -> Result<((u32, Part), u32), Refusal>
    ensures { Gives (angled_view source.now.names) source.now.tokens result (read_angled room (bare at) (drop at source.now.tokens)) }
{
    let token = at;
    let at = source.mark(at, Mark::Less)?;
    let (part, at) = regex(source, room, at)?;
    let at = source.mark(at, Mark::Greater)?;
    Ok(((token, part), at))
}

#[tactic(auto, unfolding(gc_parse_readers::specs::PatternReaders::read_count))]
// number `SHORTEST`
fn count(source: &Source, at: u32) -> Result<(CountAt, u32), Refusal>
    ensures { Gives (λ k. k) source.now.tokens result (read_count (bare at) (drop at source.now.tokens)) }
{
    let token = at;
    let (count, at) = source.number(at)?;
    let at = source.the_word(at, "SHORTEST")?;
    Ok((CountAt { count, token }, at))
}

// [ number `SHORTEST` ]
fn count_if(source: &Source, at: u32) -> Result<(Option<CountAt>, u32), Refusal>
    ensures { Gives (λ k. k) source.now.tokens result (read_optional (number_kind ∷ []) read_count (bare at) (drop at source.now.tokens)) }
{
    if !source.is_number_at(at) {
        return Ok((None, at));
    }
    let (k, at) = count(source, at)?;
    Ok((Some(k), at))
}

#[tactic(auto, unfolding(gc_parse_readers::specs::PatternReaders::read_cost_if))]
// [ `COST` name ]
fn cost_if(source: &Source, at: u32) -> Result<(Option<NameAt>, u32), Refusal>
    ensures { Gives (named_if source.now.names) source.now.tokens result (read_cost_if (bare at) (drop at source.now.tokens)) }
{
    if !source.is_word_at(at, "COST") {
        return Ok((None, at));
    }
    let at = source.the_word(at, "COST")?;
    let (name, at) = source.name(at)?;
    Ok((Some(name), at))
}

#[tactic(auto, unfolding(gc_parse_readers::specs::PatternReaders::read_reach))]
// `<` regex `>`
fn reach(source: &Source, room: u64, at: u32) -> Result<((u32, PathBody), u32), Refusal>
    ensures { Gives (body_view source.now.names) source.now.tokens result (read_reach room (bare at) (drop at source.now.tokens)) }
{
    let ((regex_at, part), at) = angled(source, room, at)?;
    let Part { regex, views } = part;
    let views = Sequence::from_vec(views);
    Ok(((regex_at, PathBody::Reach { regex, views }), at))
}

#[tactic(auto, unfolding(gc_parse_readers::specs::PatternReaders::read_found))]
// [ number `SHORTEST` ] name `<` regex `>` [ `COST` name ]
fn found(source: &Source, room: u64, at: u32) -> Result<((u32, PathBody), u32), Refusal>
    ensures { Gives (body_view source.now.names) source.now.tokens result (read_found room (bare at) (drop at source.now.tokens)) }
{
    let (k, at) = count_if(source, at)?;
    let (name, at) = source.name(at)?;
    let ((regex_at, part), at) = angled(source, room, at)?;
    let (cost, at) = cost_if(source, at)?;
    let Part { regex, views } = part;
    let views = Sequence::from_vec(views);
    let body = PathBody::Found {
        k,
        name,
        regex,
        views,
        cost,
    };
    Ok(((regex_at, body), at))
}

#[tactic(auto, unfolding(gc_parse_readers::specs::PatternReaders::read_all))]
// `ALL` name `<` regex `>`
fn all_walks(source: &Source, room: u64, at: u32) -> Result<((u32, PathBody), u32), Refusal>
    ensures { Gives (body_view source.now.names) source.now.tokens result (read_all room (bare at) (drop at source.now.tokens)) }
{
    let at = source.the_word(at, "ALL")?;
    let (name, at) = source.name(at)?;
    let ((regex_at, part), at) = angled(source, room, at)?;
    let Part { regex, views } = part;
    let views = Sequence::from_vec(views);
    Ok(((regex_at, PathBody::All { name, regex, views }), at))
}

#[tactic(auto, unfolding(gc_parse_readers::specs::PatternReaders::read_stored))]
// `@` name { labels }
fn stored(source: &Source, room: u64, at: u32) -> Result<((u32, PathBody), u32), Refusal>
    ensures { Gives (body_view source.now.names) source.now.tokens result (read_stored room (bare at) (drop at source.now.tokens)) }
{
    let token = at;
    let at = source.mark(at, Mark::AtSign)?;
    let (name, at) = source.name(at)?;
    let (labels, at) = label_groups(source, room, at)?;
    Ok(((token, PathBody::Stored { name, labels }), at))
}

// Whether a number or a name stands at a place.
fn is_found_at(source: &Source, at: u32) -> bool
    ensures { result ≡ begins (number_kind ∷ name_kind ∷ []) (drop at source.now.tokens) }
{
    source.is_number_at(at) || source.is_name_at(at)
}

#[tactic(auto, unfolding(gc_parse_readers::specs::PatternReaders::read_pathbody))]
// pathbody = `<` regex `>` | [ number `SHORTEST` ] name `<` regex `>` [ `COST` name ]
//     | `ALL` name `<` regex `>` | `@` name { labels }; with the token of the `<` or the `@`
fn pathbody(source: &Source, room: u64, at: u32) -> Result<((u32, PathBody), u32), Refusal>
    ensures { Gives (body_view source.now.names) source.now.tokens result (read_pathbody room (bare at) (drop at source.now.tokens)) }
{
    if source.is_at(at, Mark::Less) {
        reach(source, room, at)
    } else if is_found_at(source, at) {
        found(source, room, at)
    } else if source.is_word_at(at, "ALL") {
        all_walks(source, room, at)
    } else {
        stored(source, room, at)
    }
}

#[tactic(auto, unfolding(gc_parse_readers::specs::PatternReaders::read_path, gc_parse_readers::specs::PatternReaders::read_in_slashes))]
// path = `-` `/` pathbody `/` `-` `>`
pub(crate) fn path(source: &Source, room: u64, at: u32) -> Result<(Pattern, u32), Refusal>
    ensures { Gives (pattern_tree source.now.names) source.now.tokens result (read_path room (bare at) (drop at source.now.tokens)) }
{
    let token = at;
    let at = source.mark(at, Mark::Minus)?;
    let at = source.mark(at, Mark::Slash)?;
    let ((regex_at, body), at) = pathbody(source, room, at)?;
    let at = source.mark(at, Mark::Slash)?;
    let at = source.mark(at, Mark::Minus)?;
    let at = source.mark(at, Mark::Greater)?;
    let path = Pattern::Path {
        token,
        regex_at,
        body,
    };
    Ok((path, at))
}
