ghost use Rattle.std.specs.Prelude.{◌≡◌, drop, map, Some, IfOk};
ghost use Rattle.std.specs.List.{flat_map};
ghost use Rattle.gc_expr.specs.Views.{Names};
ghost use Rattle.gc_regx.specs.Trees as tree;
ghost use Rattle.gc_regx.specs.Views.{regex_tree};
ghost use Rattle.gc_grammar.specs.Regexes.{plain as plain_tree, chained, starred as starred_tree};
ghost use Rattle.gc_parse_readers.specs.RegexReaders.{read_label, read_any, read_test, read_view};
ghost use Rattle.gc_parse_patterns.specs.RegexViews.{part_view, parts_view};
ghost use Rattle.gc_parse_source.specs.Results.{Gives};
ghost use Rattle.gc_parse_readers.specs.Points.{bare};

use crate::regex_part::Part;
use gc_base::{Memory, NameAt};
use gc_lex::Mark;
use gc_parse_source::{Refusal, Source, one};
use gc_regx::{Regex, RegexList};
use std::alloc::Global;

// A regular path expression without views.
fn plain(alloc: Global, regex: Regex) -> Part
    ensures { (names : Names) → part_view names result ≡ plain_tree (regex_tree regex) }
{
    Part {
        regex,
        views: Vec::new(alloc),
    }
}

#[tactic(auto, unfolding(gc_parse_readers::specs::RegexReaders::read_label))]
// `:` word [ `-` ]
pub(crate) fn label(source: &Source, at: u32) -> Result<(Part, u32), Refusal>
    ensures { Gives (part_view source.now.names) source.now.tokens result (read_label (bare at) (drop at source.now.tokens)) }
{
    let at = source.mark(at, Mark::Colon)?;
    let (word, at) = source.word(at)?;
    if !source.is_at(at, Mark::Minus) {
        return Ok((plain(source.alloc(), Regex::label(word)), at));
    }
    let at = source.mark(at, Mark::Minus)?;
    Ok((plain(source.alloc(), Regex::back(word)), at))
}

#[tactic(auto, unfolding(gc_parse_readers::specs::RegexReaders::read_any))]
// `_` [ `-` ]
pub(crate) fn any(source: &Source, at: u32) -> Result<(Part, u32), Refusal>
    ensures { Gives (part_view source.now.names) source.now.tokens result (read_any (bare at) (drop at source.now.tokens)) }
{
    let at = source.mark(at, Mark::LowLine)?;
    if !source.is_at(at, Mark::Minus) {
        return Ok((plain(source.alloc(), Regex::any()), at));
    }
    let at = source.mark(at, Mark::Minus)?;
    Ok((plain(source.alloc(), Regex::any_back()), at))
}

#[tactic(auto, unfolding(gc_parse_readers::specs::RegexReaders::read_test))]
// `!` `:` word
pub(crate) fn test(source: &Source, at: u32) -> Result<(Part, u32), Refusal>
    ensures { Gives (part_view source.now.names) source.now.tokens result (read_test (bare at) (drop at source.now.tokens)) }
{
    let at = source.mark(at, Mark::Bang)?;
    let at = source.mark(at, Mark::Colon)?;
    let (word, at) = source.word(at)?;
    Ok((plain(source.alloc(), Regex::test(word)), at))
}

#[tactic(auto, unfolding(gc_parse_readers::specs::RegexReaders::read_view))]
// `~` name
pub(crate) fn view(source: &Source, at: u32) -> Result<(Part, u32), Refusal>
    ensures { Gives (part_view source.now.names) source.now.tokens result (read_view (bare at) (drop at source.now.tokens)) }
{
    let at = source.mark(at, Mark::Tilde)?;
    let ((name, bytes), at) = source.name_with_bytes(at)?;
    let views = one(source.alloc(), name)?;
    let regex = Regex::view(bytes);
    Ok((Part { regex, views }, at))
}

// A part any number of times.
pub(crate) fn starred(alloc: Global, part: Part) -> Result<Part, Memory>
    ensures { IfOk result (λ s. (names : Names) → part_view names s ≡ starred_tree (part_view names part) (Some tt)) }
{
    let regex = Regex::star(alloc, part.regex)?;
    Ok(Part {
        regex,
        views: part.views,
    })
}

// One of some branches; of one branch the branch itself.
pub(crate) fn branches(alloc: Global, mut parts: Vec<Part>) -> Result<Part, Memory>
    ensures { IfOk result (λ part. (names : Names) → part_view names part ≡ chained tree.Alt (parts_view names parts.items)) }
{
    if parts.len() == 1 {
        return Ok(parts.swap_remove(0));
    }
    let (regexes, views) = divided(alloc, parts)?;
    Ok(Part {
        regex: Regex::alt(regexes),
        views,
    })
}

// Parts one after another; of one part the part itself.
pub(crate) fn sequence(alloc: Global, mut parts: Vec<Part>) -> Result<Part, Memory>
    ensures { IfOk result (λ part. (names : Names) → part_view names part ≡ chained tree.Cat (parts_view names parts.items)) }
{
    if parts.len() == 1 {
        return Ok(parts.swap_remove(0));
    }
    let (regexes, views) = divided(alloc, parts)?;
    Ok(Part {
        regex: Regex::cat(regexes),
        views,
    })
}

// The expressions of parts, and all their views.
fn divided(alloc: Global, parts: Vec<Part>) -> Result<(RegexList, Vec<NameAt>), Memory>
    ensures trees { IfOk result (λ divided. map regex_tree divided.0.items ≡ map (λ part. regex_tree part.regex) parts.items) }
    ensures views { IfOk result (λ divided. divided.1.items ≡ flat_map (λ part. part.views.items) parts.items) }
{
    let mut regexes = Vec::with_capacity(alloc, parts.len())?;
    let mut views = Vec::new(alloc);
    for part in parts {
        let Part {
            regex,
            views: mut own,
        } = part;
        regexes.push(regex)?;
        views.append(&mut own)?;
    }
    Ok((regexes, views))
}
