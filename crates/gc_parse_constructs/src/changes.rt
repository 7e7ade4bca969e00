ghost use Rattle.std.specs.Prelude.{◌∷◌, [], drop, map};
ghost use Rattle.gc_lex.specs.declared.token.Mark.TheVariants as mark;
ghost use Rattle.gc_ast.specs.PatternViews.{group_term_tree};
ghost use Rattle.gc_ast.specs.QueryViews.{part_tree, change_tree};
ghost use Rattle.gc_parse_readers.specs.Kinds.{mark_kind};
ghost use Rattle.gc_parse_readers.specs.Readers.{in_front, read_many, read_behind, read_mark};
ghost use Rattle.gc_parse_readers.specs.ConstructReaders.{read_group_term, read_group, read_new_label, read_new_labels, read_projected, read_add_label, read_drop_property, read_drop_label, read_removal};
ghost use Rattle.gc_parse_source.specs.Results.{Gives};
ghost use Rattle.gc_parse_readers.specs.Points.{bare};

use gc_ast::{Change, ConstructPart, GroupTerm, GroupTermList};
use gc_base::{Name, NameList, Sequence};
use gc_lex::Mark;
use gc_parse_source::{Refusal, Source, alone, is_property_at};

#[tactic(auto, unfolding(gc_parse_readers::specs::ConstructReaders::read_group_term))]
// gterm = name [ `.` word ]
pub(crate) fn group_term(source: &Source, at: u32) -> Result<(GroupTerm, u32), Refusal>
    ensures { Gives (group_term_tree source.now.names) source.now.tokens result (read_group_term (bare at) (drop at source.now.tokens)) }
{
    let (name, at) = source.name(at)?;
    if !source.is_at(at, Mark::Dot) {
        let property = None;
        return Ok((GroupTerm { name, property }, at));
    }
    let at = source.mark(at, Mark::Dot)?;
    let (word, at) = source.word(at)?;
    let property = Some(word);
    Ok((GroupTerm { name, property }, at))
}

#[tactic(auto, unfolding(gc_parse_readers::specs::ConstructReaders::read_group))]
// `GROUP` gterm { `,` gterm }
pub(crate) fn group(source: &Source, room: u64, at: u32) -> Result<(GroupTermList, u32), Refusal>
    ensures { Gives (λ terms. map (group_term_tree source.now.names) terms) source.now.tokens result (read_group room (bare at) (drop at source.now.tokens)) }
{
    let at = source.the_word(at, "GROUP")?;
    let (first, at) = group_term(source, at)?;
    let (terms, at) = later_terms(source, room, at, first)?;
    Ok((terms, at))
}

// { `,` gterm } behind a first term
fn later_terms(
    source: &Source,
    room: u64,
    from: u32,
    first: GroupTerm,
) -> Result<(GroupTermList, u32), Refusal>
    ensures { Gives (λ terms. map (group_term_tree source.now.names) terms) source.now.tokens result
        (in_front (group_term_tree source.now.names first ∷ []) (read_many (mark_kind mark.Comma ∷ [])
        (read_behind (read_mark mark.Comma) read_group_term) room (bare from) (drop from source.now.tokens))) }
{
    let mut terms = alone(source.alloc(), first)?;
    let mut at = from;
    for _ in 0..room {
        if !source.is_at(at, Mark::Comma) {
            return Ok((terms, at));
        }
        let (term, next) = later_term(source, at)?;
        terms.push(term)?;
        at = next;
    }
    Ok((terms, at))
}

// `,` gterm
fn later_term(source: &Source, at: u32) -> Result<(GroupTerm, u32), Refusal>
    ensures { Gives (group_term_tree source.now.names) source.now.tokens result
        (read_behind (read_mark mark.Comma) read_group_term (bare at) (drop at source.now.tokens)) }
{
    let at = source.mark(at, Mark::Comma)?;
    group_term(source, at)
}

#[tactic(auto, unfolding(gc_parse_readers::specs::ConstructReaders::read_new_label))]
// `:` word
pub(crate) fn new_label(source: &Source, at: u32) -> Result<(Name, u32), Refusal>
    ensures { Gives (λ w. w) source.now.tokens result (read_new_label (bare at) (drop at source.now.tokens)) }
{
    let at = source.mark(at, Mark::Colon)?;
    source.word(at)
}

// { `:` word }
pub(crate) fn new_labels(source: &Source, room: u64, at: u32) -> Result<(NameList, u32), Refusal>
    ensures { Gives (λ words. words) source.now.tokens result (read_new_labels room (bare at) (drop at source.now.tokens)) }
{
    many_labels(source, room, at)
}

#[tactic(auto, unfolding(gc_parse_readers::specs::ConstructReaders::read_new_labels))]
fn many_labels(source: &Source, room: u64, from: u32) -> Result<(NameList, u32), Refusal>
    ensures { Gives (λ words. map (λ w. w) words) source.now.tokens result (in_front [] (read_new_labels room (bare from) (drop from source.now.tokens))) }
{
    let mut words = Sequence::new(source.alloc());
    let mut at = from;
    for _ in 0..room {
        if !source.is_at(at, Mark::Colon) {
            return Ok((words, at));
        }
        let (word, next) = new_label(source, at)?;
        words.push(word)?;
        at = next;
    }
    Ok((words, at))
}

#[tactic(auto, unfolding(gc_parse_readers::specs::ConstructReaders::read_projected, gc_parse_readers::specs::PatternReaders::read_in_slashes))]
// `-` `/` name `/` `-` `>`
pub(crate) fn projected(source: &Source, at: u32) -> Result<(ConstructPart, u32), Refusal>
    ensures { Gives (part_tree source.now.names) source.now.tokens result (read_projected (bare at) (drop at source.now.tokens)) }
{
    let token = at;
    let at = source.mark(at, Mark::Minus)?;
    let at = source.mark(at, Mark::Slash)?;
    let (name, at) = source.name(at)?;
    let at = source.mark(at, Mark::Slash)?;
    let at = source.mark(at, Mark::Minus)?;
    let at = source.mark(at, Mark::Greater)?;
    Ok((ConstructPart::projected(token, name), at))
}

#[tactic(auto, unfolding(gc_parse_readers::specs::ConstructReaders::read_add_label))]
// `SET` name `:` word
pub(crate) fn add_label(source: &Source, at: u32) -> Result<(Change, u32), Refusal>
    ensures { Gives (change_tree source.now.names) source.now.tokens result (read_add_label (bare at) (drop at source.now.tokens)) }
{
    let at = source.the_word(at, "SET")?;
    let (target, at) = source.name(at)?;
    let (label, at) = new_label(source, at)?;
    Ok((Change::add_label(target, label), at))
}

#[tactic(auto, unfolding(gc_parse_readers::specs::ConstructReaders::read_drop_property))]
// `REMOVE` name `.` word
fn drop_property(source: &Source, at: u32) -> Result<(Change, u32), Refusal>
    ensures { Gives (change_tree source.now.names) source.now.tokens result (read_drop_property (bare at) (drop at source.now.tokens)) }
{
    let at = source.the_word(at, "REMOVE")?;
    let (target, at) = source.name(at)?;
    let at = source.mark(at, Mark::Dot)?;
    let (property, at) = source.word(at)?;
    Ok((Change::drop_property(target, property), at))
}

#[tactic(auto, unfolding(gc_parse_readers::specs::ConstructReaders::read_drop_label))]
// `REMOVE` name `:` word
fn drop_label(source: &Source, at: u32) -> Result<(Change, u32), Refusal>
    ensures { Gives (change_tree source.now.names) source.now.tokens result (read_drop_label (bare at) (drop at source.now.tokens)) }
{
    let at = source.the_word(at, "REMOVE")?;
    let (target, at) = source.name(at)?;
    let (label, at) = new_label(source, at)?;
    Ok((Change::drop_label(target, label), at))
}

#[tactic(auto, unfolding(gc_parse_readers::specs::ConstructReaders::read_removal))]
// `REMOVE` name `.` word | `REMOVE` name `:` word
pub(crate) fn removal(source: &Source, at: u32) -> Result<(Change, u32), Refusal>
    ensures { Gives (change_tree source.now.names) source.now.tokens result (read_removal (bare at) (drop at source.now.tokens)) }
{
    if is_property_at(source, at, "REMOVE") {
        drop_property(source, at)
    } else {
        drop_label(source, at)
    }
}
