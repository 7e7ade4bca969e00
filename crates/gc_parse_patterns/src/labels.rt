ghost use Rattle.std.specs.Prelude.{◌∷◌, [], drop, map};
ghost use Rattle.gc_lex.specs.declared.token.Mark.TheVariants as mark;
ghost use Rattle.gc_parse_readers.specs.Kinds.{mark_kind};
ghost use Rattle.gc_parse_readers.specs.Readers.{in_front, read_many, read_behind, read_mark, read_word};
ghost use Rattle.gc_parse_readers.specs.PatternReaders.{read_labels, read_label_groups};
ghost use Rattle.gc_parse_source.specs.Results.{Gives};
ghost use Rattle.gc_parse_readers.specs.Points.{bare};

use gc_base::{LabelGroupList, Name, NameList, Sequence};
use gc_lex::Mark;
use gc_parse_source::{Refusal, Source, alone};

#[tactic(auto, using(gc_parse_source::proofs::Loops::map_is_itself), unfolding(gc_parse_readers::specs::PatternReaders::read_labels))]
// labels = `:` word { `|` word }
fn labels(source: &Source, room: u64, at: u32) -> Result<(NameList, u32), Refusal>
    ensures { Gives (λ words. words) source.now.tokens result (read_labels room (bare at) (drop at source.now.tokens)) }
{
    let at = source.mark(at, Mark::Colon)?;
    let (first, at) = source.word(at)?;
    let (words, at) = later_words(source, room, at, first)?;
    Ok((words, at))
}

// { `|` word } behind a first word
fn later_words(
    source: &Source,
    room: u64,
    from: u32,
    first: Name,
) -> Result<(NameList, u32), Refusal>
    ensures { Gives (λ words. map (λ w. w) words) source.now.tokens result
        (in_front (first ∷ []) (read_many (mark_kind mark.Bar ∷ []) (read_behind (read_mark mark.Bar) read_word) room (bare from)
        (drop from source.now.tokens))) }
{
    let mut words = alone(source.alloc(), first)?;
    let mut at = from;
    for _ in 0..room {
        if !source.is_at(at, Mark::Bar) {
            return Ok((words, at));
        }
        let (word, next) = later_word(source, at)?;
        words.push(word)?;
        at = next;
    }
    Ok((words, at))
}

// `|` word
fn later_word(source: &Source, at: u32) -> Result<(Name, u32), Refusal>
    ensures { Gives (λ w. w) source.now.tokens result (read_behind (read_mark mark.Bar) read_word (bare at) (drop at source.now.tokens)) }
{
    let at = source.mark(at, Mark::Bar)?;
    source.word(at)
}

// { labels }
pub(crate) fn label_groups(
    source: &Source,
    room: u64,
    at: u32,
) -> Result<(LabelGroupList, u32), Refusal>
    ensures { Gives (λ groups. groups) source.now.tokens result (read_label_groups room (bare at) (drop at source.now.tokens)) }
{
    many_labels(source, room, at)
}

#[tactic(auto, unfolding(gc_parse_readers::specs::PatternReaders::read_label_groups))]
fn many_labels(source: &Source, room: u64, from: u32) -> Result<(LabelGroupList, u32), Refusal>
    ensures { Gives (λ groups. map (λ g. g) groups) source.now.tokens result
        (in_front [] (read_label_groups room (bare from) (drop from source.now.tokens))) }
{
    let mut groups = Sequence::new(source.alloc());
    let mut at = from;
    for _ in 0..room {
        if !source.is_at(at, Mark::Colon) {
            return Ok((groups, at));
        }
        let (group, next) = labels(source, room, at)?;
        groups.push(group)?;
        at = next;
    }
    Ok((groups, at))
}
