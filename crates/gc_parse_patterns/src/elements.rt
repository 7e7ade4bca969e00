ghost use Rattle.std.specs.Prelude.{◌≡◌, ◌∷◌, [], drop, map};
ghost use Rattle.gc_lex.specs.declared.token.Mark.TheVariants as mark;
ghost use Rattle.gc_ast.specs.PatternViews.{pattern_tree};
ghost use Rattle.gc_parse_readers.specs.Kinds.{mark_kind};
ghost use Rattle.gc_grammar.specs.Patterns.{placed};
ghost use Rattle.gc_parse_readers.specs.Readers.{in_front, read_many, read_behind, read_mark};
ghost use Rattle.gc_parse_readers.specs.PatternReaders.{read_property_use, read_property_uses, read_element, read_node};
ghost use Rattle.gc_expr.specs.Views.{Names};
ghost use Rattle.gc_parse_patterns.specs.PatternViews.{property_use_tree, plain_element_view, element_tree};
ghost use Rattle.gc_parse_source.specs.Results.{Gives};
ghost use Rattle.gc_parse_readers.specs.Points.{bare};

use crate::labels::label_groups;
use crate::unplaced::PlainElement;
use gc_ast::{Element, Pattern, PropertyUse, PropertyUseList};
use gc_base::Sequence;
use gc_lex::Mark;
use gc_parse_source::{Refusal, Source, alone};

#[tactic(auto, unfolding(gc_parse_readers::specs::PatternReaders::read_property_use))]
// word `=` name
fn property_use(source: &Source, at: u32) -> Result<(PropertyUse, u32), Refusal>
    ensures { Gives (property_use_tree source.now.names) source.now.tokens result (read_property_use (bare at) (drop at source.now.tokens)) }
{
    let token = at;
    let (property, at) = source.word(at)?;
    let at = source.mark(at, Mark::Equals)?;
    let (value, at) = source.name(at)?;
    let used = PropertyUse {
        token,
        property,
        value,
    };
    Ok((used, at))
}

#[tactic(auto, unfolding(gc_parse_readers::specs::PatternReaders::read_property_uses))]
// `{` word `=` name { `,` word `=` name } `}`
fn property_uses(source: &Source, room: u64, at: u32) -> Result<(PropertyUseList, u32), Refusal>
    ensures { Gives (λ uses. map (property_use_tree source.now.names) uses) source.now.tokens result
        (read_property_uses room (bare at) (drop at source.now.tokens)) }
{
    let at = source.mark(at, Mark::OpenBrace)?;
    let (first, at) = property_use(source, at)?;
    let (uses, at) = later_uses(source, room, at, first)?;
    let at = source.mark(at, Mark::CloseBrace)?;
    Ok((uses, at))
}

// { `,` word `=` name } behind a first use
fn later_uses(
    source: &Source,
    room: u64,
    from: u32,
    first: PropertyUse,
) -> Result<(PropertyUseList, u32), Refusal>
    ensures { Gives (λ uses. map (property_use_tree source.now.names) uses) source.now.tokens result
        (in_front (property_use_tree source.now.names first ∷ []) (read_many (mark_kind mark.Comma ∷ [])
        (read_behind (read_mark mark.Comma) read_property_use) room (bare from) (drop from source.now.tokens))) }
{
    let mut uses = alone(source.alloc(), first)?;
    let mut at = from;
    for _ in 0..room {
        if !source.is_at(at, Mark::Comma) {
            return Ok((uses, at));
        }
        let (used, next) = later_use(source, at)?;
        uses.push(used)?;
        at = next;
    }
    Ok((uses, at))
}

// `,` word `=` name
fn later_use(source: &Source, at: u32) -> Result<(PropertyUse, u32), Refusal>
    ensures { Gives (property_use_tree source.now.names) source.now.tokens result
        (read_behind (read_mark mark.Comma) read_property_use (bare at) (drop at source.now.tokens)) }
{
    let at = source.mark(at, Mark::Comma)?;
    let (used, at) = property_use(source, at)?;
    Ok((used, at))
}

#[tactic(auto, unfolding(gc_parse_readers::specs::PatternReaders::read_element))]
// element = [ name ] { labels } [ `{` word `=` name { `,` word `=` name } `}` ]
pub(crate) fn element(source: &Source, room: u64, at: u32) -> Result<(PlainElement, u32), Refusal>
    ensures { Gives (plain_element_view source.now.names) source.now.tokens result (read_element room (bare at) (drop at source.now.tokens)) }
{
    let (name, at) = source.name_if(at)?;
    let (labels, at) = label_groups(source, room, at)?;
    if !source.is_at(at, Mark::OpenBrace) {
        let properties = Sequence::new(source.alloc());
        return Ok((
            PlainElement {
                name,
                labels,
                properties,
            },
            at,
        ));
    }
    let (properties, at) = property_uses(source, room, at)?;
    Ok((
        PlainElement {
            name,
            labels,
            properties,
        },
        at,
    ))
}

// An element whose pattern begins at a token.
pub(crate) fn placed(token: u32, plain: PlainElement) -> Element
    ensures { (names : Names) → element_tree names result ≡ placed token (plain_element_view names plain) }
{
    let PlainElement {
        name,
        labels,
        properties,
    } = plain;
    Element {
        token,
        name,
        labels,
        properties,
    }
}

#[tactic(auto, unfolding(gc_parse_readers::specs::PatternReaders::read_node))]
// node = `(` element `)`
pub(crate) fn node(source: &Source, room: u64, at: u32) -> Result<(Pattern, u32), Refusal>
    ensures { Gives (pattern_tree source.now.names) source.now.tokens result (read_node room (bare at) (drop at source.now.tokens)) }
{
    let token = at;
    let at = source.mark(at, Mark::OpenParenthesis)?;
    let (plain, at) = element(source, room, at)?;
    let at = source.mark(at, Mark::CloseParenthesis)?;
    Ok((Pattern::Node(placed(token, plain)), at))
}
