ghost use Rattle.std.specs.Prelude.{◌≡◌, ◌-◌, ◌<◌, ◌∷◌, [], drop, map, codes};
ghost use Rattle.std.specs.Option.{option_map};
ghost use Rattle.gc_lex.specs.declared.token.Mark.TheVariants as mark;
ghost use Rattle.gc_ast.specs.PatternViews.{named_if, group_term_tree};
ghost use Rattle.gc_ast.specs.QueryViews.{new_element_tree, part_tree};
ghost use Rattle.gc_expr.specs.Views.{Names};
ghost use Rattle.gc_grammar.specs.Constructs.{placed};
ghost use Rattle.gc_parse_readers.specs.Kinds.{mark_kind, word_kind};
ghost use Rattle.gc_grammar.specs.Patterns.{listed};
ghost use Rattle.gc_parse_readers.specs.Readers.{read_optional, read_behind, read_mark, read_name};
ghost use Rattle.gc_parse_readers.specs.ConstructReaders.{read_group, read_celement, read_cnode, read_new_edge};
ghost use Rattle.gc_parse_constructs.specs.ConstructViews.{new_plain_element_view, new_edge_view};
ghost use Rattle.gc_parse_readers.specs.PatternReaders.{read_edge_on, read_edge_back, read_edge_of};
ghost use Rattle.gc_parse_readers.specs.QueryReaders.{nested};
ghost use Rattle.gc_parse_constructs.specs.Formulas.{ReadsFormulas};
ghost use Rattle.gc_parse_source.specs.Results.{Gives};
ghost use Rattle.gc_parse_readers.specs.Points.{bare};

use crate::assigns::{assigns_if, listed_assigns};
use crate::changes::{group, new_labels};
use crate::formulas::FormulaRead;
use crate::unplaced::NewPlainElement;
use gc_ast::{ConstructPart, GroupTermList, NewElement};
use gc_base::{Direction, NameAt, Sequence};
use gc_lex::Mark;
use gc_parse_source::{Refusal, Source};
use std::alloc::Global;

// [ `=` name ]
fn copy_if(source: &Source, at: u32) -> Result<(Option<NameAt>, u32), Refusal>
    ensures { Gives (named_if source.now.names) source.now.tokens result
        (read_optional (mark_kind mark.Equals ∷ []) (read_behind (read_mark mark.Equals) read_name) (bare at) (drop at source.now.tokens)) }
{
    if !source.is_at(at, Mark::Equals) {
        return Ok((None, at));
    }
    let at = source.mark(at, Mark::Equals)?;
    let (name, at) = source.name(at)?;
    Ok((Some(name), at))
}

// [ `GROUP` gterm { `,` gterm } ]
fn group_if(source: &Source, room: u64, at: u32) -> Result<(Option<GroupTermList>, u32), Refusal>
    ensures { Gives (λ found. option_map (λ terms. map (group_term_tree source.now.names) terms) found) source.now.tokens result
        (read_optional (word_kind (codes "GROUP") ∷ []) (read_group room) (bare at) (drop at source.now.tokens)) }
{
    if !source.is_word_at(at, "GROUP") {
        return Ok((None, at));
    }
    let (terms, at) = group(source, room, at)?;
    Ok((Some(terms), at))
}

// No terms where there is no GROUP.
fn listed_terms(alloc: Global, terms: Option<GroupTermList>) -> GroupTermList
    ensures { (names : Names) → map (group_term_tree names) result ≡ listed (option_map (λ found. map (group_term_tree names) found) terms) }
{
    match terms {
        Some(terms) => terms,
        None => Sequence::new(alloc),
    }
}

#[tactic(auto, unfolding(gc_parse_readers::specs::ConstructReaders::read_celement))]
// celement = [ name ] [ `=` name ] [ `GROUP` gterm { `,` gterm } ] { `:` word } [ assigns ]
fn celement<F: Fn(u32) -> FormulaRead>(
    source: &Source,
    room: u64,
    at: u32,
    formulas: &F,
) -> Result<(NewPlainElement, u32), Refusal>
    requires { ReadsFormulas source.now room (F.pre formulas.now) (F.post formulas.now) }
    ensures { Gives (new_plain_element_view source.now.names) source.now.tokens result
        (read_celement room (nested (room - 1)) (bare at) (drop at source.now.tokens)) }
{
    let (name, at) = source.name_if(at)?;
    let (copy, at) = copy_if(source, at)?;
    let (group, at) = group_if(source, room, at)?;
    let (labels, at) = new_labels(source, room, at)?;
    let (assigns, at) = assigns_if(source, room, at, formulas)?;
    let plain = NewPlainElement {
        name,
        copy,
        group: listed_terms(source.alloc(), group),
        labels,
        assigns: listed_assigns(source.alloc(), assigns),
    };
    Ok((plain, at))
}

// A new element whose pattern begins at a token.
fn new_placed(token: u32, plain: NewPlainElement) -> NewElement
    ensures { (names : Names) → new_element_tree names result ≡ placed token (new_plain_element_view names plain) }
{
    let NewPlainElement {
        name,
        copy,
        group,
        labels,
        assigns,
    } = plain;
    NewElement::of(token, name, copy, group, labels, assigns)
}

#[tactic(auto, unfolding(gc_parse_readers::specs::ConstructReaders::read_cnode))]
// cnode = `(` celement `)`
pub(crate) fn cnode<F: Fn(u32) -> FormulaRead>(
    source: &Source,
    room: u64,
    at: u32,
    formulas: &F,
) -> Result<(ConstructPart, u32), Refusal>
    requires { ReadsFormulas source.now room (F.pre formulas.now) (F.post formulas.now) }
    ensures { Gives (part_tree source.now.names) source.now.tokens result (read_cnode room (nested (room - 1)) (bare at) (drop at source.now.tokens)) }
{
    let token = at;
    let at = source.mark(at, Mark::OpenParenthesis)?;
    let (plain, at) = celement(source, room, at, formulas)?;
    let at = source.mark(at, Mark::CloseParenthesis)?;
    Ok((ConstructPart::node(new_placed(token, plain)), at))
}

#[tactic(auto, unfolding(gc_parse_readers::specs::PatternReaders::read_edge_on))]
// `-` `[` celement `]` `-` [ `>` ]
fn new_edge_on<F: Fn(u32) -> FormulaRead>(
    source: &Source,
    room: u64,
    at: u32,
    formulas: &F,
) -> Result<((NewPlainElement, Direction), u32), Refusal>
    requires { ReadsFormulas source.now room (F.pre formulas.now) (F.post formulas.now) }
    ensures { Gives (new_edge_view source.now.names) source.now.tokens result
        (read_edge_on (read_celement room (nested (room - 1))) (bare at) (drop at source.now.tokens)) }
{
    let at = source.mark(at, Mark::Minus)?;
    let at = source.mark(at, Mark::OpenBracket)?;
    let (plain, at) = celement(source, room, at, formulas)?;
    let at = source.mark(at, Mark::CloseBracket)?;
    let at = source.mark(at, Mark::Minus)?;
    if !source.is_at(at, Mark::Greater) {
        return Ok(((plain, Direction::Either), at));
    }
    let at = source.mark(at, Mark::Greater)?;
    Ok(((plain, Direction::Forward), at))
}

#[tactic(auto, unfolding(gc_parse_readers::specs::PatternReaders::read_edge_back))]
// `<` `-` `[` celement `]` `-`
fn new_edge_back<F: Fn(u32) -> FormulaRead>(
    source: &Source,
    room: u64,
    at: u32,
    formulas: &F,
) -> Result<((NewPlainElement, Direction), u32), Refusal>
    requires { ReadsFormulas source.now room (F.pre formulas.now) (F.post formulas.now) }
    ensures { Gives (new_edge_view source.now.names) source.now.tokens result
        (read_edge_back (read_celement room (nested (room - 1))) (bare at) (drop at source.now.tokens)) }
{
    let at = source.mark(at, Mark::Less)?;
    let at = source.mark(at, Mark::Minus)?;
    let at = source.mark(at, Mark::OpenBracket)?;
    let (plain, at) = celement(source, room, at, formulas)?;
    let at = source.mark(at, Mark::CloseBracket)?;
    let at = source.mark(at, Mark::Minus)?;
    Ok(((plain, Direction::Backward), at))
}

#[tactic(auto, unfolding(gc_parse_readers::specs::PatternReaders::read_edge_of))]
// `-` `[` celement `]` `-` [ `>` ] | `<` `-` `[` celement `]` `-`
fn new_edge_of<F: Fn(u32) -> FormulaRead>(
    source: &Source,
    room: u64,
    at: u32,
    formulas: &F,
) -> Result<((NewPlainElement, Direction), u32), Refusal>
    requires { ReadsFormulas source.now room (F.pre formulas.now) (F.post formulas.now) }
    ensures { Gives (new_edge_view source.now.names) source.now.tokens result
        (read_edge_of (read_celement room (nested (room - 1))) (bare at) (drop at source.now.tokens)) }
{
    if source.is_at(at, Mark::Minus) {
        new_edge_on(source, room, at, formulas)
    } else {
        new_edge_back(source, room, at, formulas)
    }
}

#[tactic(auto, unfolding(gc_parse_readers::specs::ConstructReaders::read_new_edge))]
// new_edge = `-` `[` celement `]` `-` [ `>` ] | `<` `-` `[` celement `]` `-`
pub(crate) fn new_edge<F: Fn(u32) -> FormulaRead>(
    source: &Source,
    room: u64,
    at: u32,
    formulas: &F,
) -> Result<(ConstructPart, u32), Refusal>
    requires { ReadsFormulas source.now room (F.pre formulas.now) (F.post formulas.now) }
    ensures { Gives (part_tree source.now.names) source.now.tokens result (read_new_edge room (nested (room - 1)) (bare at) (drop at source.now.tokens)) }
{
    let token = at;
    let ((plain, way), at) = new_edge_of(source, room, at, formulas)?;
    Ok((ConstructPart::edge(way, new_placed(token, plain)), at))
}
