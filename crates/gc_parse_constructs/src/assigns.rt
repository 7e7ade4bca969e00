ghost use Rattle.std.specs.Prelude.{◌≡◌, ◌-◌, ◌<◌, ◌∷◌, [], drop, map, codes};
ghost use Rattle.std.specs.Option.{option_map};
ghost use Rattle.gc_lex.specs.declared.token.Mark.TheVariants as mark;
ghost use Rattle.gc_ast.specs.QueryViews.{assign_tree, change_tree};
ghost use Rattle.gc_expr.specs.Views.{Names};
ghost use Rattle.gc_parse_readers.specs.Kinds.{begins, mark_kind, word_kind};
ghost use Rattle.gc_grammar.specs.Patterns.{listed};
ghost use Rattle.gc_parse_readers.specs.Readers.{in_front, read_many, read_behind, read_mark};
ghost use Rattle.gc_parse_readers.specs.ConstructReaders.{read_assign, read_assigns, read_assigns_if, read_set_property, read_sub};
ghost use Rattle.gc_parse_readers.specs.QueryReaders.{nested};
ghost use Rattle.gc_parse_constructs.specs.Formulas.{ReadsFormulas};
ghost use Rattle.gc_parse_source.specs.Results.{Gives};
ghost use Rattle.gc_parse_readers.specs.Points.{bare};

use crate::changes::{add_label, removal};
use crate::formulas::FormulaRead;
use gc_ast::{Assign, AssignList, Change, ChangeList};
use gc_lex::Mark;
use gc_parse_source::{Refusal, Source, is_property_at, one};
use std::alloc::Global;

#[tactic(auto, unfolding(gc_parse_readers::specs::ConstructReaders::read_assign))]
// word `:=` expr
fn assign<F: Fn(u32) -> FormulaRead>(
    source: &Source,
    room: u64,
    at: u32,
    formulas: &F,
) -> Result<(Assign, u32), Refusal>
    requires { ReadsFormulas source.now room (F.pre formulas.now) (F.post formulas.now) }
    ensures { Gives (assign_tree source.now.names) source.now.tokens result (read_assign room (nested (room - 1)) (bare at) (drop at source.now.tokens)) }
{
    let token = at;
    let (property, at) = source.word(at)?;
    let at = source.mark(at, Mark::Assign)?;
    let (value, at) = formulas(at)?;
    Ok((Assign::of(token, property, value), at))
}

#[tactic(auto, unfolding(gc_parse_readers::specs::ConstructReaders::read_assigns))]
// assigns = `{` word `:=` expr { `,` word `:=` expr } `}`
fn assigns<F: Fn(u32) -> FormulaRead>(
    source: &Source,
    room: u64,
    at: u32,
    formulas: &F,
) -> Result<(AssignList, u32), Refusal>
    requires { ReadsFormulas source.now room (F.pre formulas.now) (F.post formulas.now) }
    ensures { Gives (λ assigns. map (assign_tree source.now.names) assigns.items) source.now.tokens result
        (read_assigns room (nested (room - 1)) (bare at) (drop at source.now.tokens)) }
{
    let at = source.mark(at, Mark::OpenBrace)?;
    let (first, at) = assign(source, room, at, formulas)?;
    let (assigns, at) = later_assigns(source, room, at, first, formulas)?;
    let at = source.mark(at, Mark::CloseBrace)?;
    Ok((assigns, at))
}

// { `,` word `:=` expr } behind a first assignment
fn later_assigns<F: Fn(u32) -> FormulaRead>(
    source: &Source,
    room: u64,
    from: u32,
    first: Assign,
    formulas: &F,
) -> Result<(AssignList, u32), Refusal>
    requires { ReadsFormulas source.now room (F.pre formulas.now) (F.post formulas.now) }
    ensures { Gives (λ assigns. map (assign_tree source.now.names) assigns.items) source.now.tokens result
        (in_front (assign_tree source.now.names first ∷ []) (read_many (mark_kind mark.Comma ∷ [])
        (read_behind (read_mark mark.Comma) (read_assign room (nested (room - 1)))) room (bare from) (drop from source.now.tokens))) }
{
    let mut assigns = one(source.alloc(), first)?;
    let mut at = from;
    for _ in 0..room {
        if !source.is_at(at, Mark::Comma) {
            return Ok((assigns, at));
        }
        let (assign, next) = later_assign(source, room, at, formulas)?;
        assigns.push(assign)?;
        at = next;
    }
    Ok((assigns, at))
}

// `,` word `:=` expr
fn later_assign<F: Fn(u32) -> FormulaRead>(
    source: &Source,
    room: u64,
    at: u32,
    formulas: &F,
) -> Result<(Assign, u32), Refusal>
    requires { ReadsFormulas source.now room (F.pre formulas.now) (F.post formulas.now) }
    ensures { Gives (assign_tree source.now.names) source.now.tokens result
        (read_behind (read_mark mark.Comma) (read_assign room (nested (room - 1))) (bare at) (drop at source.now.tokens)) }
{
    let at = source.mark(at, Mark::Comma)?;
    let (assign, at) = assign(source, room, at, formulas)?;
    Ok((assign, at))
}

#[tactic(auto, unfolding(gc_parse_readers::specs::ConstructReaders::read_assigns_if))]
// [ assigns ]
pub(crate) fn assigns_if<F: Fn(u32) -> FormulaRead>(
    source: &Source,
    room: u64,
    at: u32,
    formulas: &F,
) -> Result<(Option<AssignList>, u32), Refusal>
    requires { ReadsFormulas source.now room (F.pre formulas.now) (F.post formulas.now) }
    ensures { Gives (λ found. option_map (λ assigns. map (assign_tree source.now.names) assigns.items) found) source.now.tokens result
        (read_assigns_if room (nested (room - 1)) (bare at) (drop at source.now.tokens)) }
{
    if !source.is_at(at, Mark::OpenBrace) {
        return Ok((None, at));
    }
    let (assigns, at) = assigns(source, room, at, formulas)?;
    Ok((Some(assigns), at))
}

// No assignments where there are none between braces.
pub(crate) fn listed_assigns(alloc: Global, assigns: Option<AssignList>) -> AssignList
    ensures { (names : Names) → map (assign_tree names) result.items ≡ listed (option_map (λ found. map (assign_tree names) found.items) assigns) }
{
    match assigns {
        Some(assigns) => assigns,
        None => Vec::new(alloc),
    }
}

#[tactic(auto, unfolding(gc_parse_readers::specs::ConstructReaders::read_set_property))]
// `SET` name `.` word `:=` expr
fn set_property<F: Fn(u32) -> FormulaRead>(
    source: &Source,
    room: u64,
    at: u32,
    formulas: &F,
) -> Result<(Change, u32), Refusal>
    requires { ReadsFormulas source.now room (F.pre formulas.now) (F.post formulas.now) }
    ensures { Gives (change_tree source.now.names) source.now.tokens result
        (read_set_property room (nested (room - 1)) (bare at) (drop at source.now.tokens)) }
{
    let at = source.the_word(at, "SET")?;
    let (target, at) = source.name(at)?;
    let at = source.mark(at, Mark::Dot)?;
    let (assign, at) = assign(source, room, at, formulas)?;
    Ok((Change::set_property(target, assign), at))
}

#[tactic(auto, unfolding(gc_parse_readers::specs::ConstructReaders::read_sub))]
// sub = `SET` name `.` word `:=` expr | `SET` name `:` word | `REMOVE` name `.` word
//     | `REMOVE` name `:` word
fn sub<F: Fn(u32) -> FormulaRead>(
    source: &Source,
    room: u64,
    at: u32,
    formulas: &F,
) -> Result<(Change, u32), Refusal>
    requires { ReadsFormulas source.now room (F.pre formulas.now) (F.post formulas.now) }
    ensures { Gives (change_tree source.now.names) source.now.tokens result (read_sub room (nested (room - 1)) (bare at) (drop at source.now.tokens)) }
{
    if is_property_at(source, at, "SET") {
        set_property(source, room, at, formulas)
    } else if source.is_word_at(at, "SET") {
        add_label(source, at)
    } else {
        removal(source, at)
    }
}

// Whether `SET` or `REMOVE` stands at a place.
fn is_sub_at(source: &Source, at: u32) -> bool
    ensures { result ≡ begins (word_kind (codes "SET") ∷ word_kind (codes "REMOVE") ∷ []) (drop at source.now.tokens) }
{
    source.is_word_at(at, "SET") || source.is_word_at(at, "REMOVE")
}

// { sub }
pub(crate) fn subs<F: Fn(u32) -> FormulaRead>(
    source: &Source,
    room: u64,
    from: u32,
    formulas: &F,
) -> Result<(ChangeList, u32), Refusal>
    requires { ReadsFormulas source.now room (F.pre formulas.now) (F.post formulas.now) }
    ensures { Gives (λ changes. map (change_tree source.now.names) changes.items) source.now.tokens result
        (read_many (word_kind (codes "SET") ∷ word_kind (codes "REMOVE") ∷ []) (read_sub room (nested (room - 1))) room (bare from)
        (drop from source.now.tokens)) }
{
    let mut changes = Vec::new(source.alloc());
    let mut at = from;
    for _ in 0..room {
        if !is_sub_at(source, at) {
            return Ok((changes, at));
        }
        let (change, next) = sub(source, room, at, formulas)?;
        changes.push(change)?;
        at = next;
    }
    Ok((changes, at))
}
