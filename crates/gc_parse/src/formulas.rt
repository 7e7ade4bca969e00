ghost use Rattle.std.specs.Prelude.{◌≡◌, ◌-◌, ◌<◌, ◌∷◌, [], drop, map, true};
ghost use Rattle.std.specs.Option.{option_map};
ghost use Rattle.gc_ast.specs.QueryViews.{formula_tree, item_tree, query_tree};
ghost use Rattle.gc_base.specs.Words.{is_reserved};
ghost use Rattle.gc_lex.specs.declared.token.Mark.TheVariants as mark;
ghost use Rattle.gc_parse_readers.specs.Kinds.{mark_kind};
ghost use Rattle.gc_parse_readers.specs.Readers.{read_separated, read_mark};
ghost use Rattle.gc_parse_readers.specs.ConstructReaders.{read_item};
ghost use Rattle.gc_parse_readers.specs.ExpressionReaders.{read_formula};
ghost use Rattle.gc_parse_readers.specs.Points.{bare};
ghost use Rattle.gc_parse_readers.specs.QueryReaders.{nested, read_condition_if};
ghost use Rattle.gc_parse_source.specs.Results.{Gives};

use crate::queries::inner_query;
use gc_ast::{Formula, ItemList};
use gc_parse_constructs::{FormulaRead, condition_if as condition_by, items};
use gc_parse_expressions::{QueryRead, expression};
use gc_parse_source::{Refusal, Source};

#[tactic(auto, unfolding(gc_parse_readers::specs::ExpressionReaders::read_formula))]
#[cycle(query)]
// An expression, with the queries of its own EXISTS beside it.
fn formula(source: &Source, room: u64, at: u32) -> FormulaRead
    requires { 0 < room }
    ensures { Gives (formula_tree source.now.names) source.now.tokens result (read_formula room (nested (room - 1)) (bare at) (drop at source.now.tokens)) }
{
    let mut exists = Vec::new(source.alloc());
    let queries = |within: u64, place: u32| -> QueryRead
        requires { within < room }
        ensures { Gives (query_tree source.entry.now.names) source.entry.now.tokens result
            ((nested within).query (bare place) (drop place source.entry.now.tokens)) }
    {
        prove!(within < room);
        inner_query(source, within, place)
    };
    let (expr, at) = expression(source, room, at, &mut exists, &queries)?;
    Ok((Formula::of(expr, exists), at))
}

#[cycle(query)]
// [ word expr ], of a reserved word
pub(crate) fn condition_if(
    source: &Source,
    room: u64,
    at: u32,
    word: &str,
) -> Result<(Option<Formula>, u32), Refusal>
    requires reserved { is_reserved word.now ≡ true }
    requires room { 0 < room }
    ensures { Gives (λ condition. option_map (formula_tree source.now.names) condition) source.now.tokens result
        (read_condition_if word.now room (nested (room - 1)) (bare at) (drop at source.now.tokens)) }
{
    let formulas = |place: u32| -> FormulaRead
        requires { 0 < room }
        ensures { Gives (formula_tree source.entry.now.names) source.entry.now.tokens result
            (read_formula room (nested (room - 1)) (bare place) (drop place source.entry.now.tokens)) }
    { formula(source, room, place) };
    condition_by(source, room, at, word, &formulas)
}

#[cycle(query)]
// item { `,` item }
pub(crate) fn construct_items(
    source: &Source,
    room: u64,
    at: u32,
) -> Result<(ItemList, u32), Refusal>
    requires { 0 < room }
    ensures { Gives (λ items. map (item_tree source.now.names) items.items) source.now.tokens result
        (read_separated (mark_kind mark.Comma ∷ []) (read_item room (nested (room - 1))) (read_mark mark.Comma) room (bare at) (drop at source.now.tokens)) }
{
    let formulas = |place: u32| -> FormulaRead
        requires { 0 < room }
        ensures { Gives (formula_tree source.entry.now.names) source.entry.now.tokens result
            (read_formula room (nested (room - 1)) (bare place) (drop place source.entry.now.tokens)) }
    { formula(source, room, place) };
    items(source, room, at, &formulas)
}
