ghost use Rattle.std.specs.Prelude.{◌≡◌, ◌-◌, ◌<◌, drop, true};
ghost use Rattle.std.specs.Option.{option_map};
ghost use Rattle.gc_ast.specs.QueryViews.{formula_tree};
ghost use Rattle.gc_base.specs.Words.{is_reserved};
ghost use Rattle.gc_parse_readers.specs.QueryReaders.{nested, read_condition_if};
ghost use Rattle.gc_parse_constructs.specs.Formulas.{ReadsFormulas};
ghost use Rattle.gc_parse_source.specs.Results.{Gives};
ghost use Rattle.gc_parse_readers.specs.Points.{bare};

use crate::formulas::FormulaRead;
use gc_ast::Formula;
use gc_parse_source::{Refusal, Source};

#[tactic(auto, unfolding(gc_parse_readers::specs::QueryReaders::read_condition_if))]
// [ word expr ], of a reserved word
pub fn condition_if<F: Fn(u32) -> FormulaRead>(
    source: &Source,
    room: u64,
    at: u32,
    word: &str,
    formulas: &F,
) -> Result<(Option<Formula>, u32), Refusal>
    requires reserved { is_reserved word.now ≡ true }
    requires formulas { ReadsFormulas source.now room (F.pre formulas.now) (F.post formulas.now) }
    ensures { Gives (λ condition. option_map (formula_tree source.now.names) condition) source.now.tokens result
        (read_condition_if word.now room (nested (room - 1)) (bare at) (drop at source.now.tokens)) }
{
    if !source.is_word_at(at, word) {
        return Ok((None, at));
    }
    let at = source.the_word(at, word)?;
    let (condition, at) = formulas(at)?;
    Ok((Some(condition), at))
}
