ghost use Rattle.std.specs.Prelude.{◌-◌, ◌<◌, codes, drop};
ghost use Rattle.std.specs.Option.{option_map};
ghost use Rattle.gc_ast.specs.QueryViews.{formula_tree, head_tree};
ghost use Rattle.gc_ast.specs.Trees.{maybe};
ghost use Rattle.gc_parse_readers.specs.Readers.{read_both};
ghost use Rattle.gc_parse_readers.specs.Points.{bare};
ghost use Rattle.gc_parse_readers.specs.QueryReaders.{nested, read_condition_if, read_path_head, read_where};
ghost use Rattle.gc_parse_source.specs.Results.{Gives};

use crate::formulas::condition_if;
use gc_ast::{Formula, Head};
use gc_lex::Mark;
use gc_parse_patterns::path_chains;
use gc_parse_source::{Refusal, Source};

#[tactic(auto, unfolding(gc_parse_readers::specs::QueryReaders::read_path_head))]
#[cycle(query)]
// `PATH` name `=` vchain { `,` vchain } [ `WHERE` expr ] [ `COST` expr ]
pub(crate) fn path_head(source: &Source, room: u64, at: u32) -> Result<(Head, u32), Refusal>
    requires { 0 < room }
    ensures { Gives (head_tree source.now.names) source.now.tokens result (read_path_head room (nested (room - 1)) (bare at) (drop at source.now.tokens)) }
{
    let at = source.the_word(at, "PATH")?;
    let (name, at) = source.name(at)?;
    let at = source.mark(at, Mark::Equals)?;
    let (chains, at) = path_chains(source, room, at)?;
    let ((filter, cost), at) = filter_and_cost(source, room, at)?;
    Ok((Head::path(name, chains, filter, cost), at))
}

#[tactic(auto, unfolding(gc_parse_readers::specs::QueryReaders::read_where))]
#[cycle(query)]
// [ `WHERE` expr ] [ `COST` expr ]
fn filter_and_cost(
    source: &Source,
    room: u64,
    at: u32,
) -> Result<((Option<Formula>, Option<Formula>), u32), Refusal>
    requires { 0 < room }
    ensures { Gives (λ found. (maybe (option_map (formula_tree source.now.names) found.0), option_map (formula_tree source.now.names) found.1))
        source.now.tokens result (read_both (read_where room (nested (room - 1))) (read_condition_if (codes "COST") room (nested (room - 1)))
        (bare at) (drop at source.now.tokens)) }
{
    let (filter, at) = condition_if(source, room, at, "WHERE")?;
    let (cost, at) = condition_if(source, room, at, "COST")?;
    Ok(((filter, cost), at))
}
