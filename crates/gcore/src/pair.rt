ghost use Rattle.std.specs.Prelude.{◌≡◌, map, string_bytes, IfOk};
ghost use Rattle.gcore.specs.Outcomes.{graph_names};
ghost use Rattle.gcore.specs.Pairs.{names_differ, has_name};

use crate::command::CommandRefusal;
use gc_base::{Duplicate, Memory, Name, NameList, Sequence, Str, is_reserved};
use std::alloc::Global;

/// A name and the word of the graph file that it stands for.
#[derive(Debug, Drop)]
pub struct Pair {
    pub name: Name,
    pub file: Str,
}

/// Pairs, in the order of the words.
pub type PairList = Sequence<Pair>;

/// How many graph files a command may have.
const MOST_GRAPHS: usize = 8;

impl Pair {
    ghost use Rattle.gcore.specs.CommandLines.{IsPair, IsNamedFile};

    // The pair of a word, which is split at its first `=`.
    fn of(alloc: Global, word: &str) -> Result<Pair, CommandRefusal>
        ensures { IsPair word.now result }
    {
        match word.split_once('=') {
            None => Err(CommandRefusal::Usage),
            Some((name, file)) => Pair::named(alloc, name, file),
        }
    }

    // The pair of a name and a file's word.
    fn named(alloc: Global, name: &str, file: &str) -> Result<Pair, CommandRefusal>
        ensures { IsNamedFile name.now file.now result }
    {
        let Some(name) = Name::of(alloc, name.as_bytes())? else {
            return Err(CommandRefusal::Usage);
        };
        if is_reserved(&name) || file.is_empty() {
            return Err(CommandRefusal::Usage);
        }
        let file = Str::of(alloc, file)?;
        Ok(Pair { name, file })
    }
}

ghost use Rattle.gcore.specs.CommandLines.{AreGraphs, ArePairs};

/// The graph files of some words: one to eight, under names that differ and are not reserved.
pub fn graphs_of(alloc: Global, words: &[String]) -> Result<PairList, CommandRefusal>
    ensures { AreGraphs (map string_bytes words.now) result }
{
    let graphs = pairs_of(alloc, words)?;
    let count = graphs.len();
    if count == 0 || count > MOST_GRAPHS || !names_differ(graphs.as_slice()) {
        return Err(CommandRefusal::Usage);
    }
    Ok(graphs)
}

fn pairs_of(alloc: Global, words: &[String]) -> Result<PairList, CommandRefusal>
    ensures { ArePairs (map string_bytes words.now) result }
{
    let mut pairs = PairList::new(alloc);
    for word in words {
        pairs.push(Pair::of(alloc, word.as_str())?)?;
    }
    Ok(pairs)
}

/// The names of pairs, in their order.
pub fn names_of(alloc: Global, pairs: &[Pair]) -> Result<NameList, Memory>
    ensures { IfOk result (λ names. names ≡ graph_names pairs.now) }
{
    let mut names = NameList::new(alloc);
    for pair in pairs {
        names.push(pair.name.copy()?)?;
    }
    Ok(names)
}

// Whether no name comes twice.
fn names_differ(pairs: &[Pair]) -> bool
    ensures { result ≡ names_differ pairs.now }
{
    for (i, pair) in pairs.iter().enumerate() {
        if has_name(&pairs[i + 1..], &pair.name) {
            return false;
        }
    }
    true
}

fn has_name(pairs: &[Pair], name: &Name) -> bool
    ensures { result ≡ has_name pairs.now name.now }
{
    pairs.iter().any(|pair| pair.name == *name)
}
