ghost use Rattle.std.specs.Prelude.{◌≡◌, [], length, map, None, Some, Ok, Err, IfOk};
ghost use Rattle.gc_ast.specs.QueryViews.{file_trees};
ghost use Rattle.gc_ast.specs.Trees.{row};
ghost use Rattle.gc_sorts.specs.SortRules.{first_breach};
ghost use Rattle.gc_sorts.specs.BlockTokens.{with_tokens};
ghost use Rattle.gc_sorts.specs.Blocks.{file_blocks};
ghost use Rattle.gc_sorts.specs.Collected.{collect, nothing};
ghost use Rattle.gc_sorts.specs.Occurrences.{file_occurrences};
ghost use Rattle.gc_sorts.specs.Checks.{IsChecked, token_place};
ghost use Rattle.gc_sorts.specs.Ways.{file_ways};

use crate::block_tokens::block_tokens;
use crate::blocking::ways_in;
use crate::breach::Breach;
use crate::checked::Checked;
use crate::found::Found;
use crate::numbers::TokenNumbers;
use crate::reading::found_in;
use crate::refusal::SortRefusal;
use crate::statements::first_breach;
use crate::way_walk::WayList;
use gc_ast::File;
use gc_base::{Duplicate, Memory, NameList, Place};
use std::alloc::Global;

/// Whether a file over graphs of these names breaks no sort rule. It is refused with its first breach: of
/// the rule that is broken at the earliest token, and of several at one token the one of the least number.
pub fn check(alloc: Global, file: File, graphs: &NameList) -> Result<Checked, SortRefusal>
    ensures { IsChecked file graphs.now (first_breach graphs.now (row (file_trees file))) result }
{
    match first_breach(alloc, &file, graphs) {
        Ok(None) => kept(alloc, file, graphs),
        Ok(Some(breach)) => Err(SortRefusal::Broken {
            rule: breach.rule,
            at: place_of(&file, breach),
        }),
        Err(Memory) => Err(SortRefusal::Memory),
    }
}

// The file, which breaks no rule, with a copy of the names and what stands at its tokens.
fn kept(alloc: Global, file: File, graphs: &NameList) -> Result<Checked, SortRefusal>
    requires { first_breach graphs.now (row (file_trees file)) ≡ None }
    ensures { IsChecked file graphs.now (first_breach graphs.now (row (file_trees file))) result }
{
    match read(alloc, &file, graphs) {
        Ok(read) => Ok(Checked::of(file, read.graphs, read.found, read.ways, read.tokens)),
        Err(Memory) => Err(SortRefusal::Memory),
    }
}

// What is kept with a file: a copy of the names of the graphs, what stands at its tokens, and the ways to its blocks.
#[derive(Drop)]
struct Findings {
    graphs: NameList,
    found: Found,
    ways: WayList,
    tokens: TokenNumbers,
}

fn read(alloc: Global, file: &File, graphs: &NameList) -> Result<Findings, Memory>
    ensures graphs { IfOk result (λ read. read.graphs ≡ graphs.now) }
    ensures found { IfOk result (λ read. read.found ≡ collect (nothing (length file.now.names)) (file_occurrences graphs.now (row (file_trees file.now)))) }
    ensures ways { IfOk result (λ read. map (λ way. way.items) read.ways ≡ file_ways (row (file_trees file.now))) }
    ensures tokens { IfOk result (λ read. read.tokens ≡ with_tokens [] 0 (file_blocks (row (file_trees file.now)))) }
{
    let found = found_in(alloc, file, graphs)?;
    let graphs = graphs.copy()?;
    let ways = ways_in(alloc, file)?;
    let tokens = block_tokens(alloc, file, &ways)?;
    Ok(Findings {
        graphs,
        found,
        ways,
        tokens,
    })
}

// The place of the token of a breach.
fn place_of(file: &File, breach: Breach) -> Place
    ensures { result ≡ token_place file.now breach.token }
{
    if breach.token < file.places.len() as u64 {
        file.place(breach.token as u32)
    } else {
        file.end
    }
}
