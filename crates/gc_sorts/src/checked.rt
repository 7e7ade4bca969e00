ghost use Rattle.std.specs.Prelude.{◌≡◌, [], length, map, slice_get, None, IfOk};
ghost use Rattle.std.specs.Option.{option_map};
ghost use Rattle.gc_expr.specs.Views.{name_of};
ghost use Rattle.gc_ast.specs.QueryViews.{file_trees};
ghost use Rattle.gc_ast.specs.Trees.{row};
ghost use Rattle.gc_sorts.specs.BlockTokens.{with_tokens};
ghost use Rattle.gc_sorts.specs.Blocks.{around_in, block_at, block_in, file_blocks, sort_in};
ghost use Rattle.gc_sorts.specs.Collected.{collect, nothing};
ghost use Rattle.gc_sorts.specs.Occurrences.{file_occurrences};
ghost use Rattle.gc_sorts.specs.Reads.{graph_at, view_at, hidden_from};
ghost use Rattle.gc_sorts.specs.FileBlocks.{around_by, block_by};
ghost use Rattle.gc_sorts.specs.SortRules.{first_breach};
ghost use Rattle.gc_sorts.specs.Ways.{file_ways};

use crate::file_block::{FileBlock, PartAround};
use crate::first_sorts::Sought;
use crate::following::{around_at, block_at, sort_at};
use crate::found::Found;
use crate::numbers::TokenNumbers;
use crate::sort::Sort;
use crate::way_walk::WayList;
use gc_ast::File;
use gc_base::{BlockNo, Memory, NameList, Sym, ViewNo};
use std::alloc::Global;

/// A query file that breaks no sort rule over graphs of the names that it keeps, with what stands at its
/// tokens.
#[derive(Drop)]
pub struct Checked {
    file: File,
    graphs: NameList,
    found: Found,
    ways: WayList,
    tokens: TokenNumbers,
    pub ghost unbroken: { first_breach graphs (row (file_trees file)) ≡ None },
    pub ghost all_found: { found ≡ collect (nothing (length file.names)) (file_occurrences graphs (row (file_trees file))) },
    pub ghost all_ways: { map (λ way. way.items) ways ≡ file_ways (row (file_trees file)) },
    pub ghost all_tokens: { tokens ≡ with_tokens [] 0 (file_blocks (row (file_trees file))) },
}

impl Checked {
    /// The file.
    pub fn file(&self) -> &File
        ensures file { result.now ≡ self.now.file }
        ensures unbroken { first_breach self.now.graphs (row (file_trees self.now.file)) ≡ None }
    {
        &self.file
    }

    /// The names of the graphs over which it was checked.
    pub fn graphs(&self) -> &NameList
        ensures { result.now ≡ self.now.graphs }
    {
        &self.graphs
    }

    /// The number of the graph whose name stands at a token, in ON, as a term or as an item: the graphs of
    /// the session come first, then those of the statements before, then those of the queries around.
    pub fn graph_at(&self, token: u32) -> Option<u32>
        ensures { result ≡ graph_at (file_occurrences self.now.graphs (row (file_trees self.now.file))) token }
    {
        self.found.graphs.get(token)
    }

    /// The view whose name stands at a token behind `~`; views are numbered by their PATH heads in the file.
    pub fn view_at(&self, token: u32) -> Option<ViewNo>
        ensures { option_map (λ view. view.0) result ≡ view_at (file_occurrences self.now.graphs (row (file_trees self.now.file))) token }
    {
        match self.found.views.get(token) {
            Some(number) => Some(ViewNo(number)),
            None => None,
        }
    }

    /// The hidden variable of the unnamed node or edge at a token, of a MATCH or of a CONSTRUCT; hidden
    /// variables are numbered behind the names of the file.
    pub fn hidden_at(&self, token: u32) -> Option<Sym>
        ensures { option_map (λ sym. sym.0) result ≡ hidden_from (length self.now.file.names)
            (file_occurrences self.now.graphs (row (file_trees self.now.file))) token }
    {
        match self.found.hidden.get(token) {
            Some(number) => Some(Sym(number)),
            None => None,
        }
    }

    /// The number of the block of the CONSTRUCT at a token, or of the PATH head whose name is at a token. An EXISTS
    /// query has none at its token.
    pub fn block_at(&self, token: u32) -> Option<BlockNo>
        ensures { option_map (λ block. block.0) result ≡ block_at (file_blocks (row (file_trees self.now.file))) token }
    {
        match self.tokens.get(token) {
            Some(number) => Some(BlockNo(number)),
            None => None,
        }
    }

    /// The block of a number, if there is one. Blocks are numbered from 0 on in the order of the text; a MATCH with
    /// its OPTIONAL blocks is one, the chains of a PATH view are one, and that of an EXISTS query comes behind the one
    /// in whose WHERE it stands.
    pub fn block(&self, number: BlockNo) -> Option<FileBlock<'_>>
        ensures { option_map (block_by self.now.file.names) result ≡ block_in (slice_get (file_blocks (row (file_trees self.now.file))) number.0) }
    {
        if number.0 < self.ways.len() {
            block_at(&self.file.statements, self.ways.at(number.0).as_slice())
        } else {
            None
        }
    }

    /// The parts in whose WHERE the block of a number stands, from the outermost on; none, if there is no such block.
    pub fn around(&self, alloc: Global, number: BlockNo) -> Result<Vec<PartAround<'_>>, Memory>
        ensures { IfOk result (λ parts. map (around_by self.now.file.names) parts.items
            ≡ around_in (slice_get (file_blocks (row (file_trees self.now.file))) number.0)) }
    {
        if number.0 < self.ways.len() {
            around_at(
                alloc,
                &self.file.statements,
                self.ways.at(number.0).as_slice(),
            )
        } else {
            Ok(Vec::new(alloc))
        }
    }

    /// The sort of a variable with a name in the block of a number, if the block has or sees it: that of its first
    /// place there, those of the parts around being first. It takes no memory.
    pub fn sort(&self, block: BlockNo, name: Sym) -> Option<Sort>
        ensures { result ≡ sort_in (file_blocks (row (file_trees self.now.file))) block.0 (name_of self.now.file.names name) }
    {
        if block.0 < self.ways.len() {
            let sought = Sought {
                names: &self.file.names,
                name,
            };
            sort_at(
                &self.file.statements,
                self.ways.at(block.0).as_slice(),
                sought,
            )
        } else {
            None
        }
    }

    // The file, which breaks no rule over graphs of these names, with what stands at its tokens, and with
    // the ways to its blocks.
    pub(crate) fn of(
        file: File,
        graphs: NameList,
        found: Found,
        ways: WayList,
        tokens: TokenNumbers,
    ) -> Checked
        requires unbroken { first_breach graphs (row (file_trees file)) ≡ None }
        requires all_found { found ≡ collect (nothing (length file.names)) (file_occurrences graphs (row (file_trees file))) }
        requires all_ways { map (λ way. way.items) ways ≡ file_ways (row (file_trees file)) }
        requires all_tokens { tokens ≡ with_tokens [] 0 (file_blocks (row (file_trees file))) }
        ensures file { result.file ≡ file }
        ensures graphs { result.graphs ≡ graphs }
    {
        Checked {
            file,
            graphs,
            found,
            ways,
            tokens,
        }
    }
}
