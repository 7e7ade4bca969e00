ghost use Rattle.std.specs.Prelude.{◌-◌, ◌<◌, ◌∷◌, [], drop, map};
ghost use Rattle.gc_lex.specs.declared.token.Mark.TheVariants as mark;
ghost use Rattle.gc_ast.specs.QueryViews.{item_tree, part_tree};
ghost use Rattle.gc_parse_readers.specs.Kinds.{mark_kind};
ghost use Rattle.gc_parse_readers.specs.Readers.{in_front, read_both, read_many, read_behind, read_separated, read_mark};
ghost use Rattle.gc_parse_readers.specs.ConstructReaders.{read_cchain, read_clink, read_cnode, read_chain_item, read_item, read_new_path, read_new_stored};
ghost use Rattle.gc_parse_source.specs.Turns.{in_front_in_turn};
ghost use Rattle.gc_parse_readers.specs.PatternReaders.{link_kinds};
ghost use Rattle.gc_parse_readers.specs.QueryReaders.{nested};
ghost use Rattle.gc_parse_constructs.specs.Formulas.{ReadsFormulas};
ghost use Rattle.gc_parse_source.specs.Results.{Gives};
ghost use Rattle.gc_parse_readers.specs.Points.{bare};

use crate::assigns::{assigns_if, listed_assigns, subs};
use crate::changes::{new_labels, projected};
use crate::conditions::condition_if;
use crate::formulas::FormulaRead;
use crate::new_elements::{cnode, new_edge};
use gc_ast::{ConstructPart, ConstructPartList, Item, ItemList};
use gc_lex::Mark;
use gc_parse_source::{Refusal, Source, is_link_at, is_path_at, is_projected_at, one};

#[tactic(auto, unfolding(gc_parse_readers::specs::ConstructReaders::read_new_stored, gc_parse_readers::specs::PatternReaders::read_in_slashes))]
// `-` `/` `@` name { `:` word } [ assigns ] `/` `-` `>`
fn new_stored<F: Fn(u32) -> FormulaRead>(
    source: &Source,
    room: u64,
    at: u32,
    formulas: &F,
) -> Result<(ConstructPart, u32), Refusal>
    requires { ReadsFormulas source.now room (F.pre formulas.now) (F.post formulas.now) }
    ensures { Gives (part_tree source.now.names) source.now.tokens result (read_new_stored room (nested (room - 1)) (bare at) (drop at source.now.tokens)) }
{
    let token = at;
    let at = source.mark(at, Mark::Minus)?;
    let at = source.mark(at, Mark::Slash)?;
    let at = source.mark(at, Mark::AtSign)?;
    let (name, at) = source.name(at)?;
    let (labels, at) = new_labels(source, room, at)?;
    let (assigns, at) = assigns_if(source, room, at, formulas)?;
    let at = source.mark(at, Mark::Slash)?;
    let at = source.mark(at, Mark::Minus)?;
    let at = source.mark(at, Mark::Greater)?;
    let assigns = listed_assigns(source.alloc(), assigns);
    Ok((ConstructPart::stored(token, name, labels, assigns), at))
}

#[tactic(auto, unfolding(gc_parse_readers::specs::ConstructReaders::read_new_path))]
// `-` `/` name `/` `-` `>` | `-` `/` `@` name { `:` word } [ assigns ] `/` `-` `>`
fn new_path<F: Fn(u32) -> FormulaRead>(
    source: &Source,
    room: u64,
    at: u32,
    formulas: &F,
) -> Result<(ConstructPart, u32), Refusal>
    requires { ReadsFormulas source.now room (F.pre formulas.now) (F.post formulas.now) }
    ensures { Gives (part_tree source.now.names) source.now.tokens result (read_new_path room (nested (room - 1)) (bare at) (drop at source.now.tokens)) }
{
    if is_projected_at(source, at) {
        projected(source, at)
    } else {
        new_stored(source, room, at, formulas)
    }
}

#[tactic(auto, unfolding(gc_parse_readers::specs::ConstructReaders::read_clink))]
// clink = `-` `[` celement `]` `-` [ `>` ] | `<` `-` `[` celement `]` `-`
//     | `-` `/` name `/` `-` `>` | `-` `/` `@` name { `:` word } [ assigns ] `/` `-` `>`
fn clink<F: Fn(u32) -> FormulaRead>(
    source: &Source,
    room: u64,
    at: u32,
    formulas: &F,
) -> Result<(ConstructPart, u32), Refusal>
    requires { ReadsFormulas source.now room (F.pre formulas.now) (F.post formulas.now) }
    ensures { Gives (part_tree source.now.names) source.now.tokens result (read_clink room (nested (room - 1)) (bare at) (drop at source.now.tokens)) }
{
    if is_path_at(source, at) {
        new_path(source, room, at, formulas)
    } else {
        new_edge(source, room, at, formulas)
    }
}

#[tactic(auto, unfolding(gc_parse_readers::specs::ConstructReaders::read_cchain, gc_parse_readers::specs::PatternReaders::read_linked))]
// cchain = cnode { clink cnode }
fn cchain<F: Fn(u32) -> FormulaRead>(
    source: &Source,
    room: u64,
    at: u32,
    formulas: &F,
) -> Result<(ConstructPartList, u32), Refusal>
    requires { ReadsFormulas source.now room (F.pre formulas.now) (F.post formulas.now) }
    ensures { Gives (λ parts. map (part_tree source.now.names) parts.items) source.now.tokens result
        (read_cchain room (nested (room - 1)) (bare at) (drop at source.now.tokens)) }
{
    let (first, at) = cnode(source, room, at, formulas)?;
    let (parts, at) = linked_parts(source, room, at, first, formulas)?;
    Ok((parts, at))
}

// { clink cnode } behind a first node
fn linked_parts<F: Fn(u32) -> FormulaRead>(
    source: &Source,
    room: u64,
    from: u32,
    first: ConstructPart,
    formulas: &F,
) -> Result<(ConstructPartList, u32), Refusal>
    requires { ReadsFormulas source.now room (F.pre formulas.now) (F.post formulas.now) }
    ensures { Gives (λ parts. map (part_tree source.now.names) parts.items) source.now.tokens result
        (in_front_in_turn (part_tree source.now.names first ∷ []) (read_many link_kinds
        (read_both (read_clink room (nested (room - 1))) (read_cnode room (nested (room - 1)))) room (bare from) (drop from source.now.tokens))) }
{
    let mut parts = one(source.alloc(), first)?;
    let mut at = from;
    for _ in 0..room {
        if !is_link_at(source, at) {
            return Ok((parts, at));
        }
        let ((link, node), next) = link_and_node(source, room, at, formulas)?;
        parts.push(link)?;
        parts.push(node)?;
        at = next;
    }
    Ok((parts, at))
}

// clink cnode
fn link_and_node<F: Fn(u32) -> FormulaRead>(
    source: &Source,
    room: u64,
    at: u32,
    formulas: &F,
) -> Result<((ConstructPart, ConstructPart), u32), Refusal>
    requires { ReadsFormulas source.now room (F.pre formulas.now) (F.post formulas.now) }
    ensures { Gives (λ linked. (part_tree source.now.names linked.0, part_tree source.now.names linked.1)) source.now.tokens result
        (read_both (read_clink room (nested (room - 1))) (read_cnode room (nested (room - 1))) (bare at) (drop at source.now.tokens)) }
{
    let (link, at) = clink(source, room, at, formulas)?;
    let (node, at) = cnode(source, room, at, formulas)?;
    Ok(((link, node), at))
}

#[tactic(auto, unfolding(gc_parse_readers::specs::ConstructReaders::read_chain_item, gc_parse_readers::specs::QueryReaders::read_condition_if))]
// cchain { sub } [ `WHEN` expr ]
fn chain_item<F: Fn(u32) -> FormulaRead>(
    source: &Source,
    room: u64,
    at: u32,
    formulas: &F,
) -> Result<(Item, u32), Refusal>
    requires { ReadsFormulas source.now room (F.pre formulas.now) (F.post formulas.now) }
    ensures { Gives (item_tree source.now.names) source.now.tokens result (read_chain_item room (nested (room - 1)) (bare at) (drop at source.now.tokens)) }
{
    let (parts, at) = cchain(source, room, at, formulas)?;
    let (changes, at) = subs(source, room, at, formulas)?;
    let (condition, at) = condition_if(source, room, at, "WHEN", formulas)?;
    Ok((Item::chain(parts, changes, condition), at))
}

#[tactic(auto, unfolding(gc_parse_readers::specs::ConstructReaders::read_item))]
// item = name | cchain { sub } [ `WHEN` expr ]
fn item<F: Fn(u32) -> FormulaRead>(
    source: &Source,
    room: u64,
    at: u32,
    formulas: &F,
) -> Result<(Item, u32), Refusal>
    requires { ReadsFormulas source.now room (F.pre formulas.now) (F.post formulas.now) }
    ensures { Gives (item_tree source.now.names) source.now.tokens result (read_item room (nested (room - 1)) (bare at) (drop at source.now.tokens)) }
{
    if !source.is_name_at(at) {
        return chain_item(source, room, at, formulas);
    }
    let (name, at) = source.name(at)?;
    Ok((Item::graph(name), at))
}

// item { `,` item }
pub fn items<F: Fn(u32) -> FormulaRead>(
    source: &Source,
    room: u64,
    at: u32,
    formulas: &F,
) -> Result<(ItemList, u32), Refusal>
    requires { ReadsFormulas source.now room (F.pre formulas.now) (F.post formulas.now) }
    ensures { Gives (λ items. map (item_tree source.now.names) items.items) source.now.tokens result
        (read_separated (mark_kind mark.Comma ∷ []) (read_item room (nested (room - 1))) (read_mark mark.Comma) room (bare at) (drop at source.now.tokens)) }
{
    let (first, at) = item(source, room, at, formulas)?;
    let (items, at) = later_items(source, room, at, first, formulas)?;
    Ok((items, at))
}

// { `,` item } behind a first item
fn later_items<F: Fn(u32) -> FormulaRead>(
    source: &Source,
    room: u64,
    from: u32,
    first: Item,
    formulas: &F,
) -> Result<(ItemList, u32), Refusal>
    requires { ReadsFormulas source.now room (F.pre formulas.now) (F.post formulas.now) }
    ensures { Gives (λ items. map (item_tree source.now.names) items.items) source.now.tokens result
        (in_front (item_tree source.now.names first ∷ []) (read_many (mark_kind mark.Comma ∷ [])
        (read_behind (read_mark mark.Comma) (read_item room (nested (room - 1)))) room (bare from) (drop from source.now.tokens))) }
{
    let mut items = one(source.alloc(), first)?;
    let mut at = from;
    for _ in 0..room {
        if !source.is_at(at, Mark::Comma) {
            return Ok((items, at));
        }
        let (item, next) = later_item(source, room, at, formulas)?;
        items.push(item)?;
        at = next;
    }
    Ok((items, at))
}

// `,` item
fn later_item<F: Fn(u32) -> FormulaRead>(
    source: &Source,
    room: u64,
    at: u32,
    formulas: &F,
) -> Result<(Item, u32), Refusal>
    requires { ReadsFormulas source.now room (F.pre formulas.now) (F.post formulas.now) }
    ensures { Gives (item_tree source.now.names) source.now.tokens result
        (read_behind (read_mark mark.Comma) (read_item room (nested (room - 1))) (bare at) (drop at source.now.tokens)) }
{
    let at = source.mark(at, Mark::Comma)?;
    let (item, at) = item(source, room, at, formulas)?;
    Ok((item, at))
}
