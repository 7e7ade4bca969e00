ghost use Rattle.std.specs.Prelude.{◌≡◌, ◌++◌, map, IfOk, OnOk};
ghost use Rattle.gc_expr.specs.Views.{Names, name_of};
ghost use Rattle.gc_ast.specs.PatternViews.{pattern_tree, located_tree, element_by, property_use_by};
ghost use Rattle.gc_ast.specs.Trees.{row, rows};
ghost use Rattle.gc_sorts.specs.Sizes as sizes;
ghost use Rattle.gc_sorts.specs.Uses.{all_of};

use gc_ast::{ChainList, Element, LocatedList, Pattern, PatternList};
use gc_base::Memory;
use std::alloc::Global;

/// The first tokens of the patterns of a block, in text order.
pub(crate) fn located_tokens(alloc: Global, patterns: &LocatedList) -> Result<Vec<u32>, Memory>
    ensures { IfOk result (λ tokens. (names : Names) → tokens.items ≡ all_of sizes.located_tokens (row (map (located_tree names) patterns.now))) }
{
    let mut tokens = Vec::new(alloc);
    for located in patterns.as_slice() {
        add_chain_tokens(&mut tokens, &located.chain.parts)?;
    }
    Ok(tokens)
}

/// The same of the chains of a view.
pub(crate) fn chains_tokens(alloc: Global, chains: &ChainList) -> Result<Vec<u32>, Memory>
    ensures { IfOk result (λ tokens. (names : Names) → tokens.items ≡ all_of (all_of sizes.pattern_tokens)
        (rows (map (λ c. map (pattern_tree names) c.parts) chains.now))) }
{
    let mut tokens = Vec::new(alloc);
    for chain in chains.as_slice() {
        add_chain_tokens(&mut tokens, &chain.parts)?;
    }
    Ok(tokens)
}

/// Adds those of a chain.
pub(crate) fn add_chain_tokens(tokens: &mut Vec<u32>, parts: &PatternList) -> Result<(), Memory>
    ensures { OnOk result ((names : Names) → tokens.new.items ≡ tokens.old.items ++ all_of sizes.pattern_tokens (row (map (pattern_tree names) parts.now))) }
{
    for part in parts.as_slice() {
        add_pattern_tokens(tokens, part)?;
    }
    Ok(())
}

fn add_pattern_tokens(tokens: &mut Vec<u32>, pattern: &Pattern) -> Result<(), Memory>
    ensures { OnOk result ((names : Names) → tokens.new.items ≡ tokens.old.items ++ sizes.pattern_tokens (pattern_tree names pattern.now)) }
{
    match pattern {
        Pattern::Node(element) => add_element_tokens(tokens, element),
        Pattern::Edge { element, .. } => add_element_tokens(tokens, element),
        Pattern::Path { token, .. } => {
            tokens.push(*token)?;
            Ok(())
        }
    }
}

fn add_element_tokens(tokens: &mut Vec<u32>, element: &Element) -> Result<(), Memory>
    ensures { OnOk result ((names : Names) → tokens.new.items ≡ tokens.old.items ++ sizes.element_tokens (element_by (name_of names) element.now)) }
{
    tokens.push(element.token)?;
    for property in element.properties.as_slice() {
        tokens.push(property.token)?;
    }
    Ok(())
}
