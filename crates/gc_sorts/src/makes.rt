ghost use Rattle.std.specs.Prelude.{◌≡◌, ◌++◌, [], map, IfOk, OnOk};
ghost use Rattle.std.specs.Option.{option_to_list};
ghost use Rattle.gc_expr.specs.Views.{Names};
ghost use Rattle.gc_ast.specs.PatternViews.{named_if, group_term_tree};
ghost use Rattle.gc_ast.specs.QueryViews.{item_tree, part_tree};
ghost use Rattle.gc_ast.specs.Trees.{row};
ghost use Rattle.gc_sorts.specs.Constructs.{part_made, part_stored, use_before, group_uses, copy_uses, part_groups, part_copies, nothing_made, with_part, with_parts, with_item, with_items};
ghost use Rattle.gc_sorts.specs.Variables.{use_by};

use crate::index::Index;
use crate::sort::{Role, UseAt};
use crate::uses::add_if;
use crate::variables::Variables;
use gc_ast::{ConstructPart, ConstructPartList, GroupTermList, Item, ItemList, NameTable};
use gc_base::{Memory, NameAt};
use std::alloc::Global;
use std::marker::Model;

/// What a CONSTRUCT names: the places of its nodes and edges, the paths that it stores, and where its
/// named elements have a GROUP or are a copy.
#[derive(Drop)]
pub(crate) struct Makes<'n> {
    pub made: Variables<'n>,
    pub stored: Index<'n>,
    pub groups: Variables<'n>,
    pub copies: Variables<'n>,
}

impl<'n> Model for Makes<'n> {
    ghost use Rattle.std.specs.Prelude.{◌≡◌};
    ghost use Rattle.gc_sorts.specs.Holders as holders;

    ghost Value = { holders.HeldMade };

    ghost view = { λ m. record {
      names = m.made.names;
      all = record {
        made = m.made.uses;
        stored = m.stored.order;
        groups = m.groups.uses;
        copies = m.copies.uses;
      };
    } };

    ghost invariant = { λ m. (m.stored.names ≡ m.made.names) × (m.groups.names ≡ m.made.names) × (m.copies.names ≡ m.made.names) };
}

impl<'n> Makes<'n> {
    /// Nothing yet.
    pub fn of(alloc: Global, names: &'n NameTable) -> Result<Makes<'n>, Memory>
        ensures { IfOk result (λ makes. makes ≡ record { names = names.now; all = nothing_made }) }
    {
        let made = Variables::of(alloc, names)?;
        let stored = Index::of(alloc, names)?;
        let groups = Variables::of(alloc, names)?;
        let copies = Variables::of(alloc, names)?;
        Ok(Makes {
            made,
            stored,
            groups,
            copies,
        })
    }

    /// Forgets all of it.
    pub fn clear(&mut self)
        ensures { self.new ≡ record { names = self.old.names; all = nothing_made } }
    {
        self.made.cut(0);
        self.stored.cut(0);
        self.groups.cut(0);
        self.copies.cut(0);
    }

    // Adds what a part of a chain names.
    fn add_part(&mut self, part: &ConstructPart) -> Result<(), Memory>
        ensures names { self.new.names ≡ self.old.names }
        ensures ok { OnOk result (self.new.all ≡ with_part self.old.all (part_tree self.old.names part.now)) }
    {
        add_made(&mut self.made, part)?;
        add_stored(&mut self.stored, part)?;
        add_group(&mut self.groups, part)?;
        add_copy(&mut self.copies, part)
    }

    fn add_parts(&mut self, parts: &ConstructPartList) -> Result<(), Memory>
        ensures names { self.new.names ≡ self.old.names }
        ensures ok { OnOk result (self.new.all ≡ with_parts self.old.all (row (map (part_tree self.old.names) parts.now.items))) }
    {
        for part in parts {
            self.add_part(part)?;
        }
        Ok(())
    }

    #[tactic(auto, unfolding(gc_ast::specs::QueryViews::item_by, gc_ast::specs::QueryViews::part_by))]
    fn add_item(&mut self, item: &Item) -> Result<(), Memory>
        ensures names { self.new.names ≡ self.old.names }
        ensures ok { OnOk result (self.new.all ≡ with_item self.old.all (item_tree self.old.names item.now)) }
    {
        match item {
            Item::Graph(_) => Ok(()),
            Item::Chain { parts, .. } => self.add_parts(parts),
        }
    }

    /// Adds what items name.
    pub fn add_items(&mut self, items: &ItemList) -> Result<(), Memory>
        ensures names { self.new.names ≡ self.old.names }
        ensures ok { OnOk result (self.new.all ≡ with_items self.old.all (row (map (item_tree self.old.names) items.now.items))) }
    {
        for item in items {
            self.add_item(item)?;
        }
        Ok(())
    }
}

// The place of a name before a token.
fn use_before(role: Role, name: &Option<NameAt>, token: u32) -> Option<UseAt>
    ensures { (names : Names) → map (use_by names) (option_to_list result) ≡ use_before role (named_if names name.now) token }
{
    match name {
        None => None,
        Some(name) => Some(UseAt {
            name: name.sym,
            token: token.saturating_sub(1),
            role,
        }),
    }
}

/// The word GROUP of a named element.
pub(crate) fn group_use(role: Role, name: &Option<NameAt>, group: &GroupTermList) -> Option<UseAt>
    ensures { (names : Names) → map (use_by names) (option_to_list result) ≡ group_uses role (named_if names name.now)
        (row (map (group_term_tree names) group.now)) }
{
    match group.as_slice().first() {
        None => None,
        Some(term) => use_before(role, name, term.name.token),
    }
}

/// The `=` of a named element.
pub(crate) fn copy_use(role: Role, name: &Option<NameAt>, copy: &Option<NameAt>) -> Option<UseAt>
    ensures { (names : Names) → map (use_by names) (option_to_list result) ≡ copy_uses role (named_if names name.now) (named_if names copy.now) }
{
    match copy {
        None => None,
        Some(copied) => use_before(role, name, copied.token),
    }
}

// Adds a place, if there is one.
fn push_if(variables: &mut Variables, place: Option<UseAt>) -> Result<(), Memory>
    ensures names { variables.new.names ≡ variables.old.names }
    ensures uses { OnOk result (variables.new.uses ≡ variables.old.uses ++ map (use_by variables.old.names) (option_to_list place)) }
{
    match place {
        None => Ok(()),
        Some(place) => variables.push(place),
    }
}

#[tactic(auto, unfolding(gc_ast::specs::QueryViews::part_by, gc_ast::specs::QueryViews::new_element_by))]
fn add_made(made: &mut Variables, part: &ConstructPart) -> Result<(), Memory>
    ensures names { made.new.names ≡ made.old.names }
    ensures uses { OnOk result (made.new.uses ≡ made.old.uses ++ part_made (part_tree made.old.names part.now)) }
{
    match part {
        ConstructPart::Node(element) => add_if(made, Role::Node, &element.name),
        ConstructPart::Edge { element, .. } => add_if(made, Role::Edge, &element.name),
        _ => Ok(()),
    }
}

#[tactic(auto, unfolding(gc_ast::specs::QueryViews::part_by))]
fn add_stored(stored: &mut Index, part: &ConstructPart) -> Result<(), Memory>
    ensures names { stored.new.names ≡ stored.old.names }
    ensures order { OnOk result (stored.new.order ≡ stored.old.order ++ part_stored (part_tree stored.old.names part.now)) }
{
    match part {
        ConstructPart::Stored { name, .. } => stored.push(name.sym),
        _ => Ok(()),
    }
}

#[tactic(auto, unfolding(gc_ast::specs::QueryViews::part_by, gc_ast::specs::QueryViews::new_element_by))]
fn add_group(groups: &mut Variables, part: &ConstructPart) -> Result<(), Memory>
    ensures names { groups.new.names ≡ groups.old.names }
    ensures uses { OnOk result (groups.new.uses ≡ groups.old.uses ++ part_groups (part_tree groups.old.names part.now)) }
{
    match part {
        ConstructPart::Node(element) => {
            push_if(groups, group_use(Role::Node, &element.name, &element.group))
        }
        ConstructPart::Edge { element, .. } => {
            push_if(groups, group_use(Role::Edge, &element.name, &element.group))
        }
        _ => Ok(()),
    }
}

#[tactic(auto, unfolding(gc_ast::specs::QueryViews::part_by, gc_ast::specs::QueryViews::new_element_by))]
fn add_copy(copies: &mut Variables, part: &ConstructPart) -> Result<(), Memory>
    ensures names { copies.new.names ≡ copies.old.names }
    ensures uses { OnOk result (copies.new.uses ≡ copies.old.uses ++ part_copies (part_tree copies.old.names part.now)) }
{
    match part {
        ConstructPart::Node(element) => {
            push_if(copies, copy_use(Role::Node, &element.name, &element.copy))
        }
        ConstructPart::Edge { element, .. } => {
            push_if(copies, copy_use(Role::Edge, &element.name, &element.copy))
        }
        _ => Ok(()),
    }
}
