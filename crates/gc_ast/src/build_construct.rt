ghost use Rattle.std.specs.Prelude.{◌≡◌, map};
ghost use Rattle.std.specs.Option.{option_map};
ghost use Rattle.gc_expr.specs.Views.{Names};
ghost use Rattle.gc_ast.specs.Trees as tree;
ghost use Rattle.gc_ast.specs.Trees.{row, maybe};
ghost use Rattle.gc_ast.specs.PatternViews.{named, named_if, group_term_tree};
ghost use Rattle.gc_ast.specs.QueryViews.{formula_tree, item_tree, part_tree, new_element_tree, assign_tree, change_tree};

use crate::construct::{
    Assign, AssignList, Change, ChangeList, ConstructPart, ConstructPartList, GroupTermList, Item,
    NewElement,
};
use crate::query::Formula;
use gc_base::{Direction, Name, NameAt, NameList};

#[tactic(auto, unfolding(crate::specs::QueryViews::item_by, crate::specs::QueryViews::part_by, crate::specs::QueryViews::change_by, crate::specs::QueryViews::formula_by))]
impl Item {
    /// All of a named graph.
    pub fn graph(name: NameAt) -> Item
        ensures { (names : Names) → item_tree names result ≡ tree.GraphItem (named names name) }
    {
        Item::Graph(name)
    }

    /// A chain, the changes after it, and its condition.
    pub fn chain(parts: ConstructPartList, changes: ChangeList, condition: Option<Formula>) -> Item
        ensures { (names : Names) → item_tree names result ≡ tree.ChainItem (row (map (part_tree names) parts.items)) (row (map (change_tree names) changes.items)) (maybe (option_map (formula_tree names) condition)) }
    {
        Item::Chain {
            parts,
            changes,
            when: condition,
        }
    }
}

#[tactic(auto, unfolding(crate::specs::QueryViews::part_by, crate::specs::QueryViews::new_element_by, crate::specs::QueryViews::assign_by))]
impl ConstructPart {
    /// `(x)`
    pub fn node(element: NewElement) -> ConstructPart
        ensures { (names : Names) → part_tree names result ≡ tree.NewNode (new_element_tree names element) }
    {
        ConstructPart::Node(element)
    }

    /// `-[x]->` and its kin.
    pub fn edge(way: Direction, element: NewElement) -> ConstructPart
        ensures { (names : Names) → part_tree names result ≡ tree.NewEdge way (new_element_tree names element) }
    {
        ConstructPart::Edge { way, element }
    }

    /// `-/p/->`
    pub fn projected(token: u32, name: NameAt) -> ConstructPart
        ensures { (names : Names) → part_tree names result ≡ tree.Projected token (named names name) }
    {
        ConstructPart::Projected { token, name }
    }

    /// `-/@p:L {k := e}/->`
    pub fn stored(token: u32, name: NameAt, labels: NameList, assigns: AssignList) -> ConstructPart
        ensures { (names : Names) → part_tree names result ≡ tree.NewStored token (named names name) labels (row (map (assign_tree names) assigns.items)) }
    {
        ConstructPart::Stored {
            token,
            name,
            labels,
            assigns,
        }
    }
}

#[tactic(auto, unfolding(crate::specs::QueryViews::new_element_by, crate::specs::QueryViews::assign_by))]
impl NewElement {
    /// A node or an edge: its name, what it copies, what it is grouped by, its labels and properties.
    pub fn of(
        token: u32,
        name: Option<NameAt>,
        copy: Option<NameAt>,
        group: GroupTermList,
        labels: NameList,
        assigns: AssignList,
    ) -> NewElement
        ensures { (names : Names) → new_element_tree names result ≡ tree.NewElement token (named_if names name) (named_if names copy) (row (map (group_term_tree names) group)) labels (row (map (assign_tree names) assigns.items)) }
    {
        NewElement {
            token,
            name,
            copy,
            group,
            labels,
            assigns,
        }
    }
}

#[tactic(auto, unfolding(crate::specs::QueryViews::assign_by, crate::specs::QueryViews::formula_by))]
impl Assign {
    /// `k := e`
    pub fn of(token: u32, property: Name, value: Formula) -> Assign
        ensures { (names : Names) → assign_tree names result ≡ tree.Assign token property (formula_tree names value) }
    {
        Assign {
            token,
            property,
            value,
        }
    }
}

#[tactic(auto, unfolding(crate::specs::QueryViews::change_by, crate::specs::QueryViews::assign_by))]
impl Change {
    /// `SET x.k := e`
    pub fn set_property(target: NameAt, assign: Assign) -> Change
        ensures { (names : Names) → change_tree names result ≡ tree.SetProperty (named names target) (assign_tree names assign) }
    {
        Change::Assign { target, assign }
    }

    /// `SET x:l`
    pub fn add_label(target: NameAt, label: Name) -> Change
        ensures { (names : Names) → change_tree names result ≡ tree.AddLabel (named names target) label }
    {
        Change::AddLabel { target, label }
    }

    /// `REMOVE x.k`
    pub fn drop_property(target: NameAt, property: Name) -> Change
        ensures { (names : Names) → change_tree names result ≡ tree.DropProperty (named names target) property }
    {
        Change::DropProperty { target, property }
    }

    /// `REMOVE x:l`
    pub fn drop_label(target: NameAt, label: Name) -> Change
        ensures { (names : Names) → change_tree names result ≡ tree.DropLabel (named names target) label }
    {
        Change::DropLabel { target, label }
    }
}
