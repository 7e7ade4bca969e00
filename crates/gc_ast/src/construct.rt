use crate::query::Formula;
use gc_base::{Direction, Name, NameAt, NameList, Sequence};

/// An item of a CONSTRUCT.
#[derive(Drop)]
#[cycle(query)]
pub enum Item {
    /// All of a named graph.
    Graph(NameAt),
    /// A chain of nodes and links, the changes after it, and its condition.
    Chain {
        parts: ConstructPartList,
        changes: ChangeList,
        when: Option<Formula>,
    },
}

/// A node or a link of a construct chain.
#[derive(Drop)]
#[cycle(query)]
pub enum ConstructPart {
    /// `(x)`
    Node(NewElement),
    /// `-[x]->` and its kin.
    Edge {
        way: Direction,
        element: NewElement,
    },
    /// `-/p/->`, the nodes and edges of a path.
    Projected {
        token: u32,
        name: NameAt,
    },
    /// `-/@p:L {k := e}/->`, a path that is stored.
    Stored {
        token: u32,
        name: NameAt,
        labels: NameList,
        assigns: AssignList,
    },
}

/// A node or an edge of a construct chain: its name, the variable that it copies, the terms that it
/// is grouped by, its labels and its properties. Its token is the first one of its pattern.
#[derive(Drop)]
#[cycle(query)]
pub struct NewElement {
    pub token: u32,
    pub name: Option<NameAt>,
    pub copy: Option<NameAt>,
    pub group: GroupTermList,
    pub labels: NameList,
    pub assigns: AssignList,
}

/// A variable, or a property of one, to group by.
#[derive(Drop)]
pub struct GroupTerm {
    pub name: NameAt,
    pub property: Option<Name>,
}

/// `k := e`. Its token is the property's.
#[derive(Drop)]
#[cycle(query)]
pub struct Assign {
    pub token: u32,
    pub property: Name,
    pub value: Formula,
}

/// A SET or REMOVE after a construct chain.
#[derive(Drop)]
#[cycle(query)]
pub enum Change {
    /// `SET x.k := e`
    Assign { target: NameAt, assign: Assign },
    /// `SET x:l`
    AddLabel { target: NameAt, label: Name },
    /// `REMOVE x.k`
    DropProperty { target: NameAt, property: Name },
    /// `REMOVE x:l`
    DropLabel { target: NameAt, label: Name },
}

/// The items of a CONSTRUCT.
pub type ItemList = Vec<Item>;

/// The parts of a construct chain.
pub type ConstructPartList = Vec<ConstructPart>;

/// The terms that an element is grouped by.
pub type GroupTermList = Sequence<GroupTerm>;

/// The properties that are given to an element.
pub type AssignList = Vec<Assign>;

/// The changes after a construct chain.
pub type ChangeList = Vec<Change>;
