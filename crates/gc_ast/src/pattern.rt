use gc_base::{Direction, LabelGroupList, Name, NameAt, Sequence};
use gc_regx::Regex;

/// A chain of patterns, on the graph of a name or on the one that is used without a name.
#[derive(Drop)]
pub struct Located {
    pub chain: Chain,
    pub on: Option<NameAt>,
}

/// The nodes of a chain and the links between them, in turn.
#[derive(Drop)]
pub struct Chain {
    pub parts: PatternList,
}

/// A node or a link of a chain.
#[derive(Drop)]
pub enum Pattern {
    /// `(x)`
    Node(Element),
    /// `-[x]->` and its kin.
    Edge {
        way: Direction,
        element: Element,
    },
    /// `-/../->`. `regex_at` is the token of the `<` of the expression, and of the `@` of a stored
    /// path.
    Path {
        token: u32,
        regex_at: u32,
        body: PathBody,
    },
}

/// What a node or edge pattern asks for. Its token is the first one of the pattern.
#[derive(Drop)]
pub struct Element {
    pub token: u32,
    pub name: Option<NameAt>,
    pub labels: LabelGroupList,
    pub properties: PropertyUseList,
}

/// `k=v`, which binds v to each value of k. Its token is the property's.
#[derive(Drop)]
pub struct PropertyUse {
    pub token: u32,
    pub property: Name,
    pub value: NameAt,
}

/// What a path pattern asks for. `views` holds the names after `~`, in text order.
#[derive(Drop)]
pub enum PathBody {
    /// `<r>`
    Reach {
        regex: Regex,
        views: NameAtList,
    },
    /// `k SHORTEST p <r> COST c`; no number stands for 1.
    Found {
        k: Option<CountAt>,
        name: NameAt,
        regex: Regex,
        views: NameAtList,
        cost: Option<NameAt>,
    },
    /// `ALL p <r>`
    All {
        name: NameAt,
        regex: Regex,
        views: NameAtList,
    },
    /// `@p:A|B`
    Stored {
        name: NameAt,
        labels: LabelGroupList,
    },
}

/// A number of paths, and its token.
#[derive(Clone, Copy, PartialEq, Eq)]
pub struct CountAt {
    pub count: i64,
    pub token: u32,
}

/// The parts of a chain.
pub type PatternList = Sequence<Pattern>;

/// A list of chains.
pub type ChainList = Sequence<Chain>;

/// The chains of a block.
pub type LocatedList = Sequence<Located>;

/// The properties of a pattern.
pub type PropertyUseList = Sequence<PropertyUse>;

/// A list of names with their tokens.
pub type NameAtList = Sequence<NameAt>;
