use crate::construct::ItemList;
use crate::pattern::{ChainList, LocatedList};
use gc_base::NameAt;
use gc_expr::Expr;

/// A statement of a file.
#[derive(Drop)]
pub enum Statement {
    /// `GRAPH VIEW g AS (q)`
    View { name: NameAt, query: Query },
    /// A query, whose answer is the statement's.
    Ask(Query),
}

/// A query: what it declares, and its terms, from the left.
#[derive(Drop)]
#[cycle(query)]
pub struct Query {
    pub heads: HeadList,
    pub first: Term,
    pub rest: NextTermList,
}

/// A later term of a query.
#[derive(Drop)]
#[cycle(query)]
pub struct NextTerm {
    pub op: SetOp,
    pub term: Term,
}

/// The set operations on graphs.
#[derive(Clone, Copy, PartialEq, Eq)]
pub enum SetOp {
    Union,
    Intersect,
    Minus,
}

/// A term of a query. A query in parentheses that has no heads and one term is that term.
#[derive(Drop)]
#[cycle(query)]
pub enum Term {
    /// A CONSTRUCT with its MATCH.
    Basic(Box<Basic>),
    /// A named graph.
    Graph(NameAt),
    /// A query in parentheses.
    Query(Box<Query>),
}

/// What a query declares before its terms.
#[derive(Drop)]
#[cycle(query)]
pub enum Head {
    /// `PATH v = .. WHERE e COST e`
    Path {
        name: NameAt,
        chains: ChainList,
        filter: Option<Formula>,
        cost: Option<Formula>,
    },
    /// `GRAPH g AS (q)`
    Graph {
        name: NameAt,
        query: Query,
    },
}

/// An expression, and the queries of its own EXISTS in text order. Those nested in such a query
/// stand in that query's formulas.
#[derive(Drop)]
#[cycle(query)]
pub struct Formula {
    pub expr: Expr,
    pub exists: QueryList,
}

/// A CONSTRUCT with its MATCH. Its token is CONSTRUCT's.
#[derive(Drop)]
#[cycle(query)]
pub struct Basic {
    pub token: u32,
    pub items: ItemList,
    pub main: MatchBlock,
    pub optionals: OptionalList,
}

/// The patterns of a block and its condition.
#[derive(Drop)]
#[cycle(query)]
pub struct MatchBlock {
    pub patterns: LocatedList,
    pub filter: Option<Formula>,
}

/// An OPTIONAL block. Its token is OPTIONAL's.
#[derive(Drop)]
#[cycle(query)]
pub struct OptionalBlock {
    pub token: u32,
    pub block: MatchBlock,
}

/// The statements of a file.
pub type StatementList = Vec<Statement>;

/// What a query declares.
pub type HeadList = Vec<Head>;

/// The later terms of a query.
pub type NextTermList = Vec<NextTerm>;

/// A list of queries.
pub type QueryList = Vec<Query>;

/// The OPTIONAL blocks of a CONSTRUCT.
pub type OptionalList = Vec<OptionalBlock>;
