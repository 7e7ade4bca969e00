ghost use Rattle.std.specs.Prelude.{◌≡◌, map, IfOk};
ghost use Rattle.std.specs.Option.{option_map};
ghost use Rattle.gc_expr.specs.Views.{Names, expr_tree};
ghost use Rattle.gc_ast.specs.Trees as tree;
ghost use Rattle.gc_ast.specs.Trees.{row, rows, maybe};
ghost use Rattle.gc_ast.specs.PatternViews.{named, pattern_tree, located_tree};
ghost use Rattle.gc_ast.specs.QueryViews.{statement_tree, query_tree, term_tree, head_tree, next_term_tree, basic_tree, formula_tree, block_tree, optional_tree, item_tree};

use crate::construct::ItemList;
use crate::pattern::{ChainList, LocatedList};
use crate::query::{
    Basic, Formula, Head, HeadList, MatchBlock, NextTerm, NextTermList, OptionalBlock,
    OptionalList, Query, QueryList, SetOp, Statement, Term,
};
use gc_base::{Memory, NameAt};
use gc_expr::Expr;
use std::alloc::Global;

impl Statement {
    /// `GRAPH VIEW g AS (q)`
    pub fn view(name: NameAt, query: Query) -> Statement
        ensures { (names : Names) → statement_tree names result ≡ tree.View (named names name) (query_tree names query) }
    {
        Statement::View { name, query }
    }

    /// A query, whose answer is the statement's.
    pub fn ask(query: Query) -> Statement
        ensures { (names : Names) → statement_tree names result ≡ tree.Ask (query_tree names query) }
    {
        Statement::Ask(query)
    }
}

#[tactic(auto, unfolding(crate::specs::QueryViews::query_by, crate::specs::QueryViews::head_by, crate::specs::QueryViews::term_by, crate::specs::QueryViews::next_term_by))]
impl Query {
    /// A query of its heads, its first term and the later ones.
    pub fn of(heads: HeadList, first: Term, rest: NextTermList) -> Query
        ensures { (names : Names) → query_tree names result ≡ tree.Query (row (map (head_tree names) heads.items)) (term_tree names first) (row (map (next_term_tree names) rest.items)) }
    {
        Query { heads, first, rest }
    }
}

#[tactic(auto, unfolding(crate::specs::QueryViews::query_by, crate::specs::QueryViews::basic_by, crate::specs::QueryViews::term_by))]
impl Term {
    /// A named graph.
    pub fn graph(name: NameAt) -> Term
        ensures { (names : Names) → term_tree names result ≡ tree.GraphTerm (named names name) }
    {
        Term::Graph(name)
    }

    /// A CONSTRUCT with its MATCH.
    pub fn basic(alloc: Global, basic: Basic) -> Result<Term, Memory>
        ensures { IfOk result (λ t. (names : Names) → term_tree names t ≡ tree.BasicTerm (basic_tree names basic)) }
    {
        Ok(Term::Basic(Box::new(alloc, basic)?))
    }

    /// A query in parentheses.
    pub fn query(alloc: Global, query: Query) -> Result<Term, Memory>
        ensures { IfOk result (λ t. (names : Names) → term_tree names t ≡ tree.QueryTerm (query_tree names query)) }
    {
        Ok(Term::Query(Box::new(alloc, query)?))
    }
}

#[tactic(auto, unfolding(crate::specs::QueryViews::next_term_by, crate::specs::QueryViews::term_by))]
impl NextTerm {
    /// A set operation and its right side.
    pub fn of(op: SetOp, term: Term) -> NextTerm
        ensures { (names : Names) → next_term_tree names result ≡ tree.NextTerm op (term_tree names term) }
    {
        NextTerm { op, term }
    }
}

#[tactic(auto, unfolding(crate::specs::QueryViews::head_by, crate::specs::QueryViews::formula_by, crate::specs::QueryViews::query_by))]
impl Head {
    /// `PATH v = .. WHERE e COST e`
    pub fn path(
        name: NameAt,
        chains: ChainList,
        filter: Option<Formula>,
        cost: Option<Formula>,
    ) -> Head
        ensures { (names : Names) → head_tree names result ≡ tree.PathHead (named names name) (rows (map (λ c. map (pattern_tree names) c.parts) chains)) (maybe (option_map (formula_tree names) filter)) (maybe (option_map (formula_tree names) cost)) }
    {
        Head::Path {
            name,
            chains,
            filter,
            cost,
        }
    }

    /// `GRAPH g AS (q)`
    pub fn graph(name: NameAt, query: Query) -> Head
        ensures { (names : Names) → head_tree names result ≡ tree.GraphHead (named names name) (query_tree names query) }
    {
        Head::Graph { name, query }
    }
}

#[tactic(auto, unfolding(gc_expr::specs::Views::expr_tree, crate::specs::QueryViews::formula_by, crate::specs::QueryViews::query_by))]
impl Formula {
    /// An expression with the queries of its own EXISTS.
    pub fn of(expr: Expr, exists: QueryList) -> Formula
        ensures { (names : Names) → formula_tree names result ≡ tree.Formula (expr_tree names expr) (row (map (query_tree names) exists.items)) }
    {
        Formula { expr, exists }
    }
}

#[tactic(auto, unfolding(crate::specs::QueryViews::basic_by, crate::specs::QueryViews::item_by, crate::specs::QueryViews::block_by, crate::specs::QueryViews::optional_by))]
impl Basic {
    /// A CONSTRUCT with its MATCH.
    pub fn of(token: u32, items: ItemList, main: MatchBlock, optionals: OptionalList) -> Basic
        ensures { (names : Names) → basic_tree names result ≡ tree.Basic token (row (map (item_tree names) items.items)) (block_tree names main) (row (map (optional_tree names) optionals.items)) }
    {
        Basic {
            token,
            items,
            main,
            optionals,
        }
    }
}

#[tactic(auto, unfolding(crate::specs::QueryViews::block_by, crate::specs::QueryViews::formula_by))]
impl MatchBlock {
    /// Patterns and their condition.
    pub fn of(patterns: LocatedList, filter: Option<Formula>) -> MatchBlock
        ensures { (names : Names) → block_tree names result ≡ tree.Block (row (map (located_tree names) patterns)) (maybe (option_map (formula_tree names) filter)) }
    {
        MatchBlock { patterns, filter }
    }
}

#[tactic(auto, unfolding(crate::specs::QueryViews::optional_by, crate::specs::QueryViews::block_by))]
impl OptionalBlock {
    /// An OPTIONAL block.
    pub fn of(token: u32, block: MatchBlock) -> OptionalBlock
        ensures { (names : Names) → optional_tree names result ≡ tree.Optional token (block_tree names block) }
    {
        OptionalBlock { token, block }
    }
}
