use gc_base::{Name, Str, Sym};

/// An expression. Its token is the number of its first one; parentheses around the whole expression
/// don't belong to it.
#[derive(Debug, Drop)]
#[cycle(expr)]
pub struct Expr {
    pub token: u32,
    pub node: ExprNode,
}

/// What an expression is. The grammar gives each list at least two parts, counting its first.
#[derive(Debug, Drop)]
#[cycle(expr)]
pub enum ExprNode {
    /// A number.
    Number(i64),
    /// A text.
    Text(Str),
    /// `TRUE` or `FALSE`.
    Truth(bool),
    /// A variable.
    Var(Sym),
    /// `x.k`
    Property(Box<Expr>, Name),
    /// `x:l`
    Labelled(Box<Expr>, Name),
    /// `nodes(p)[i]`
    NodeAt(Sym, Box<Expr>),
    /// `edges(p)[i]`
    EdgeAt(Sym, Box<Expr>),
    /// `length(p)`
    Length(Sym),
    /// An aggregate of an operand; `COUNT(*)` alone has none.
    Aggregate(Fold, Option<Box<Expr>>),
    /// `-a`
    Negate(Box<Expr>),
    /// A chain of `+` and `-`, from the left.
    Sum(Box<Expr>, SumPartList),
    /// A chain of `*`, `/` and `%`, from the left.
    Product(Box<Expr>, ProductPartList),
    /// A comparison.
    Compare(Comparison, Box<Expr>, Box<Expr>),
    /// `NOT a`
    Not(Box<Expr>),
    /// All of the parts.
    And(ExprList),
    /// One of the parts.
    Or(ExprList),
    /// The EXISTS query of this number, from 0, in the list that stands beside the expression.
    Exists(u32),
}

/// A later part of a sum.
#[derive(Debug, Drop)]
#[cycle(expr)]
pub struct SumPart {
    pub minus: bool,
    pub part: Expr,
}

/// A later part of a product.
#[derive(Debug, Drop)]
#[cycle(expr)]
pub struct ProductPart {
    pub op: ProductOp,
    pub part: Expr,
}

/// A list of expressions.
pub type ExprList = Vec<Expr>;

/// The later parts of a sum.
pub type SumPartList = Vec<SumPart>;

/// The later parts of a product.
pub type ProductPartList = Vec<ProductPart>;

/// The operators of a product: `*`, `/` and `%`.
#[derive(Clone, Copy, Debug, PartialEq, Eq)]
pub enum ProductOp {
    Times,
    Divided,
    Remainder,
}

/// The comparisons: `=`, `<>`, `<`, `<=`, `>`, `>=`, `IN` and `SUBSET`.
#[derive(Clone, Copy, Debug, PartialEq, Eq)]
pub enum Comparison {
    Equal,
    Unequal,
    Less,
    LessEqual,
    Greater,
    GreaterEqual,
    Member,
    Included,
}

/// The aggregates. `COUNT(*)` counts rows; the others fold the values of an operand.
#[derive(Clone, Copy, Debug, PartialEq, Eq)]
pub enum Fold {
    Rows,
    Count,
    Sum,
    Min,
    Max,
    Collect,
}
