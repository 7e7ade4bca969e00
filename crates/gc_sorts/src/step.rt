/// One step on the way from the statements of a query file to a block.
#[derive(Clone, Copy, Debug, PartialEq, Eq)]
pub(crate) enum Step {
    /// To the query of the statement of a number.
    Statement(u32),
    /// From a query to what its head of a number declares.
    Head(u32),
    /// From a query to its term of a number.
    Term(u32),
    /// From the MATCH of a CONSTRUCT to an EXISTS query in the WHERE of one of its parts.
    Exists { part: u32, query: u32 },
}
