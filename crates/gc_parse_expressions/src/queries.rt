use gc_ast::Query;
use gc_parse_source::Refusal;

/// What a reader of queries gives: a query and the place behind it, or its refusal.
pub type QueryRead = Result<(Query, u32), Refusal>;
