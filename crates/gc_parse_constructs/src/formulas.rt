use gc_ast::Formula;
use gc_parse_source::Refusal;

/// What a reader of expressions gives: an expression with the queries of its EXISTS and the place behind it,
/// or its refusal.
pub type FormulaRead = Result<(Formula, u32), Refusal>;
