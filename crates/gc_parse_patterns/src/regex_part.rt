use gc_base::NameAt;
use gc_regx::Regex;

/// A regular path expression, and the names after its `~` in text order.
#[derive(Drop)]
pub struct Part {
    pub regex: Regex,
    pub views: Vec<NameAt>,
}
