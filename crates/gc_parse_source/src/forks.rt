ghost use Rattle.std.specs.Prelude.{◌≡◌, ◌∷◌, [], drop, true};
ghost use Rattle.gc_base.specs.Words.{is_reserved};
ghost use Rattle.gc_lex.specs.declared.token.Mark.TheVariants as mark;
ghost use Rattle.gc_parse_readers.specs.Kinds.{begins, begins_so, mark_kind, name_kind};
ghost use Rattle.gc_parse_readers.specs.ConstructReaders.{projected_kinds, property_kinds};
ghost use Rattle.gc_parse_readers.specs.ExpressionReaders.{count_of_rows};
ghost use Rattle.gc_parse_readers.specs.PatternReaders.{in_slashes_kinds, link_kinds};
ghost use Rattle.gc_parse_readers.specs.QueryReaders.{view_kinds};

use crate::source::Source;
use gc_lex::Mark;

/// Whether `COUNT` `(` `*` stands at a place.
pub fn is_count_of_rows_at(source: &Source, at: u32) -> bool
    ensures { result ≡ begins_so count_of_rows (drop at source.now.tokens) }
{
    source.is_word_at(at, "COUNT") && is_open_star_at(source, at + 1)
}

// Whether `(` `*` stands at a place.
fn is_open_star_at(source: &Source, at: u32) -> bool
    ensures { result ≡ begins_so ((mark_kind mark.OpenParenthesis ∷ []) ∷ (mark_kind mark.Star ∷ []) ∷ []) (drop at source.now.tokens) }
{
    source.is_at(at, Mark::OpenParenthesis) && source.is_at(at + 1, Mark::Star)
}

/// Whether a link begins at a place.
pub fn is_link_at(source: &Source, at: u32) -> bool
    ensures { result ≡ begins link_kinds (drop at source.now.tokens) }
{
    source.is_at(at, Mark::Minus) || source.is_at(at, Mark::Less)
}

/// Whether `-` `/` stands at a place.
pub fn is_path_at(source: &Source, at: u32) -> bool
    ensures { result ≡ begins_so in_slashes_kinds (drop at source.now.tokens) }
{
    source.is_at(at, Mark::Minus) && source.is_at(at + 1, Mark::Slash)
}

/// Whether `-` `/` and a name stand at a place.
pub fn is_projected_at(source: &Source, at: u32) -> bool
    ensures { result ≡ begins_so projected_kinds (drop at source.now.tokens) }
{
    source.is_at(at, Mark::Minus) && is_slash_name_at(source, at + 1)
}

// Whether `/` and a name stand at a place.
fn is_slash_name_at(source: &Source, at: u32) -> bool
    ensures { result ≡ begins_so ((mark_kind mark.Slash ∷ []) ∷ (name_kind ∷ []) ∷ []) (drop at source.now.tokens) }
{
    source.is_at(at, Mark::Slash) && source.is_name_at(at + 1)
}

/// Whether a reserved word, a name and `.` stand at a place.
pub fn is_property_at(source: &Source, at: u32, word: &str) -> bool
    requires { is_reserved word.now ≡ true }
    ensures { result ≡ begins_so (property_kinds word.now) (drop at source.now.tokens) }
{
    source.is_word_at(at, word) && is_name_dot_at(source, at + 1)
}

// Whether a name and `.` stand at a place.
fn is_name_dot_at(source: &Source, at: u32) -> bool
    ensures { result ≡ begins_so ((name_kind ∷ []) ∷ (mark_kind mark.Dot ∷ []) ∷ []) (drop at source.now.tokens) }
{
    source.is_name_at(at) && source.is_at(at + 1, Mark::Dot)
}

/// Whether `GRAPH` `VIEW` stands at a place.
pub fn is_view_at(source: &Source, at: u32) -> bool
    ensures { result ≡ begins_so view_kinds (drop at source.now.tokens) }
{
    source.is_word_at(at, "GRAPH") && source.is_word_at(at + 1, "VIEW")
}
