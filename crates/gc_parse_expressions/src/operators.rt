ghost use Rattle.std.specs.Prelude.{◌≡◌, ◌∷◌, [], drop, List};
ghost use Rattle.gc_ast.specs.Trees.{Tree, AQuery};
ghost use Rattle.gc_lex.specs.declared.token.Mark.TheVariants as mark;
ghost use Rattle.gc_parse_readers.specs.Kinds.{begins, mark_kind};
ghost use Rattle.gc_parse_readers.specs.ExpressionReaders.{comparison_kinds, product_kinds, read_sign, read_product_op, read_comparison, read_folding};
ghost use Rattle.gc_parse_source.specs.Results.{GivesWith};
ghost use Rattle.gc_parse_readers.specs.Points.{point};

use gc_expr::{Comparison, Fold, ProductOp};
use gc_lex::Mark;
use gc_parse_source::{Refusal, Source};

#[tactic(auto, unfolding(gc_parse_readers::specs::ExpressionReaders::read_sign))]
// `+` | `-`, which is true
pub(crate) fn sign(source: &Source, at: u32) -> Result<(bool, u32), Refusal>
    ensures { (queries : List (Tree AQuery)) → GivesWith (λ s. s) queries source.now.tokens result
        (read_sign (point at queries) (drop at source.now.tokens)) }
{
    if source.is_at(at, Mark::Plus) {
        let at = source.mark(at, Mark::Plus)?;
        Ok((false, at))
    } else {
        let at = source.mark(at, Mark::Minus)?;
        Ok((true, at))
    }
}

#[tactic(auto, unfolding(gc_parse_readers::specs::ExpressionReaders::read_product_op))]
// `*` | `/` | `%`
pub(crate) fn product_op(source: &Source, at: u32) -> Result<(ProductOp, u32), Refusal>
    ensures { (queries : List (Tree AQuery)) → GivesWith (λ op. op) queries source.now.tokens result
        (read_product_op (point at queries) (drop at source.now.tokens)) }
{
    if source.is_at(at, Mark::Star) {
        let at = source.mark(at, Mark::Star)?;
        Ok((ProductOp::Times, at))
    } else if source.is_at(at, Mark::Slash) {
        let at = source.mark(at, Mark::Slash)?;
        Ok((ProductOp::Divided, at))
    } else {
        let at = source.mark(at, Mark::Percent)?;
        Ok((ProductOp::Remainder, at))
    }
}

#[tactic(auto, unfolding(gc_parse_readers::specs::ExpressionReaders::read_comparison))]
// `=` | `<>` | `<` | `<=` | `>` | `>=` | `IN` | `SUBSET`
pub(crate) fn comparison(source: &Source, at: u32) -> Result<(Comparison, u32), Refusal>
    ensures { (queries : List (Tree AQuery)) → GivesWith (λ how. how) queries source.now.tokens result
        (read_comparison (point at queries) (drop at source.now.tokens)) }
{
    if source.is_at(at, Mark::Equals) {
        Ok((Comparison::Equal, source.mark(at, Mark::Equals)?))
    } else if source.is_at(at, Mark::Differs) {
        Ok((Comparison::Unequal, source.mark(at, Mark::Differs)?))
    } else if source.is_at(at, Mark::Less) {
        Ok((Comparison::Less, source.mark(at, Mark::Less)?))
    } else if source.is_at(at, Mark::AtMost) {
        Ok((Comparison::LessEqual, source.mark(at, Mark::AtMost)?))
    } else if source.is_at(at, Mark::Greater) {
        Ok((Comparison::Greater, source.mark(at, Mark::Greater)?))
    } else if source.is_at(at, Mark::AtLeast) {
        Ok((Comparison::GreaterEqual, source.mark(at, Mark::AtLeast)?))
    } else if source.is_word_at(at, "IN") {
        Ok((Comparison::Member, source.the_word(at, "IN")?))
    } else {
        Ok((Comparison::Included, source.the_word(at, "SUBSET")?))
    }
}

#[tactic(auto, unfolding(gc_parse_readers::specs::ExpressionReaders::read_folding))]
// `COUNT` | `SUM` | `MIN` | `MAX` | `COLLECT`
pub(crate) fn folding(source: &Source, at: u32) -> Result<(Fold, u32), Refusal>
    ensures { (queries : List (Tree AQuery)) → GivesWith (λ fold. fold) queries source.now.tokens result
        (read_folding (point at queries) (drop at source.now.tokens)) }
{
    if source.is_word_at(at, "COUNT") {
        Ok((Fold::Count, source.the_word(at, "COUNT")?))
    } else if source.is_word_at(at, "SUM") {
        Ok((Fold::Sum, source.the_word(at, "SUM")?))
    } else if source.is_word_at(at, "MIN") {
        Ok((Fold::Min, source.the_word(at, "MIN")?))
    } else if source.is_word_at(at, "MAX") {
        Ok((Fold::Max, source.the_word(at, "MAX")?))
    } else {
        Ok((Fold::Collect, source.the_word(at, "COLLECT")?))
    }
}

// Whether `+` or `-` stands at a place.
pub(crate) fn is_sign_at(source: &Source, at: u32) -> bool
    ensures { result ≡ begins (mark_kind mark.Plus ∷ mark_kind mark.Minus ∷ []) (drop at source.now.tokens) }
{
    source.is_at(at, Mark::Plus) || source.is_at(at, Mark::Minus)
}

// Whether an operator of a product stands at a place.
pub(crate) fn is_product_op_at(source: &Source, at: u32) -> bool
    ensures { result ≡ begins product_kinds (drop at source.now.tokens) }
{
    source.is_at(at, Mark::Star) || source.is_at(at, Mark::Slash) || source.is_at(at, Mark::Percent)
}

// Whether a comparison stands at a place.
pub(crate) fn is_comparison_at(source: &Source, at: u32) -> bool
    ensures { result ≡ begins comparison_kinds (drop at source.now.tokens) }
{
    source.is_at(at, Mark::Equals)
        || source.is_at(at, Mark::Differs)
        || source.is_at(at, Mark::Less)
        || source.is_at(at, Mark::AtMost)
        || source.is_at(at, Mark::Greater)
        || source.is_at(at, Mark::AtLeast)
        || source.is_word_at(at, "IN")
        || source.is_word_at(at, "SUBSET")
}
