use gc_regx::Regex;
use std::marker::Model;

/// The regular path expression of an atom. Contracts see its tree.
#[derive(Drop)]
pub struct PathExpression(pub Regex);

impl Model for PathExpression {
    ghost use Rattle.gc_regx.specs.Trees.{RegexTree, ARegex};
    ghost use Rattle.gc_regx.specs.Views.{regex_tree};
    ghost use Rattle.gc_alg.specs.RegexCodes.{regex_code};

    ghost Value = { RegexTree ARegex };

    ghost coded = { regex_code };

    ghost view = { λ e. regex_tree e.0 };
}
