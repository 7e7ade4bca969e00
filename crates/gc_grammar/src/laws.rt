ghost use Rattle.std.specs.Prelude.{◌≡◌, List, [], ◌∷◌, ℕ};
ghost use Rattle.gc_lex.specs.declared.token.Token.TheVariants.{Word, Symbol};
ghost use Rattle.gc_lex.specs.declared.token.Token.{Token};
ghost use Rattle.gc_lex.specs.declared.token.Mark.TheVariants.{Colon, OpenParenthesis, CloseParenthesis};
ghost use Rattle.gc_regx.specs.Trees.{Label};
ghost use Rattle.gc_grammar.specs.Regexes.{Expression, label};
ghost use Rattle.gc_grammar.specs.Words.{IsName, Point};
ghost use Rattle.gc_grammar.specs.Expressions.{expr, sum};
ghost use Rattle.gc_grammar.specs.Queries.{SpellsFile, SpellsRegex, within};
ghost use Rattle.gc_grammar.specs.Examples.{graph_file, before_token, a_and_b_or_c, both_or, a_minus_b_minus_c, less_both};

/// `:` and a word spell the edge with that label.
pub fn labels_are_spelled()
    ensures { (a : List ℕ) → SpellsRegex (Symbol Colon ∷ Word a ∷ []) (Label a) }
{}

/// Outside parentheses nothing else spells it.
pub fn labels_are_spelled_so_alone()
    ensures { (p q : Point) (ts : List Token) (a : List ℕ) (e : Expression) → label p ts e q → e.tree ≡ Label a
        → ts ≡ Symbol Colon ∷ Word a ∷ [] }
{}

/// A name alone is a file, which asks for the graph of that name.
pub fn a_name_is_a_file()
    ensures { (g : List ℕ) → IsName g → SpellsFile (Word g ∷ []) (graph_file g 0) }
{}

/// A name in parentheses spells what the name alone does, but for the number of its token.
pub fn a_name_in_parentheses_is_that_name()
    ensures { (g : List ℕ) → IsName g
        → SpellsFile (Symbol OpenParenthesis ∷ Word g ∷ Symbol CloseParenthesis ∷ []) (graph_file g 1) }
{}

/// AND binds tighter than OR: `a AND b OR c` is one of two, both a and b, or c.
pub fn and_binds_tighter_than_or()
    ensures { (a b c : List ℕ) → IsName a → IsName b → IsName c
        → expr (within 0) (before_token 0) (a_and_b_or_c a b c) (both_or a b c) (before_token 5) }
{}

/// Differences are taken from the left: from a first b is taken away, and then c.
pub fn differences_are_taken_from_the_left()
    ensures { (a b c : List ℕ) → IsName a → IsName b → IsName c
        → sum (within 0) (before_token 0) (a_minus_b_minus_c a b c) (less_both a b c) (before_token 5) }
{}
