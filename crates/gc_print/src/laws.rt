ghost use Rattle.std.specs.Prelude.{◌≡◌, List, ℕ, Ok};
ghost use Rattle.gc_lex.specs.Lexis.{TokenList, lexed};
ghost use Rattle.gc_regx.specs.Trees.{RegexTree, ARegex};
ghost use Rattle.gc_grammar.specs.Queries.{SpellsRegex};
ghost use Rattle.gc_regx.specs.Expressions.{IsExpression};
ghost use Rattle.gc_print.specs.ReadingBack.{ReadsBack};
ghost use Rattle.gc_print.specs.RegexTexts.{regex_text};

/// An expression of which labels are words, views names, and lists have two parts or more reads back:
/// its text has tokens, and they spell it.
pub fn printed_expressions_read_back()
    ensures { (tree : RegexTree ARegex) → IsExpression tree → ReadsBack (regex_text tree) tree }
{}

/// What the tokens of a text spell is such an expression.
pub fn texts_spell_such_expressions()
    ensures { (text : List ℕ) (list : TokenList) (tree : RegexTree ARegex) → lexed text ≡ Ok list
        → SpellsRegex list.tokens tree → IsExpression tree }
{}
