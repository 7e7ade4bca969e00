ghost use Rattle.std.specs.Prelude.{◌≡◌, ℕ, List, Some, None, Ok, Err};
ghost use Rattle.gc_lex.specs.declared.token.Token.{Token};
ghost use Rattle.gc_ast.specs.Trees.{Tree, AStatement};
ghost use Rattle.gc_grammar.specs.Queries.{SpellsFile, SpellsRegex};
ghost use Rattle.gc_parse.specs.Depths.{IsDepthFault};
ghost use Rattle.gc_parse.specs.Parses.{parsed, parsed_regex};
ghost use Rattle.gc_parse.specs.declared.refusal.ParseRefusal.TheVariants.{TooDeep, Syntax};
ghost use Rattle.gc_parse_readers.specs.Refusals.{IsRefusedAt};
ghost use Rattle.gc_regx.specs.Trees.{RegexTree, ARegex};

/// The parse of tokens is the statements that they spell, where no bracket is too deep, and these alone; else it is
/// refused at the bracket that is too deep, or at the first token with which no file begins so.
pub fn a_parse_is_what_tokens_spell()
    ensures spelled { (ts : List Token) (statements : List (Tree AStatement)) → IsDepthFault ts None → SpellsFile ts statements → parsed ts ≡ Ok statements }
    ensures spells { (ts : List Token) (statements : List (Tree AStatement)) → parsed ts ≡ Ok statements → IsDepthFault ts None × SpellsFile ts statements }
    ensures deep { (ts : List Token) (k : ℕ) → parsed ts ≡ Err (TooDeep k) → IsDepthFault ts (Some k) }
    ensures refused { (ts : List Token) (k : ℕ) → parsed ts ≡ Err (Syntax k) → IsRefusedAt SpellsFile ts k }
{}

/// The same of a regular path expression, where its tokens spell one.
pub fn an_expression_is_what_tokens_spell()
    ensures spelled { (ts : List Token) (tree : RegexTree ARegex) → IsDepthFault ts None → SpellsRegex ts tree → parsed_regex ts ≡ Ok tree }
    ensures spells { (ts : List Token) (tree : RegexTree ARegex) → parsed_regex ts ≡ Ok tree → IsDepthFault ts None × SpellsRegex ts tree }
{}
