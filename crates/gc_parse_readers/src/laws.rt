ghost use Rattle.std.specs.Prelude.{◌≡◌, ◌<◌, ℕ, List, [], length};
ghost use Rattle.gc_lex.specs.declared.token.Token.{Token};
ghost use Rattle.gc_regx.specs.Trees.{RegexTree, ARegex};
ghost use Rattle.gc_ast.specs.Trees.{Tree, AStatement};
ghost use Rattle.gc_grammar.specs.Words.{Point};
ghost use Rattle.gc_parse_readers.specs.Readers.{Got, Stuck};
ghost use Rattle.gc_parse_readers.specs.Refusals.{IsRefusedAt};
ghost use Rattle.gc_parse_readers.specs.QueryReaders.{file_reading};
ghost use Rattle.gc_grammar.specs.Queries.{SpellsFile, SpellsRegex};

/// A token list spells at most one regular path expression.
pub fn a_list_spells_one_expression()
    ensures { (ts : List Token) (a b : RegexTree ARegex) → SpellsRegex ts a → SpellsRegex ts b → a ≡ b }
{}

/// A token list spells the statements of at most one file.
pub fn a_list_spells_one_file()
    ensures { (ts : List Token) (a b : List (Tree AStatement)) → SpellsFile ts a → SpellsFile ts b → a ≡ b }
{}

/// The reader of whole files, with more room than there are tokens, gives the statements that a list
/// spells, and is stuck where it spells none, at the first token with which no file begins so.
pub fn the_reader_of_files_is_right()
    ensures sound { (room : ℕ) (ts rest : List Token) (statements : List (Tree AStatement)) (end : Point) → length ts < room → file_reading room ts ≡ Got statements end rest → SpellsFile ts statements }
    ensures complete { (room : ℕ) (ts : List Token) (statements : List (Tree AStatement)) → length ts < room → (spelled : SpellsFile ts statements) → file_reading room ts ≡ Got statements spelled.0 [] }
    ensures refused { (room place : ℕ) (ts : List Token) → length ts < room → file_reading room ts ≡ Stuck place → IsRefusedAt SpellsFile ts place }
{}
