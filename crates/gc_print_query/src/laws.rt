ghost use Rattle.std.specs.Prelude.{◌≡◌, List, ℕ, Ok};
ghost use Rattle.gc_lex.specs.declared.token.Token.{Token};
ghost use Rattle.gc_ast.specs.Trees.{Tree, AStatement};
ghost use Rattle.gc_lex.specs.Lexis.{TokenList, lexed};
ghost use Rattle.gc_grammar.specs.Queries.{SpellsFile};
ghost use Rattle.gc_print_query.specs.ReadingBack.{ReadsBack};
ghost use Rattle.gc_print_query.specs.Tokens.{AreWritable};
ghost use Rattle.gc_print_query.specs.WrittenFiles.{file_text};

/// The text of a file that the grammar gives reads back: it has tokens, and they spell that file, but
/// for the numbers of the tokens.
pub fn printed_files_read_back()
    ensures { (tokens : List Token) (statements : List (Tree AStatement)) → AreWritable tokens → SpellsFile tokens statements
        → ReadsBack (file_text statements) statements }
{}

/// The tokens of a text can be written.
pub fn tokens_can_be_written()
    ensures { (text : List ℕ) (list : TokenList) → lexed text ≡ Ok list → AreWritable list.tokens }
{}
