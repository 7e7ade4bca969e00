ghost use Rattle.std.specs.Prelude.{◌≡◌, ◌≤◌, ℕ, List, length};
ghost use Rattle.gc_lex.specs.Lexis.{tokens_within};

/// The number of items that the definition counts with cuts no text: any number from that of the
/// bytes on gives the same, so a text has one list of tokens or one refusal.
pub fn no_text_is_cut()
    ensures { (text : List ℕ) (items : ℕ) → length text ≤ items
        → tokens_within items text 0 ≡ tokens_within (length text) text 0 }
{}
