ghost use Rattle.std.specs.Prelude.{◌≡◌, ℕ, List, length, map, slice_get, true, Some, None, Ok, Err};
ghost use Rattle.std.specs.List.{AllByRecursion};
ghost use Rattle.gc_base.specs.declared.place.Place.{Place};
ghost use Rattle.gc_lex.specs.Lexis.{TokenList, lexed};
ghost use Rattle.gc_lex.specs.declared.token.Token.{Token};
ghost use Rattle.gc_ast.specs.Trees.{Tree, AStatement, row};
ghost use Rattle.gc_grammar.specs.Queries.{SpellsFile};
ghost use Rattle.gc_parse.specs.Depths.{IsDepthFault};
ghost use Rattle.gc_parse_readers.specs.Refusals.{IsRefusedAt};
ghost use Rattle.gc_sorts.specs.declared.breach.Breach.{Breach};
ghost use Rattle.gc_sorts.specs.declared.breach.SortRule.{SortRule};
ghost use Rattle.gc_sorts.specs.SortRules.{first_breach};
ghost use Rattle.gc_parse_source.specs.Sources.{names_among};
ghost use Rattle.gc_cert_text.specs.Certificates.{told};
ghost use Rattle.gc_cert_text.specs.WritableSearches.{IsWritable};
ghost use Rattle.gc_check_text.specs.Outcomes.{IsOutcome};
ghost use Rattle.gc_query.specs.Built.{AreBuilt};
ghost use Rattle.gc_query.specs.InOrder.{IsInOrder};
ghost use Rattle.gc_query.specs.Expressions.{EachHasParts};
ghost use Rattle.gcore.specs.Certifications.{IsCertified};
ghost use Rattle.gcore.specs.Outcomes.{Request};
ghost use Rattle.gcore.specs.QueryFiles.{PlacedFile, breach_place, file_over, query_file_of};
ghost use Rattle.gcore.specs.declared.stop.Stop.TheVariants.{Sorts, Text};
ghost use Rattle.gcore.specs.declared.text_refusal.TextRefusal.TheVariants.{TooDeep, Syntax};

use gc_cert_text::written_certificates_read_back;
use gc_parse::a_parse_is_what_tokens_spell;
use gc_query::{a_file_that_breaks_no_rule_is_built, what_is_in_order_is_so_between_wider_numbers};

/// A query file asks what the statements ask that its tokens spell, where their brackets are not too
/// deep and they break no sort rule over the names of the graphs. Else it is told which rule is broken
/// first and where, exactly there; where the brackets are too deep; or a token up to which no list of
/// tokens spells a file.
pub fn a_query_file_asks_what_its_tokens_spell()
    ensures spelled { (graphs : List (List ℕ)) (text : List ℕ) (list : TokenList) (statements : List (Tree AStatement)) → lexed text ≡ Ok list
        → IsDepthFault list.tokens None → SpellsFile list.tokens statements → first_breach graphs (row statements) ≡ None → query_file_of graphs text
        ≡ Ok (record { file = file_over graphs (names_among list.tokens) statements; places = list.places }) }
    ensures broken { (graphs : List (List ℕ)) (text : List ℕ) (list : TokenList) (statements : List (Tree AStatement)) (breach : Breach) → lexed text
        ≡ Ok list → IsDepthFault list.tokens None → SpellsFile list.tokens statements → first_breach graphs (row statements) ≡ Some breach
        → query_file_of graphs text ≡ Err (Sorts breach.rule (breach_place list.places breach)) }
    ensures told { (graphs : List (List ℕ)) (text : List ℕ) (rule : SortRule) (place : Place) → query_file_of graphs text ≡ Err (Sorts rule place) →
        (list : TokenList) × (statements : List (Tree AStatement)) × (breach : Breach) × (lexed text ≡ Ok list) × IsDepthFault list.tokens None
        × SpellsFile list.tokens statements × (first_breach graphs (row statements) ≡ Some breach) × (rule ≡ breach.rule) ×
        (place ≡ breach_place list.places breach) }
    ensures deep { (graphs : List (List ℕ)) (text : List ℕ) (place : Place) → query_file_of graphs text ≡ Err (Text (TooDeep place)) → (list : TokenList) ×
        (k : ℕ) × (lexed text ≡ Ok list) × (slice_get list.places k ≡ Some place) × IsDepthFault list.tokens (Some k) }
    ensures refused { (graphs : List (List ℕ)) (text : List ℕ) (place : Place) → query_file_of graphs text ≡ Err (Text (Syntax place)) → (list : TokenList)
        × (k : ℕ) × (lexed text ≡ Ok list) × (slice_get list.places k ≡ Some place) × IsRefusedAt SpellsFile list.tokens k }
{
    a_parse_is_what_tokens_spell();
}

/// No juxtaposition in a regular path expression of a file that tokens spell is of no parts, and its CONSTRUCTs, names
/// and elements stand in the order of the text, with names of its table. So a query file that is read is built: each
/// expression by which it looks for walks has an automaton, what its CONSTRUCTs claim is of one graph, and the blocks
/// that its statements evaluate are found by their tokens.
pub fn a_query_file_that_is_read_is_built()
    ensures parts { (ts : List Token) (statements : List (Tree AStatement)) → SpellsFile ts statements → EachHasParts (row statements) }
    ensures order { (ts : List Token) (statements : List (Tree AStatement)) → SpellsFile ts statements
        → (upto : ℕ) × IsInOrder (names_among ts) 0 (row statements) upto }
    ensures built { (graphs : List (List ℕ)) (text : List ℕ) (query : PlacedFile) → query_file_of graphs text ≡ Ok query → AreBuilt query.file }
{
    a_parse_is_what_tokens_spell();
    what_is_in_order_is_so_between_wider_numbers();
    a_file_that_breaks_no_rule_is_built();
}

/// What `cert` writes is accepted by `check`, with each of its searches, where these can be written so that they read
/// back: each graph has at most 1,000,000 elements, each expression has at most 1,024 states and parentheses at most 64
/// deep, and all numbers are in range.
pub fn what_is_certified_is_accepted()
    ensures { (r : Request) (text : List ℕ) (c : IsCertified r text) → AllByRecursion IsWritable (map told c.searches)
        → IsOutcome text (Ok (length c.searches)) }
{
    written_certificates_read_back();
}
