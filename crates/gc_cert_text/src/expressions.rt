//! The expressions of a certificate.
ghost use Rattle.std.specs.Prelude.{◌≡◌, IfOk, option_map};
ghost use Rattle.gc_regx.specs.Views.{regex_tree};
ghost use Rattle.serde_json.specs.View.{view};
ghost use Rattle.gc_cert_text.specs.Certificates.{tree_in};
ghost use Rattle.gc_cert_text.specs.Expressions.{expression_in, is_small, small_tree_of_tokens, tree_of_text, tree_of_tokens};
ghost use Rattle.gc_cert_text.specs.Options.{if_so};

use gc_automata::state_count;
use gc_base::Memory;
use gc_lex::{LexRefusal, Tokens, lex};
use gc_parse::{ParseRefusal, parse_regex};
use gc_regx::Regex;
use serde_json::Value;
use std::alloc::Global;

/// The greatest number of states of an automaton.
const MOST_STATES: u64 = 1_024;

// The expression of a search.
pub(crate) fn tree_in(alloc: Global, value: &Value) -> Result<Option<Regex>, Memory>
    ensures { IfOk result (λ regex. option_map regex_tree regex ≡ tree_in (view value.now)) }
{
    match value.get("expression") {
        None => Ok(None),
        Some(expression) => expression_in(alloc, expression),
    }
}

// The expression of a value.
fn expression_in(alloc: Global, value: &Value) -> Result<Option<Regex>, Memory>
    ensures { IfOk result (λ regex. option_map regex_tree regex ≡ expression_in (view value.now)) }
{
    match value.as_str() {
        None => Ok(None),
        Some(text) => regex_of_text(alloc, text.as_bytes()),
    }
}

// The expression of a text.
fn regex_of_text(alloc: Global, text: &[u8]) -> Result<Option<Regex>, Memory>
    ensures { IfOk result (λ regex. option_map regex_tree regex ≡ tree_of_text text.now) }
{
    match lex(alloc, text) {
        Ok(tokens) => small_regex(alloc, &tokens),
        Err(LexRefusal::NotUtf8(_)) => Ok(None),
        Err(LexRefusal::BadCharacter(_)) => Ok(None),
        Err(LexRefusal::OpenText(_)) => Ok(None),
        Err(LexRefusal::NumberTooLarge(_)) => Ok(None),
        Err(LexRefusal::Memory) => Err(Memory),
    }
}

// The expression of tokens, where its automaton is not too large.
fn small_regex(alloc: Global, tokens: &Tokens) -> Result<Option<Regex>, Memory>
    ensures { IfOk result (λ regex. option_map regex_tree regex ≡ small_tree_of_tokens tokens.now.tokens) }
{
    match regex_of_tokens(alloc, tokens)? {
        None => Ok(None),
        Some(regex) => Ok(if_small(regex)),
    }
}

// An expression whose automaton has at most 1,024 states.
fn if_small(regex: Regex) -> Option<Regex>
    ensures { option_map regex_tree result ≡ if_so is_small (regex_tree regex) }
{
    if state_count(&regex) <= MOST_STATES {
        Some(regex)
    } else {
        None
    }
}

// The expression of tokens.
fn regex_of_tokens(alloc: Global, tokens: &Tokens) -> Result<Option<Regex>, Memory>
    ensures { IfOk result (λ regex. option_map regex_tree regex ≡ tree_of_tokens tokens.now.tokens) }
{
    match parse_regex(alloc, tokens) {
        Ok(regex) => Ok(Some(regex)),
        Err(ParseRefusal::TooDeep(_)) => Ok(None),
        Err(ParseRefusal::Syntax(_)) => Ok(None),
        Err(ParseRefusal::Memory) => Err(Memory),
    }
}
