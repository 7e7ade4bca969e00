use crate::print_regex;
use gc_base::{Memory, Name};
use gc_regx::{Regex, RegexList};
use std::alloc::Global;
use std::test::Fail;

fn name(alloc: Global, word: &[u8]) -> Result<Name, Fail> {
    Ok(Name::of(alloc, word)?.ok_or("a word")?)
}

fn two(alloc: Global, first: Regex, second: Regex) -> Result<RegexList, Memory> {
    let mut parts: RegexList = Vec::new(alloc);
    parts.push(first)?;
    parts.push(second)?;
    Ok(parts)
}

// A star of branches.
fn repeated(alloc: Global) -> Result<Regex, Fail> {
    let knows = Regex::label(name(alloc, b"knows")?);
    let either = Regex::alt(two(alloc, knows, Regex::any())?);
    Ok(Regex::star(alloc, either)?)
}

// Two labels in turn.
fn in_turn(alloc: Global) -> Result<Regex, Fail> {
    let back = Regex::back(name(alloc, b"knows")?);
    let again = Regex::back(name(alloc, b"knows")?);
    Ok(Regex::cat(two(alloc, back, again)?))
}

// A list in a list.
fn nested(alloc: Global) -> Result<Regex, Fail> {
    let view = Regex::star(alloc, Regex::view(name(alloc, b"w")?))?;
    let inner = Regex::cat(two(alloc, Regex::test(name(alloc, b"Person")?), view)?);
    Ok(Regex::cat(two(alloc, inner, Regex::any_back())?))
}

#[test]
fn parentheses_stand_where_they_must_and_spaces_between_parts(rt: HostRuntime) -> Result<(), Fail> {
    let alloc = rt.alloc();
    let text = print_regex(alloc, &repeated(alloc)?)?;
    assert!(rt; text.as_slice() == b"(:knows|_)*".as_slice());
    let text = print_regex(alloc, &in_turn(alloc)?)?;
    assert!(rt; text.as_slice() == b":knows- :knows-".as_slice());
    let text = print_regex(alloc, &nested(alloc)?)?;
    assert!(rt; text.as_slice() == b"(!:Person ~w*) _-".as_slice());
    Ok(())
}
