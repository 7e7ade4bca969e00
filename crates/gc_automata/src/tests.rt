use crate::{Automaton, On, RegexRefusal, state_count};
use gc_base::{Memory, Name};
use gc_regx::{Regex, RegexList};
use std::alloc::Global;
use std::test::Fail;

// So many parts in turn, each any edge.
fn steps(alloc: Global, count: usize) -> Result<Regex, Memory> {
    let mut parts: RegexList = Vec::new(alloc);
    for _ in 0..count {
        parts.push(Regex::any())?;
    }
    Ok(Regex::cat(parts))
}

// Where the transitions of an automaton lead, from a place on.
fn ends_at(automaton: &Automaton, i: u32) -> Option<(u32, u32)> {
    match automaton.transition(i) {
        Some(transition) => Some((transition.from, transition.to)),
        None => None,
    }
}

#[test]
fn the_star_of_a_label_has_four_states_and_goes_round(rt: HostRuntime) -> Result<(), Fail> {
    let alloc = rt.alloc();
    let knows = Regex::label(Name::of(alloc, b"knows")?.ok_or("a word")?);
    let starred = Regex::star(alloc, knows)?;
    assert!(rt; state_count(&starred) == 4);
    let automaton = match Automaton::of(alloc, &starred) {
        Ok(automaton) => automaton,
        Err(_) => return Err("an automaton".into()),
    };
    assert!(rt; automaton.states() == 4);
    assert!(rt; ends_at(&automaton, 0) == Some((0, 1)));
    assert!(rt; ends_at(&automaton, 1) == Some((0, 3)));
    assert!(rt; ends_at(&automaton, 2) == Some((1, 2)));
    assert!(rt; ends_at(&automaton, 3) == Some((2, 1)));
    assert!(rt; ends_at(&automaton, 4) == Some((2, 3)));
    assert!(rt; ends_at(&automaton, 5).is_none());
    Ok(())
}

#[test]
fn five_hundred_and_thirteen_symbols_are_too_many(rt: HostRuntime) -> Result<(), Fail> {
    let regex = steps(rt.alloc(), 513)?;
    assert!(rt;
        matches!(
            Automaton::of(rt.alloc(), &regex),
            Err(RegexRefusal::TooManyStates)
        )
    );
    Ok(())
}
