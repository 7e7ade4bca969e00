// Each rule on a tree that it changes, and where a condition does not fit.
use crate::{
    filter_into_outer_left, push_filter, swap_atoms, swap_filters, swap_join, turn_join, variables,
};
use gc_alg::{Atom, AtomWhat, Block, Conjunct, Part, Rel};
use gc_base::{Direction, LabelGroupList, Memory, Name, Sequence, Sym};
use gc_expr::Expr;
use std::alloc::Global;
use std::test::Fail;

// The block of `(x)-[e]->(y) WHERE x:L AND y:L`, whose atoms are x, the edge and y.
fn block(alloc: Global) -> Result<Block, Fail> {
    let mut atoms = Vec::new(alloc);
    atoms.push(node(alloc, 0))?;
    atoms.push(edge(alloc))?;
    atoms.push(node(alloc, 2))?;
    let mut conjuncts = Vec::new(alloc);
    conjuncts.push(labelled(alloc, 0)?)?;
    conjuncts.push(labelled(alloc, 2)?)?;
    let mut parts = Vec::new(alloc);
    parts.push(Part::new(atoms, conjuncts))?;
    Ok(Block::new(parts, Sequence::new(alloc)))
}

fn node(alloc: Global, x: u32) -> Atom {
    let labels = LabelGroupList::new(alloc);
    Atom {
        graph: 0,
        what: AtomWhat::Node { x: Sym(x), labels },
    }
}

fn edge(alloc: Global) -> Atom {
    Atom {
        graph: 0,
        what: AtomWhat::Edge {
            x: Sym(0),
            e: Sym(1),
            y: Sym(2),
            way: Direction::Forward,
            labels: LabelGroupList::new(alloc),
        },
    }
}

fn labelled(alloc: Global, x: u32) -> Result<Conjunct, Fail> {
    let label = Name::of(alloc, b"L")?.ok_or("a word")?;
    let condition = Expr::labelled(alloc, 0, Expr::var(0, Sym(x)), label)?;
    Ok(Conjunct::new(condition, Vec::new(alloc)))
}

// The trees of an atom and of a condition over another, and of a join and a left outer join.
fn atom(alloc: Global, number: u32, below: Rel) -> Result<Rel, Fail> {
    Ok(Rel::Atom(0, number, Box::new(alloc, below)?))
}

fn filter(alloc: Global, number: u32, below: Rel) -> Result<Rel, Fail> {
    Ok(Rel::Filter(0, number, Box::new(alloc, below)?))
}

fn join(alloc: Global, left: Rel, right: Rel) -> Result<Rel, Fail> {
    let left = Box::new(alloc, left)?;
    Ok(Rel::Join(left, Box::new(alloc, right)?))
}

fn outer(alloc: Global, left: Rel, right: Rel) -> Result<Rel, Fail> {
    let left = Box::new(alloc, left)?;
    Ok(Rel::Outer(left, Box::new(alloc, right)?))
}

fn one(alloc: Global, number: u32) -> Result<Rel, Fail> {
    atom(alloc, number, Rel::Unit)
}

// A tree as a text: a letter for each root with the number of what it names, and then the trees in it.
fn write(text: &mut Vec<u8>, tree: &Rel) -> Result<(), Memory> {
    match tree {
        Rel::Unit => Ok(()),
        Rel::Atom(_, number, below) => {
            push(text, b'a', *number)?;
            write(text, below)
        }
        Rel::Filter(_, number, below) => {
            push(text, b'f', *number)?;
            write(text, below)
        }
        Rel::Join(left, right) => {
            text.push(b'(')?;
            write(text, left)?;
            text.push(b'&')?;
            write(text, right)?;
            text.push(b')')?;
            Ok(())
        }
        Rel::Outer(left, right) => {
            text.push(b'(')?;
            write(text, left)?;
            text.push(b'>')?;
            write(text, right)?;
            text.push(b')')?;
            Ok(())
        }
    }
}

fn push(text: &mut Vec<u8>, letter: u8, number: u32) -> Result<(), Memory> {
    text.push(letter)?;
    text.push(if number == 0 {
        b'0'
    } else if number == 1 {
        b'1'
    } else {
        b'2'
    })?;
    Ok(())
}

fn is(alloc: Global, tree: &Rel, text: &[u8]) -> Result<bool, Memory> {
    let mut written = Vec::new(alloc);
    write(&mut written, tree)?;
    Ok(written.as_slice() == text)
}

fn joins_are_swapped(alloc: Global, block: &Block) -> Result<bool, Fail> {
    let tree = join(alloc, one(alloc, 0)?, one(alloc, 2)?)?;
    Ok(is(alloc, &swap_join(alloc, tree, block)?, b"(a2&a0)")?)
}

fn joins_are_turned(alloc: Global, block: &Block) -> Result<bool, Fail> {
    let left = join(alloc, one(alloc, 0)?, one(alloc, 1)?)?;
    let tree = join(alloc, left, one(alloc, 2)?)?;
    Ok(is(alloc, &turn_join(alloc, tree, block)?, b"(a0&(a1&a2))")?)
}

fn atoms_are_swapped(alloc: Global, block: &Block) -> Result<bool, Fail> {
    let tree = atom(alloc, 0, one(alloc, 1)?)?;
    Ok(is(alloc, &swap_atoms(alloc, tree, block)?, b"a1a0")?)
}

fn filters_are_swapped(alloc: Global, block: &Block) -> Result<bool, Fail> {
    let tree = filter(alloc, 0, filter(alloc, 1, one(alloc, 0)?)?)?;
    Ok(is(alloc, &swap_filters(alloc, tree, block)?, b"f1f0a0")?)
}

// A condition on x or y over the edge over x.
fn is_pushed(alloc: Global, block: &Block, number: u32, text: &[u8]) -> Result<bool, Fail> {
    let tree = filter(alloc, number, atom(alloc, 1, one(alloc, 0)?)?)?;
    Ok(is(alloc, &push_filter(alloc, tree, block)?, text)?)
}

// A condition on x or y over x with the optional y.
fn is_put_left(alloc: Global, block: &Block, number: u32, text: &[u8]) -> Result<bool, Fail> {
    let optional = outer(alloc, one(alloc, 0)?, one(alloc, 2)?)?;
    let tree = filter(alloc, number, optional)?;
    let new = filter_into_outer_left(alloc, tree, block)?;
    Ok(is(alloc, &new, text)?)
}

fn all_are_bound(alloc: Global, block: &Block) -> Result<bool, Fail> {
    let vars = variables(alloc, &one(alloc, 1)?, block)?;
    Ok(vars.as_slice() == [Sym(0), Sym(1), Sym(2)].as_slice())
}

#[test]
fn each_rule_changes_its_tree(rt: HostRuntime) -> Result<(), Fail> {
    let alloc = rt.alloc();
    let block = block(alloc)?;
    assert!(rt; joins_are_swapped(alloc, &block)?);
    assert!(rt; joins_are_turned(alloc, &block)?);
    assert!(rt; atoms_are_swapped(alloc, &block)?);
    assert!(rt; filters_are_swapped(alloc, &block)?);
    assert!(rt; is_pushed(alloc, &block, 0, b"a1f0a0")?);
    assert!(rt; is_pushed(alloc, &block, 1, b"f1a1a0")?);
    assert!(rt; is_put_left(alloc, &block, 0, b"(f0a0>a2)")?);
    assert!(rt; is_put_left(alloc, &block, 1, b"f1(a0>a2)")?);
    assert!(rt; all_are_bound(alloc, &block)?);
    Ok(())
}
