ghost use Rattle.std.specs.Prelude.{◌≡◌, ◌++◌, IfOk, OnOk};
ghost use Rattle.std.specs.Fmt.{decimal};
ghost use Rattle.gcore.specs.FaultLines.{step_text, walk_text};

use gc_base::{Bytes, Id, Memory, Sequence, Step, Walk};
use itoa::Buffer;
use std::alloc::Global;

/// The identities on a walk, its first node first, with commas between them.
pub fn walk_text(alloc: Global, walk: &Walk) -> Result<Bytes, Memory>
    ensures { IfOk result (λ text. text ≡ walk_text walk.now) }
{
    let mut text = Vec::new(alloc);
    push_number(&mut text, walk.start)?;
    for step in walk.steps.as_slice() {
        push_step(&mut text, step)?;
    }
    Ok(Sequence::from_vec(text))
}

// Adds those of a step.
fn push_step(text: &mut Vec<u8>, step: &Step) -> Result<(), Memory>
    ensures { OnOk result (text.new.items ≡ text.old.items ++ step_text step.now) }
{
    text.push(b',')?;
    push_number(text, step.edge)?;
    text.push(b',')?;
    push_number(text, step.node)
}

// Adds an identity.
fn push_number(text: &mut Vec<u8>, id: Id) -> Result<(), Memory>
    ensures { OnOk result (text.new.items ≡ text.old.items ++ decimal id) }
{
    let mut digits = Buffer::new();
    text.extend_from_slice(digits.format(id.get()).as_bytes())?;
    Ok(())
}
