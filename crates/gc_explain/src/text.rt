ghost use Rattle.std.specs.Prelude.{◌≡◌, ◌++◌, OnOk};
ghost use Rattle.gc_explain.specs.PlanLines.{step_line, step_lines, word_text};

use crate::step::{Step, StepWord};
use gc_base::Memory;
use itoa::Buffer;

/// Adds the lines of steps: of each its word and its number, from 1.
pub fn push_lines(text: &mut Vec<u8>, steps: &[Step]) -> Result<(), Memory>
    ensures { OnOk result (text.new.items ≡ text.old.items ++ step_lines steps.now) }
{
    for step in steps {
        push_line(text, *step)?;
    }
    Ok(())
}

fn push_line(text: &mut Vec<u8>, step: Step) -> Result<(), Memory>
    ensures { OnOk result (text.new.items ≡ text.old.items ++ step_line step) }
{
    let mut digits = Buffer::new();
    text.extend_from_slice(word_text(step.word))?;
    text.push(b' ')?;
    text.extend_from_slice(digits.format(step.number as u128 + 1).as_bytes())?;
    text.push(b'\n')?;
    Ok(())
}

fn word_text(word: StepWord) -> &'static [u8]
    ensures { result.now ≡ word_text word }
{
    match word {
        StepWord::Check => b"check",
        StepWord::Expand => b"expand",
        StepWord::Search => b"search",
        StepWord::Scan => b"scan",
        StepWord::Filter => b"filter",
    }
}
