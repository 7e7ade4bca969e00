ghost use Rattle.std.specs.Prelude.{◌≡◌, map, IfOk};
ghost use Rattle.gc_regx.specs.Views.{regex_tree};

use crate::regex::{Regex, RegexList};
use gc_base::{Duplicate, Memory};

impl Regex {
    /// An expression with the same tree.
    pub fn copy(&self) -> Result<Regex, Memory>
        ensures { IfOk result (λ copied. regex_tree copied ≡ regex_tree self.now) }
    {
        copy(self)
    }
}

#[tactic(auto, unfolding(crate::specs::Views::regex_tree))]
#[cycle(copy)]
fn copy(regex: &Regex) -> Result<Regex, Memory>
    ensures { IfOk result (λ copied. regex_tree copied ≡ regex_tree regex.now) }
{
    match regex {
        Regex::Label(label) => Ok(Regex::Label(label.copy()?)),
        Regex::Back(label) => Ok(Regex::Back(label.copy()?)),
        Regex::Any => Ok(Regex::Any),
        Regex::AnyBack => Ok(Regex::AnyBack),
        Regex::Test(label) => Ok(Regex::Test(label.copy()?)),
        Regex::View(view) => Ok(Regex::View(view.copy()?)),
        Regex::Cat(parts) => Ok(Regex::Cat(copy_parts(parts)?)),
        Regex::Alt(parts) => Ok(Regex::Alt(copy_parts(parts)?)),
        Regex::Star(part) => {
            let alloc = *Box::allocator(part);
            Ok(Regex::Star(Box::new(alloc, copy(part)?)?))
        }
    }
}

#[tactic(auto, unfolding(crate::specs::Views::regex_tree))]
#[cycle(copy)]
fn copy_parts(parts: &RegexList) -> Result<RegexList, Memory>
    ensures { IfOk result (λ copied. map regex_tree copied.items ≡ map regex_tree parts.now.items) }
{
    let mut copied = Vec::with_capacity(*parts.allocator(), parts.len())?;
    for part in parts {
        copied.push(copy(part)?)?;
    }
    Ok(copied)
}
