ghost use Rattle.std.specs.Prelude.{◌≡◌, map, IfOk};
ghost use Rattle.gc_regx.specs.Trees as tree;
ghost use Rattle.gc_regx.specs.Trees.{row};
ghost use Rattle.gc_regx.specs.Views.{regex_tree};

use crate::regex::{Regex, RegexList};
use gc_base::{Memory, Name};
use std::alloc::Global;

#[tactic(auto, unfolding(crate::specs::Views::regex_tree))]
impl Regex {
    /// `:l`
    pub fn label(label: Name) -> Regex
        ensures { regex_tree result ≡ tree.Label label }
    {
        Regex::Label(label)
    }

    /// `:l-`
    pub fn back(label: Name) -> Regex
        ensures { regex_tree result ≡ tree.Back label }
    {
        Regex::Back(label)
    }

    /// `_`
    pub fn any() -> Regex
        ensures { regex_tree result ≡ tree.Any }
    {
        Regex::Any
    }

    /// `_-`
    pub fn any_back() -> Regex
        ensures { regex_tree result ≡ tree.AnyBack }
    {
        Regex::AnyBack
    }

    /// `!:l`
    pub fn test(label: Name) -> Regex
        ensures { regex_tree result ≡ tree.Test label }
    {
        Regex::Test(label)
    }

    /// `~v`
    pub fn view(view: Name) -> Regex
        ensures { regex_tree result ≡ tree.View view }
    {
        Regex::View(view)
    }

    /// Parts one after another.
    pub fn cat(parts: RegexList) -> Regex
        ensures { regex_tree result ≡ tree.Cat (row (map regex_tree parts.items)) }
    {
        Regex::Cat(parts)
    }

    /// One of the parts.
    pub fn alt(parts: RegexList) -> Regex
        ensures { regex_tree result ≡ tree.Alt (row (map regex_tree parts.items)) }
    {
        Regex::Alt(parts)
    }

    /// A part any number of times.
    pub fn star(alloc: Global, part: Regex) -> Result<Regex, Memory>
        ensures { IfOk result (λ starred. regex_tree starred ≡ tree.Star (regex_tree part)) }
    {
        Ok(Regex::Star(Box::new(alloc, part)?))
    }
}
