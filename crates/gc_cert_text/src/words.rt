//! The words of an expression. That each is one is a fact of its type; these functions go over an expression
//! and tell it of the tree.
ghost use Rattle.std.specs.Prelude.{◌≡◌, map, true};
ghost use Rattle.gc_base.specs.Words.{is_word};
ghost use Rattle.gc_regx.specs.Trees.{row};
ghost use Rattle.gc_regx.specs.Views.{regex_tree};
ghost use Rattle.gc_cert_text.specs.WordTrees.{HasWords};

use gc_base::Name;
use gc_regx::Regex;

#[tactic(auto, unfolding(gc_regx::specs::Views::regex_tree, gc_regx::specs::Expressions::IsFormed))]
#[cycle(words)]
pub(crate) fn know_words(regex: &Regex)
    ensures { HasWords (regex_tree regex.now) }
{
    match regex {
        Regex::Label(label) => know_word(label),
        Regex::Back(label) => know_word(label),
        Regex::Any => {}
        Regex::AnyBack => {}
        Regex::Test(label) => know_word(label),
        Regex::View(view) => know_word(view),
        Regex::Cat(parts) => know_all(parts),
        Regex::Alt(parts) => know_all(parts),
        Regex::Star(part) => know_words(part),
    }
}

#[tactic(auto, unfolding(gc_regx::specs::Expressions::IsFormed))]
#[cycle(words)]
fn know_all(parts: &[Regex])
    ensures { HasWords (row (map regex_tree parts.now)) }
{
    for part in parts {
        know_words(part);
    }
}

fn know_word(name: &Name)
    ensures { is_word name.now ≡ true }
{
    let _word = name.bytes();
}
