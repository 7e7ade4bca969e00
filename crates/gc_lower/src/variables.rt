ghost use Rattle.std.specs.Prelude.{◌≡◌, true};
ghost use Rattle.std.specs.List.{list_all};
ghost use Rattle.gc_base.specs.Words.{is_word};
ghost use Rattle.gc_expr.specs.Views.{name_of};
ghost use Rattle.gc_lower.specs.Namings.{scope_of};
ghost use Rattle.gc_lower.specs.Scopes.{is_found_in, numbered};

use gc_ast::NameTable;
use gc_base::{BlockNo, Sym};
use gc_sorts::{Checked, Sort};

/// The variable of a name of a file, by the number that the file has for it: that number itself. A number
/// past the name table has no name, and the number behind the last.
#[tactic(auto, using(crate::proofs::Numbers::own_number, crate::proofs::Numbers::no_number))]
pub fn variable(names: &NameTable, sym: Sym) -> Sym
    ensures { result ≡ numbered names.now (name_of names.now sym) }
{
    let _distinct = names.as_slice();
    if sym.0 < names.len() {
        sym
    } else {
        read_words(names);
        Sym(names.len())
    }
}

/// Whether a variable of the block of a number of a checked file stands for a walk that is looked for, as its sort there
/// tells. It takes time in the size of the block and of the parts around it.
#[tactic(auto, unfolding(crate::specs::Namings::scope_in))]
pub fn is_found(checked: &Checked, block: BlockNo, var: Sym) -> bool
    ensures { result ≡ is_found_in (scope_of checked.now 0) block.0 var }
{
    match checked.sort(block, var) {
        Some(Sort::Found) => true,
        _ => false,
    }
}

// Reads each name of a table, which is a word by its type. A number that the parser gave never comes here.
fn read_words(names: &NameTable)
    ensures { list_all is_word names.now ≡ true }
{
    for name in names.as_slice() {
        let _word = name.bytes();
    }
}
