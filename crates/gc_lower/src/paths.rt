ghost use Rattle.std.specs.Prelude.{◌≡◌, map, nat_abs, IfOk};
ghost use Rattle.gc_regx.specs.Views.{regex_tree};
ghost use Rattle.gc_ast.specs.PatternViews.{all_named_by, body_by, named_if_by};
ghost use Rattle.gc_expr.specs.Views.{name_of};
ghost use Rattle.gc_lower.specs.Chains.{path_atom, path_what, variable_if, view_uses, walk_count};
ghost use Rattle.gc_lower.specs.Namings.{names_of, scope};

use crate::elements::Link;
use crate::naming::Naming;
use gc_alg::{Atom, AtomWhat, PathExpression, ViewUseList};
use gc_ast::{CountAt, NameAtList, PathBody};
use gc_base::{Duplicate, Memory, NameAt, Sequence, Sym};
use gc_regx::Regex;
use std::alloc::Global;

/// The atom of a path pattern.
pub(crate) fn path_atom(
    alloc: Global,
    naming: &Naming<'_>,
    link: Link,
    body: &PathBody,
) -> Result<Atom, Memory>
    ensures { IfOk result (λ atom. atom ≡ path_atom (scope naming.now) link.graph link.left link.right (body_by (name_of (names_of naming.now)) body.now)) }
{
    let what = path_what(alloc, naming, link, body)?;
    Ok(Atom {
        graph: link.graph,
        what,
    })
}

fn path_what(
    alloc: Global,
    naming: &Naming<'_>,
    link: Link,
    body: &PathBody,
) -> Result<AtomWhat, Memory>
    ensures { IfOk result (λ what. what ≡ path_what (scope naming.now) link.left link.right (body_by (name_of (names_of naming.now)) body.now)) }
{
    let (x, y) = (link.left, link.right);
    match body {
        PathBody::Reach { regex, views } => {
            let views = view_uses(alloc, naming, views)?;
            let regex = expression(regex)?;
            Ok(AtomWhat::Reach { x, y, regex, views })
        }
        PathBody::Found {
            k,
            name,
            regex,
            views,
            cost,
        } => {
            let views = view_uses(alloc, naming, views)?;
            let regex = expression(regex)?;
            let k = walk_count(*k)?;
            Ok(AtomWhat::Found {
                x,
                p: naming.named(name.sym),
                y,
                k,
                cost: variable_if(naming, cost),
                regex,
                views,
            })
        }
        PathBody::All { name, regex, views } => {
            let views = view_uses(alloc, naming, views)?;
            let regex = expression(regex)?;
            let p = naming.named(name.sym);
            Ok(AtomWhat::All {
                x,
                p,
                y,
                regex,
                views,
            })
        }
        PathBody::Stored { name, labels } => {
            let labels = labels.copy()?;
            let p = naming.named(name.sym);
            Ok(AtomWhat::Stored { x, p, y, labels })
        }
    }
}

fn expression(regex: &Regex) -> Result<PathExpression, Memory>
    ensures { IfOk result (λ copied. copied ≡ regex_tree regex.now) }
{
    Ok(PathExpression(regex.copy()?))
}

// How many walks are asked for. A number past its type is want of memory.
fn walk_count(k: Option<CountAt>) -> Result<u32, Memory>
    ensures { IfOk result (λ count. count ≡ walk_count k) }
{
    match k {
        None => Ok(1),
        Some(k) => match u32::try_from(k.count.unsigned_abs()) {
            Ok(count) => Ok(count),
            Err(_) => Err(Memory),
        },
    }
}

// The variable of a name, if there is one.
fn variable_if(naming: &Naming<'_>, name: &Option<NameAt>) -> Option<Sym>
    ensures { result ≡ variable_if (scope naming.now) (named_if_by (name_of (names_of naming.now)) name.now) }
{
    match name {
        None => None,
        Some(name) => Some(naming.named(name.sym)),
    }
}

// The views that the names in an expression mean.
fn view_uses(alloc: Global, naming: &Naming<'_>, views: &NameAtList) -> Result<ViewUseList, Memory>
    ensures { IfOk result (λ uses. uses ≡ view_uses (scope naming.now) (all_named_by (name_of (names_of naming.now)) views.now)) }
{
    let mut uses = Vec::new(alloc);
    for name in views.as_slice() {
        uses.push(naming.view_use(*name)?)?;
    }
    Ok(Sequence::from_vec(uses))
}
