ghost use Rattle.std.specs.Prelude.{◌≡◌, List, Option, IfOk, OnOk, length};
ghost use Rattle.gc_group.specs.Groups.{AreGroupsOf};
ghost use Rattle.gc_group.specs.declared.key.Key.{Key};
ghost use Rattle.gc_build_numbers.specs.Keys.{groups_of, keys_of};
ghost use Rattle.gc_build_numbers.specs.Numbers.{elements_by, numbered_by, numbering, with_keys, with_variable};

use crate::element_rows::{element_rows, is_bound, is_by_ends, is_by_node};
use crate::elements::{elements, taken_by, which};
use crate::keys::keys;
use crate::numbered::{ElementList, Numbered, NumberedList, Numbering, RowElements};
use crate::setting::Setting;
use crate::whole_rows::add_rows;
use gc_base::{Memory, Steps};
use gc_build_recipe::{Grouping, Variable};
use gc_group::{ElementKey, EndsKey, Group, NodeKey, element_groups, groups};
use std::alloc::Global;
use std::sync::ledger::Ledger;

/// The elements of the variables of a CONSTRUCT, each with the rows that make it. Bound elements keep
/// their identities as numbers; new ones are numbered from 0 on, variable by variable in this order, and
/// within a variable by ascending keys. An end of an edge has to stand before the edge, or it is as if
/// no row made it. `steps` counts what is read. Numbers that pass their type are want of memory.
pub fn number<L: Ledger>(
    setting: &Setting<'_>,
    variables: &[Variable],
    steps: &mut Steps<L>,
) -> Result<Numbering, Memory>
    ensures { IfOk result (λ n. n ≡ numbering setting.now variables.now) }
{
    let mut numbering = Numbering {
        next: 0,
        variables: NumberedList::new(setting.alloc),
    };
    for variable in variables {
        add(setting, &mut numbering, variable, steps)?;
    }
    Ok(numbering)
}

// Numbers one variable more.
fn add<L: Ledger>(
    setting: &Setting<'_>,
    numbering: &mut Numbering,
    variable: &Variable,
    steps: &mut Steps<L>,
) -> Result<(), Memory>
    ensures { OnOk result (numbering.new ≡ with_variable setting.now numbering.old variable.now) }
{
    match &variable.grouping {
        Grouping::EachRow => add_rows(setting, numbering, variable.var),
        _ => {
            let groups = groups_of(setting, &numbering.variables, variable, steps)?;
            add_groups(setting, numbering, variable, groups)
        }
    }
}

// The groups of the rows by their keys for a variable, by ascending keys.
fn groups_of<L: Ledger>(
    setting: &Setting<'_>,
    before: &NumberedList,
    variable: &Variable,
    steps: &mut Steps<L>,
) -> Result<Vec<Group>, Memory>
    ensures groups { IfOk result (λ groups. groups.items ≡ groups_of (keys_of setting.now before.now variable.now)) }
    ensures each { IfOk result (λ groups. AreGroupsOf (keys_of setting.now before.now variable.now) groups.items) }
{
    let alloc = setting.alloc;
    if is_by_ends(&variable.grouping) {
        element_groups(alloc, element_rows::<EndsKey>(setting, before, variable)?)
    } else if is_by_node(variable) {
        element_groups(alloc, element_rows::<NodeKey>(setting, before, variable)?)
    } else if is_bound(&variable.grouping) {
        element_groups(
            alloc,
            element_rows::<ElementKey>(setting, before, variable)?,
        )
    } else {
        groups(alloc, &keys(setting, before, variable, steps)?)
    }
}

// Numbers one variable more, by the groups of the rows, which have these keys.
fn add_groups(
    setting: &Setting<'_>,
    numbering: &mut Numbering,
    variable: &Variable,
    groups: Vec<Group>,
) -> Result<(), Memory>
    ghost keys: { List (Option Key) }
    requires as_many { length setting.now.rows ≡ length keys }
    requires groups { groups.items ≡ groups_of keys }
    requires each { AreGroupsOf keys groups.items }
    ensures { OnOk result (numbering.new ≡ with_keys variable.now numbering.old keys) }
{
    let taken = taken_by(&variable.grouping, &groups);
    let count = setting.table.len();
    let numbered = numbered_by(setting.alloc, numbering.next, variable, count, groups)?;
    numbering.next = numbering.next.checked_add(taken).ok_or(Memory)?;
    numbering.variables.push(numbered)?;
    Ok(())
}

// A variable with the elements of the groups of a number of rows, which have these keys, and which of them each row makes.
fn numbered_by(
    alloc: Global,
    next: u64,
    variable: &Variable,
    count: usize,
    groups: Vec<Group>,
) -> Result<Numbered, Memory>
    ghost keys: { List (Option Key) }
    requires as_many { count ≡ length keys }
    requires each { AreGroupsOf keys groups.items }
    ensures { IfOk result (λ n. n ≡ numbered_by variable.now.var keys (elements_by variable.now.grouping next groups.items)) }
{
    let elements = elements(alloc, &variable.grouping, next, groups)?;
    let which = which(alloc, count, &elements)?;
    Ok(Numbered {
        var: variable.var,
        elements: ElementList::from_vec(elements),
        which: RowElements::from_vec(which),
    })
}
