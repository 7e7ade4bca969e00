ghost use Rattle.std.specs.Prelude.{◌≡◌, ◌++◌, ◌∷◌, [], map, IfOk, OnOk};
ghost use Rattle.gc_ast.specs.PatternViews.{group_term_tree, named_if};
ghost use Rattle.gc_ast.specs.QueryViews.{assign_tree, change_tree, item_tree, new_element_tree, part_tree};
ghost use Rattle.gc_ast.specs.Trees.{row};
ghost use Rattle.gc_build_reading.specs.Items.{assigned, assignment_of, assignments_of, copies_of, grouped, labels_of, term_of, terms_of};
ghost use Rattle.gc_build_reading.specs.Namings.{names_of, scope};
ghost use Rattle.gc_build_reading.specs.ToldLists.{nothing, with_change, with_changes, with_element, with_item, with_items, with_part, with_parts, with_stored};

use crate::copies::{assignment, term};
use crate::naming::Naming;
use crate::terms::{CopyOf, CopyOfList, TermOf, TermOfList};
use gc_ast::{
    Assign, AssignList, Change, ChangeList, ConstructPart, ConstructPartList, GroupTerm,
    GroupTermList, Item, ItemList, NewElement,
};
use gc_base::{Duplicate, Memory, Name, NameAt, NameList, Sym};
use gc_build_recipe::{AssignmentList, LabelOf, LabelOfList, PropertyOf, PropertyOfList};
use std::alloc::Global;
use std::marker::Model;

/// What items say of variables, in the order of the text.
#[derive(Drop)]
pub(crate) struct Told {
    pub labels: LabelOfList,
    pub assignments: AssignmentList,
    pub lost_labels: LabelOfList,
    pub lost_properties: PropertyOfList,
    pub terms: TermOfList,
    pub copies: CopyOfList,
}

impl Model for Told {
    ghost use Rattle.gc_build_reading.specs.ToldLists.{Told, told_code};

    ghost Value = { Told };

    ghost coded = { told_code };

    ghost view = { λ t. record {
      labels = t.labels;
      assignments = t.assignments.items;
      lost_labels = t.lost_labels;
      lost_properties = t.lost_properties;
      terms = t.terms;
      copies = t.copies;
    } };
}

impl Told {
    /// Nothing yet.
    fn new(alloc: Global) -> Told
        ensures { result ≡ nothing }
    {
        Told {
            labels: LabelOfList::new(alloc),
            assignments: AssignmentList::new(alloc),
            lost_labels: LabelOfList::new(alloc),
            lost_properties: PropertyOfList::new(alloc),
            terms: TermOfList::new(alloc),
            copies: CopyOfList::new(alloc),
        }
    }

    /// What items say.
    pub(crate) fn of(alloc: Global, naming: &Naming<'_>, items: &ItemList) -> Result<Told, Memory>
        ensures { IfOk result (λ told. told ≡ with_items (scope naming.now) nothing (row (map (item_tree (names_of naming.now)) items.now.items))) }
    {
        let mut told = Told::new(alloc);
        for item in items {
            told.add_item(naming, item)?;
        }
        Ok(told)
    }

    #[tactic(auto, unfolding(gc_ast::specs::QueryViews::item_by, gc_ast::specs::QueryViews::part_by, gc_ast::specs::QueryViews::change_by))]
    fn add_item(&mut self, naming: &Naming<'_>, item: &Item) -> Result<(), Memory>
        ensures { OnOk result (self.new ≡ with_item (scope naming.now) self.old (item_tree (names_of naming.now) item.now)) }
    {
        match item {
            Item::Graph(_) => Ok(()),
            Item::Chain { parts, changes, .. } => self.add_chain(naming, parts, changes),
        }
    }

    // Adds what a chain and the changes after it say.
    fn add_chain(
        &mut self,
        naming: &Naming<'_>,
        parts: &ConstructPartList,
        changes: &ChangeList,
    ) -> Result<(), Memory>
        ensures { OnOk result (self.new ≡ with_changes (scope naming.now) (with_parts (scope naming.now) self.old
            (row (map (part_tree (names_of naming.now)) parts.now.items))) (row (map (change_tree (names_of naming.now)) changes.now.items))) }
    {
        self.add_parts(naming, parts)?;
        self.add_changes(naming, changes)?;
        Ok(())
    }

    fn add_parts(&mut self, naming: &Naming<'_>, parts: &ConstructPartList) -> Result<(), Memory>
        ensures { OnOk result (self.new ≡ with_parts (scope naming.now) self.old (row (map (part_tree (names_of naming.now)) parts.now.items))) }
    {
        for part in parts {
            self.add_part(naming, part)?;
        }
        Ok(())
    }

    #[tactic(auto, unfolding(gc_ast::specs::QueryViews::part_by, gc_ast::specs::QueryViews::new_element_by))]
    fn add_part(&mut self, naming: &Naming<'_>, part: &ConstructPart) -> Result<(), Memory>
        ensures { OnOk result (self.new ≡ with_part (scope naming.now) self.old (part_tree (names_of naming.now) part.now)) }
    {
        match part {
            ConstructPart::Node(element) => self.add_element(naming, element),
            ConstructPart::Edge { element, .. } => self.add_element(naming, element),
            ConstructPart::Projected { .. } => Ok(()),
            ConstructPart::Stored {
                name,
                labels,
                assigns,
                ..
            } => self.add_stored(naming, naming.named(name.sym), labels, assigns),
        }
    }

    // Adds what a stored path of this variable says.
    fn add_stored(
        &mut self,
        naming: &Naming<'_>,
        var: Sym,
        labels: &NameList,
        assigns: &AssignList,
    ) -> Result<(), Memory>
        ensures { OnOk result (self.new ≡ with_stored (scope naming.now) self.old var labels.now
            (row (map (assign_tree (names_of naming.now)) assigns.now.items))) }
    {
        add_labels(&mut self.labels, var, labels)?;
        add_assignments(&mut self.assignments, naming, var, assigns)?;
        Ok(())
    }

    // Adds what a node or an edge says.
    #[tactic(auto, unfolding(gc_ast::specs::QueryViews::new_element_by, gc_ast::specs::QueryViews::assign_by))]
    fn add_element(&mut self, naming: &Naming<'_>, element: &NewElement) -> Result<(), Memory>
        ensures { OnOk result (self.new ≡ with_element (scope naming.now) self.old (new_element_tree (names_of naming.now) element.now)) }
    {
        let var = naming.variable_or(element.token, &element.name);
        add_labels(&mut self.labels, var, &element.labels)?;
        add_assignments(&mut self.assignments, naming, var, &element.assigns)?;
        add_terms(&mut self.terms, naming, var, &element.group)?;
        add_copy(&mut self.copies, naming, var, &element.copy)?;
        Ok(())
    }

    fn add_changes(&mut self, naming: &Naming<'_>, changes: &ChangeList) -> Result<(), Memory>
        ensures { OnOk result (self.new ≡ with_changes (scope naming.now) self.old (row (map (change_tree (names_of naming.now)) changes.now.items))) }
    {
        for change in changes {
            self.add_change(naming, change)?;
        }
        Ok(())
    }

    #[tactic(auto, unfolding(gc_ast::specs::QueryViews::change_by, gc_ast::specs::QueryViews::assign_by))]
    fn add_change(&mut self, naming: &Naming<'_>, change: &Change) -> Result<(), Memory>
        ensures { OnOk result (self.new ≡ with_change (scope naming.now) self.old (change_tree (names_of naming.now) change.now)) }
    {
        match change {
            Change::Assign { target, assign } => {
                let var = naming.named(target.sym);
                add_assignment(&mut self.assignments, naming, var, assign)
            }
            Change::AddLabel { target, label } => {
                add_label(&mut self.labels, naming.named(target.sym), label)
            }
            Change::DropProperty { target, property } => {
                let var = naming.named(target.sym);
                let property = property.copy()?;
                self.lost_properties.push(PropertyOf { var, property })
            }
            Change::DropLabel { target, label } => {
                add_label(&mut self.lost_labels, naming.named(target.sym), label)
            }
        }
    }
}

// Adds a label of a variable.
fn add_label(list: &mut LabelOfList, var: Sym, label: &Name) -> Result<(), Memory>
    ensures { OnOk result (list.new ≡ list.old ++ labels_of var (label.now ∷ [])) }
{
    let label = label.copy()?;
    list.push(LabelOf { var, label })
}

// Adds labels of a variable.
fn add_labels(list: &mut LabelOfList, var: Sym, labels: &NameList) -> Result<(), Memory>
    ensures { OnOk result (list.new ≡ list.old ++ labels_of var labels.now) }
{
    for label in labels.as_slice() {
        add_label(list, var, label)?;
    }
    Ok(())
}

// Adds properties that a variable is given.
fn add_assignments(
    list: &mut AssignmentList,
    naming: &Naming<'_>,
    var: Sym,
    assigns: &AssignList,
) -> Result<(), Memory>
    ensures { OnOk result (list.new.items
        ≡ list.old.items ++ assignments_of (scope naming.now) var (row (map (assign_tree (names_of naming.now)) assigns.now.items))) }
{
    for assign in assigns {
        add_assignment(list, naming, var, assign)?;
    }
    Ok(())
}

// Adds a property that a variable is given.
fn add_assignment(
    list: &mut AssignmentList,
    naming: &Naming<'_>,
    var: Sym,
    assign: &Assign,
) -> Result<(), Memory>
    ensures { OnOk result (list.new.items ≡ list.old.items ++ assigned (scope naming.now) var (assign_tree (names_of naming.now) assign.now)) }
{
    let made = assignment(naming, var, assign)?;
    list.push(made)?;
    Ok(())
}

// Adds terms by which a variable is grouped.
fn add_terms(
    list: &mut TermOfList,
    naming: &Naming<'_>,
    var: Sym,
    group: &GroupTermList,
) -> Result<(), Memory>
    ensures { OnOk result (list.new ≡ list.old ++ terms_of (scope naming.now) var (row (map (group_term_tree (names_of naming.now)) group.now))) }
{
    for one in group.as_slice() {
        add_term(list, naming, var, one)?;
    }
    Ok(())
}

// Adds a term by which a variable is grouped.
fn add_term(
    list: &mut TermOfList,
    naming: &Naming<'_>,
    var: Sym,
    one: &GroupTerm,
) -> Result<(), Memory>
    ensures { OnOk result (list.new ≡ list.old ++ grouped (scope naming.now) var (group_term_tree (names_of naming.now) one.now)) }
{
    let term = term(naming, one)?;
    list.push(TermOf { var, term })?;
    Ok(())
}

// Adds what a variable copies.
fn add_copy(
    list: &mut CopyOfList,
    naming: &Naming<'_>,
    var: Sym,
    copy: &Option<NameAt>,
) -> Result<(), Memory>
    ensures { OnOk result (list.new ≡ list.old ++ copies_of (scope naming.now) var (named_if (names_of naming.now) copy.now)) }
{
    match copy {
        None => Ok(()),
        Some(name) => {
            let copied = naming.named(name.sym);
            list.push(CopyOf { var, copied })
        }
    }
}
