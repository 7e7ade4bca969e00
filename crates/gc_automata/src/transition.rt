use gc_base::Name;

/// What a transition goes along.
#[derive(Debug, Drop)]
pub enum On {
    /// Nothing: the walk stays where it is.
    Empty,
    /// An edge with this label, from its source to its target.
    Label(Name),
    /// An edge with this label, from its target to its source.
    Back(Name),
    /// Any edge, from its source to its target.
    Any,
    /// Any edge, from its target to its source.
    AnyBack,
    /// A node with this label, at which the walk stays.
    Test(Name),
    /// A segment of this view.
    View(Name),
}

/// A transition from a state to a state.
#[derive(Debug, Drop)]
pub struct Transition {
    pub from: u32,
    pub to: u32,
    pub on: On,
}
