use gc_base::Name;

/// A regular path expression. The parts of a `Cat` follow one another, those of an `Alt` are
/// alternatives; the grammar gives both at least two parts.
#[derive(Debug, Drop)]
pub enum Regex {
    /// `:l`, an edge with this label, along its direction.
    Label(Name),
    /// `:l-`, an edge with this label, against its direction.
    Back(Name),
    /// `_`, any edge, along its direction.
    Any,
    /// `_-`, any edge, against its direction.
    AnyBack,
    /// `!:l`, a node with this label.
    Test(Name),
    /// `~v`, a segment of this view.
    View(Name),
    /// Parts one after another.
    Cat(RegexList),
    /// One of the parts.
    Alt(RegexList),
    /// A part any number of times.
    Star(Box<Regex>),
}

/// A list of regular path expressions.
pub type RegexList = Vec<Regex>;
