/// What is known of an expression or a name.
#[derive(Clone, Copy, Debug, PartialEq, Eq)]
pub enum Form {
    /// Nothing: a name that is not in scope.
    Unknown,
    Condition,
    Node,
    Edge,
    Stored,
    Found,
    /// A found path that the CONSTRUCT stores.
    Kept,
    All,
    Value,
}

/// What a place takes.
#[derive(Clone, Copy, Debug, PartialEq, Eq)]
pub enum Takes {
    /// All but an ALL path.
    Anything,
    /// What is true or false.
    Condition,
    Value,
    /// What has labels and properties.
    Described,
    /// What COUNT counts.
    Counted,
    /// What has a walk.
    Walked,
    /// What may be compared with this.
    Like(Form),
}
