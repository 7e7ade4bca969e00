/// What a step of a plan does.
#[derive(Clone, Copy, Debug)]
pub enum StepWord {
    /// Meets an atom of which all variables are bound.
    Check,
    /// Goes from what is bound to what is not, along an edge, a path or a property.
    Expand,
    /// Looks for walks from a node that is bound.
    Search,
    /// Goes over the elements of a kind.
    Scan,
    /// Tests a condition.
    Filter,
}

/// A step of a plan, with the number of its atom or its condition, from 0.
#[derive(Clone, Copy, Debug)]
pub struct Step {
    pub word: StepWord,
    pub number: usize,
}
