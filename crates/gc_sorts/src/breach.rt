ghost use Rattle.std.specs.Prelude.{◌≡◌, if◌then◌else◌};
ghost use Rattle.gc_sorts.specs.Breaches.{rule_number, is_before, first_among, broken, broken_if};

/// The rules that a query file may break, in the order of their numbers.
#[derive(Clone, Copy, Debug, PartialEq, Eq)]
pub enum SortRule {
    /// The name of a graph, behind ON, as a term or as an item, is not known there.
    UnknownGraph,
    /// The name behind `~` is no view that a PATH before has in scope.
    UnknownView,
    /// A name is no variable that stands there: in a WHERE or COST one of the block or of those around; in a
    /// GROUP, `=`, assignment or construct path one of the MATCH; in a WHEN also one of the CONSTRUCT; behind
    /// SET and REMOVE a node, an edge or an `@` path of the CONSTRUCT.
    UnknownName,
    /// A name or an expression is of a sort that its place does not take.
    SortClash,
    /// A found path, an ALL path or a cost has a second place in scope.
    TwiceBound,
    /// An OPTIONAL block has a variable of an earlier OPTIONAL block that the mandatory patterns have not.
    SharedOptional,
    /// An ALL path stands elsewhere than in its pattern and in `-/p/->` of the CONSTRUCT.
    AllNotProjected,
    /// A construct link that the MATCH binds has other ends or another arrow there, or a new edge has no
    /// direction.
    LooseEdge,
    /// A GROUP or a copy is of a variable of the MATCH or a second one of a variable, or a new edge has a
    /// second place.
    TwiceGrouped,
    /// The first chain of a PATH has no edge.
    ViewNeedsEdge,
    /// The number before SHORTEST is not 1 to 1,000.
    KOutOfRange,
    /// An aggregate stands elsewhere than in the right side of `:=`, or inside another one.
    AggregateHere,
    /// An EXISTS stands elsewhere than in the WHERE of a MATCH, OPTIONAL or EXISTS block, or its query is not
    /// `CONSTRUCT ()` with one MATCH block.
    ExistsForm,
    /// The name that a GRAPH or GRAPH VIEW gives is a known graph, or that of a PATH a view in scope.
    NameTaken,
    /// An expression has more than 1,024 states, a block more than 100 patterns, or a query more than 100
    /// OPTIONAL blocks.
    TooLarge,
}

impl SortRule {
    /// Its number, from 1.
    pub fn number(self) -> u32
        ensures { result ≡ rule_number self }
    {
        match self {
            SortRule::UnknownGraph => 1,
            SortRule::UnknownView => 2,
            SortRule::UnknownName => 3,
            SortRule::SortClash => 4,
            SortRule::TwiceBound => 5,
            SortRule::SharedOptional => 6,
            SortRule::AllNotProjected => 7,
            SortRule::LooseEdge => 8,
            SortRule::TwiceGrouped => 9,
            SortRule::ViewNeedsEdge => 10,
            SortRule::KOutOfRange => 11,
            SortRule::AggregateHere => 12,
            SortRule::ExistsForm => 13,
            SortRule::NameTaken => 14,
            SortRule::TooLarge => 15,
        }
    }
}

/// A rule that is broken, and the number of the token at which it is. Of a tree that no grammar gives
/// the number may be past the last `u32`.
#[derive(Clone, Copy, Debug, PartialEq, Eq)]
pub struct Breach {
    pub rule: SortRule,
    pub token: u64,
}

impl Breach {
    // Whether it comes before another: at an earlier token, or by a lower rule at the same one.
    fn is_before(self, other: Breach) -> bool
        ensures { result ≡ is_before self other }
    {
        self.token < other.token
            || (self.token == other.token && self.rule.number() < other.rule.number())
    }
}

/// The first breach of those so far and this one.
pub(crate) fn noted(found: Option<Breach>, rule: SortRule, token: u64) -> Option<Breach>
    ensures { result ≡ first_among found (broken rule token) }
{
    let breach = Breach { rule, token };
    match found {
        None => Some(breach),
        Some(first) => Some(earlier(breach, first)),
    }
}

// The earlier of two breaches.
fn earlier(breach: Breach, first: Breach) -> Breach
    ensures { result ≡ (if is_before breach first then breach else first) }
{
    if breach.is_before(first) {
        breach
    } else {
        first
    }
}

/// The first breach of those so far and this one, if there is a breach.
pub(crate) fn noted_if(
    found: Option<Breach>,
    is_broken: bool,
    rule: SortRule,
    token: u64,
) -> Option<Breach>
    ensures { result ≡ first_among found (broken_if is_broken rule token) }
{
    if is_broken {
        noted(found, rule, token)
    } else {
        found
    }
}
