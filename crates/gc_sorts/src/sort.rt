ghost use Rattle.std.specs.Prelude.{◌≡◌};
ghost use Rattle.gc_sorts.specs.Variables.{sort_of, is_single};

use gc_base::Sym;

/// What a variable stands for.
#[derive(Clone, Copy, Debug, PartialEq, Eq)]
pub enum Sort {
    Node,
    Edge,
    /// A path of a graph.
    Stored,
    /// A path that is searched for.
    Found,
    /// All paths between two nodes.
    All,
    /// A property's values, or a cost.
    Value,
}

/// What a variable is at a place. A property and a cost are both values.
#[derive(Clone, Copy, Debug, PartialEq, Eq)]
pub enum Role {
    Node,
    Edge,
    Stored,
    Found,
    All,
    Property,
    Cost,
}

/// A place at which a variable stands.
#[derive(Clone, Copy, Debug, PartialEq, Eq)]
pub struct UseAt {
    pub name: Sym,
    pub token: u32,
    pub role: Role,
}

impl Role {
    /// The sort of what stands there.
    pub fn sort(self) -> Sort
        ensures { result ≡ sort_of self }
    {
        match self {
            Role::Node => Sort::Node,
            Role::Edge => Sort::Edge,
            Role::Stored => Sort::Stored,
            Role::Found => Sort::Found,
            Role::All => Sort::All,
            Role::Property | Role::Cost => Sort::Value,
        }
    }

    /// Whether what stands there may stand at one place alone.
    pub fn is_single(self) -> bool
        ensures { result ≡ is_single self }
    {
        matches!(self, Role::Found | Role::All | Role::Cost)
    }
}
