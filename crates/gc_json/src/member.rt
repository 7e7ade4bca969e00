//! The members that an element of a file may have, told by their keys.
ghost use Rattle.std.specs.Prelude.{◌≡◌, IfSome, IfNone};
ghost use Rattle.gc_json.specs.ElementValues.{keys_of};
ghost use Rattle.gc_json.specs.JsonValues.{is_key_among};
ghost use Rattle.gc_json.specs.Members.{member_key, IsNoMember};

use gc_ppg::Kind;

// A member that elements have.
#[derive(Clone, Copy, Drop)]
pub(crate) enum Member {
    Id,
    From,
    To,
    Labels,
    Properties,
    Walk,
}

impl Member {
    // The member of a key, if elements have one. The length of the key leaves two keys at most.
    pub(crate) fn of(key: &str) -> Option<Member>
        ensures some { IfSome result (λ member. key.now ≡ member_key member) }
        ensures none { IfNone result (IsNoMember key.now) }
    {
        match key.len() {
            2 => match key {
                "id" => Some(Member::Id),
                "to" => Some(Member::To),
                _ => None,
            },
            4 => match key {
                "from" => Some(Member::From),
                "walk" => Some(Member::Walk),
                _ => None,
            },
            6 => match key {
                "labels" => Some(Member::Labels),
                _ => None,
            },
            10 => match key {
                "properties" => Some(Member::Properties),
                _ => None,
            },
            _ => None,
        }
    }

    // Whether an element of a kind may have the member.
    pub(crate) fn is_of(self, kind: Kind) -> bool
        ensures { result ≡ is_key_among (keys_of kind) (member_key self) }
    {
        match self {
            Member::Id | Member::Labels | Member::Properties => true,
            Member::From | Member::To => matches!(kind, Kind::Edge),
            Member::Walk => matches!(kind, Kind::Path),
        }
    }
}
