//! The values of an element, read as its members come.
ghost use Rattle.std.specs.Prelude.{◌≡◌, ◌<◌, length, true, false, OnOk};
ghost use Rattle.json.specs.Json.{parse_map};
ghost use Rattle.serde_json.specs.Data.{no_members};
ghost use Rattle.serde_json.specs.View.{view};
ghost use Rattle.gc_json.specs.Members.{member_key};
ghost use Rattle.gc_json.specs.ElementSeen.{element_seen};
ghost use Rattle.gc_json.specs.ElementValues.{no_values, values_at, element_of, values_after};
ghost use Rattle.gc_json.specs.Takes.{Takes};
ghost use Rattle.gc_json.specs.Tokens.{value_data, members_data};

use crate::checking::check_token;
use crate::finding::opens_object;
use crate::member::Member;
use crate::token_values::read_value;
use crate::unread::Unread;
use gc_ppg::Kind;
use json::Reader;
use serde_json::Value;
use std::alloc::Global;

// The values of an element, at the keys that elements have. The last of a repeated key stays.
#[derive(Drop)]
pub(crate) struct Element {
    pub(crate) id: Option<Value>,
    pub(crate) from: Option<Value>,
    pub(crate) to: Option<Value>,
    pub(crate) labels: Option<Value>,
    pub(crate) properties: Option<Value>,
    pub(crate) walk: Option<Value>,
    // Whether it is an object with no key but those of its kind.
    pub(crate) is_known: bool,
}

impl Element {
    // An element without values.
    fn empty(is_known: bool) -> Element
        ensures { element_seen result ≡ no_values is_known }
    {
        Element {
            id: None,
            from: None,
            to: None,
            labels: None,
            properties: None,
            walk: None,
            is_known,
        }
    }

    // Takes the next value, which stands at a key.
    fn take(
        &mut self,
        alloc: Global,
        reader: &mut Reader<'_>,
        depth: usize,
        kind: Kind,
        key: &str,
    ) -> Result<(), Unread>
        ensures value { Takes (λ _. element_seen self.new)
            (parse_map (values_after kind (element_seen self.old) key.now) (value_data depth reader.old)) result reader.new }
        ensures shorter { OnOk result (length reader.new < length reader.old) }
    {
        let value = read_value(alloc, reader, depth)?;
        self.put(kind, key, value);
        Ok(())
    }

    // Puts a value at a key.
    fn put(&mut self, kind: Kind, key: &str, value: Value)
        ensures { element_seen self.new ≡ values_after kind (element_seen self.old) key.now (view value) }
    {
        match Member::of(key) {
            Some(member) => self.put_member(kind, member, value),
            None => self.is_known = false,
        }
    }

    // Puts a value at the key of a member.
    fn put_member(&mut self, kind: Kind, member: Member, value: Value)
        ensures { element_seen self.new ≡ values_after kind (element_seen self.old) (member_key member) (view value) }
    {
        if !member.is_of(kind) {
            self.is_known = false;
        }
        match member {
            Member::Id => self.id = Some(value),
            Member::From => self.from = Some(value),
            Member::To => self.to = Some(value),
            Member::Labels => self.labels = Some(value),
            Member::Properties => self.properties = Some(value),
            Member::Walk => self.walk = Some(value),
        }
    }
}

// The element of a kind that the next value is.
pub(crate) fn read_element(
    alloc: Global,
    reader: &mut Reader<'_>,
    depth: usize,
    kind: Kind,
) -> Result<Element, Unread>
    requires { 0 < depth }
    ensures value { Takes element_seen (parse_map (element_of kind) (value_data depth reader.old)) result reader.new }
    ensures shorter { OnOk result (length reader.new < length reader.old) }
{
    let Some(token) = reader.next() else {
        return Err(Unread::NotJson);
    };
    if opens_object(&token) {
        return element_of_members(alloc, reader, depth - 1, kind);
    }
    check_token(token, reader, depth)?;
    Ok(Element::empty(false))
}

// The element of an object after its brace.
fn element_of_members(
    alloc: Global,
    reader: &mut Reader<'_>,
    depth: usize,
    kind: Kind,
) -> Result<Element, Unread>
    ensures value { Takes element_seen (parse_map (values_at kind) (members_data depth no_members reader.old)) result reader.new }
    ensures shorter { OnOk result (length reader.new < length reader.old) }
{
    let mut element = Element::empty(true);
    'members: while let Some(key) = reader.next_key()? {
        element.take(alloc, reader, depth, kind, key)?;
    }
    Ok(element)
}
