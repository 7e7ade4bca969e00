//! The first pass over a file: checks the whole text, and tells how often each key comes and how
//! long its lists are.
ghost use Rattle.std.specs.Prelude.{◌≡◌, ◌<◌, length, OnOk, Some, []};
ghost use Rattle.json.specs.Json.{parse_map};
ghost use Rattle.json.specs.Reads.{token_of};
ghost use Rattle.serde_json.specs.Events.{items_len};
ghost use Rattle.gc_json.specs.Entries.{Entries, entries_data};
ghost use Rattle.gc_json.specs.Frames.{len_of, is_version_1, next_place, frame_of, frame_after, frame_count, place_of, is_zero};
ghost use Rattle.gc_json.specs.ListWalks.{list_key};
ghost use Rattle.gc_json.specs.Takes.{Takes};
ghost use Rattle.gc_json.specs.Tokens.{value_data, items_data, opens_array};

use crate::checking::{check_token, check_value};
use crate::token_values::read_value;
use crate::unread::Unread;
use gc_ppg::Kind;
use json::{Reader, Token};
use std::alloc::Global;

// A list of a file.
#[derive(Clone, Copy, Drop)]
pub(crate) struct ListPlace {
    // How often its key comes. The last time counts.
    pub(crate) times: usize,
    // How many items its value has, if that is an array; without the key there are none.
    pub(crate) len: Option<usize>,
}

impl ListPlace {
    // Where the key of the list does not come.
    fn empty() -> ListPlace
        ensures { result ≡ record { times = 0; len = Some 0 } }
    {
        ListPlace {
            times: 0,
            len: Some(0),
        }
    }

    // Whether the list has no items.
    pub(crate) fn is_empty(&self) -> bool
        ensures { result ≡ is_zero self.now.len }
    {
        self.len == Some(0)
    }

    // The place after the next value, which stands at the key of the list.
    fn after(self, reader: &mut Reader<'_>, depth: usize) -> Result<ListPlace, Unread>
        requires { 0 < depth }
        ensures value { Takes (λ place. place) (parse_map (next_place self) (value_data depth reader.old)) result reader.new }
        ensures shorter { OnOk result (length reader.new < length reader.old) }
    {
        let times = self.times.checked_add(1).ok_or(Unread::Memory)?;
        let len = list_len(reader, depth)?;
        Ok(ListPlace { times, len })
    }
}

// What the object of a file has at each key.
#[derive(Clone, Copy, Drop)]
pub(crate) struct Frame {
    pub(crate) nodes: ListPlace,
    pub(crate) edges: ListPlace,
    pub(crate) paths: ListPlace,
    // Whether it says that it is of the version 1.
    pub(crate) is_version_1: bool,
    // Whether it has no other key.
    pub(crate) is_known: bool,
}

impl Frame {
    // The frame of an object without members.
    pub(crate) fn empty() -> Frame
        ensures { result ≡ frame_of [] }
    {
        Frame {
            nodes: ListPlace::empty(),
            edges: ListPlace::empty(),
            paths: ListPlace::empty(),
            is_version_1: false,
            is_known: true,
        }
    }

    // How many items its lists have together, if it is the frame of a file.
    pub(crate) fn count(&self) -> Option<usize>
        ensures { result ≡ frame_count self.now }
    {
        if !self.is_known || !self.is_version_1 {
            return None;
        }
        let nodes = self.nodes.len?;
        let edges = self.edges.len?;
        let paths = self.paths.len?;
        Some(nodes.saturating_add(edges).saturating_add(paths))
    }

    // The place of the list of a kind.
    pub(crate) fn place(&self, kind: Kind) -> ListPlace
        ensures { (es : Entries) → self.now ≡ frame_of es → result ≡ place_of (list_key kind) es }
    {
        match kind {
            Kind::Node => self.nodes,
            Kind::Edge => self.edges,
            Kind::Path => self.paths,
        }
    }

    // The frame after the next value, which stands at a key.
    fn after(
        self,
        alloc: Global,
        reader: &mut Reader<'_>,
        depth: usize,
        key: &str,
    ) -> Result<Frame, Unread>
        requires { 0 < depth }
        ensures value { Takes (λ frame. frame) (parse_map (frame_after self key.now) (value_data depth reader.old)) result reader.new }
        ensures shorter { OnOk result (length reader.new < length reader.old) }
    {
        let mut frame = self;
        match key {
            "nodes" => frame.nodes = frame.nodes.after(reader, depth)?,
            "edges" => frame.edges = frame.edges.after(reader, depth)?,
            "paths" => frame.paths = frame.paths.after(reader, depth)?,
            "gcore" => frame.is_version_1 = is_version_1(alloc, reader, depth)?,
            _ => {
                check_value(reader, depth)?;
                frame.is_known = false;
            }
        }
        Ok(frame)
    }
}

// Whether the next value is the number 1.
pub(crate) fn is_version_1(
    alloc: Global,
    reader: &mut Reader<'_>,
    depth: usize,
) -> Result<bool, Unread>
    ensures value { Takes (λ is. is) (parse_map is_version_1 (value_data depth reader.old)) result reader.new }
    ensures shorter { OnOk result (length reader.new < length reader.old) }
{
    let value = read_value(alloc, reader, depth)?;
    Ok(value.as_u64() == Some(1))
}

// The length of the next value, if it is an array.
fn list_len(reader: &mut Reader<'_>, depth: usize) -> Result<Option<usize>, Unread>
    requires { 0 < depth }
    ensures value { Takes (λ len. len) (parse_map len_of (value_data depth reader.old)) result reader.new }
    ensures shorter { OnOk result (length reader.new < length reader.old) }
{
    let Some(token) = reader.next() else {
        return Err(Unread::NotJson);
    };
    if opens_array(&token) {
        return Ok(Some(count_items(reader, depth - 1)?));
    }
    check_token(token, reader, depth)?;
    Ok(None)
}

// Whether a token opens an array.
pub(crate) fn opens_array(token: &Token<'_>) -> bool
    ensures { result ≡ opens_array (token_of token.now) }
{
    matches!(token, Token::BeginArray)
}

// How many items an array has, after its bracket.
fn count_items(reader: &mut Reader<'_>, depth: usize) -> Result<usize, Unread>
    ensures value { Takes (λ count. count) (parse_map items_len (items_data depth reader.old)) result reader.new }
    ensures shorter { OnOk result (length reader.new < length reader.old) }
{
    let mut count: usize = 0;
    'items: while !reader.take_end_array() {
        check_value(reader, depth)?;
        count = count.checked_add(1).ok_or(Unread::Memory)?;
    }
    Ok(count)
}

// The frame of an object after its brace.
pub(crate) fn frame_of_tokens(
    alloc: Global,
    reader: &mut Reader<'_>,
    depth: usize,
) -> Result<Frame, Unread>
    requires { 0 < depth }
    ensures { Takes (λ frame. frame) (parse_map frame_of (entries_data depth reader.old)) result reader.new }
{
    let mut frame = Frame::empty();
    'members: while let Some(key) = reader.next_key()? {
        frame = frame.after(alloc, reader, depth, key)?;
    }
    Ok(frame)
}
