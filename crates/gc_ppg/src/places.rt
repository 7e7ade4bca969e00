ghost use Rattle.std.specs.Prelude.{◌≡◌, ◌≤◌, ℕ, [], length, true, false, slice_get, IfOk, if◌then◌else◌, ◌==◌, Some, None};
ghost use Rattle.std.specs.Option.{option_map, option_and_then};
ghost use Rattle.std.specs.List.{AllWithin};
ghost use Rattle.std.specs.List.Sorted.{IsNonDecreasingBy, IsPartitionPoint};
ghost use Rattle.std.specs.Prelude.{nat_lt};

use crate::node_edges::FarEnd;
use gc_base::Memory;
use std::alloc::Global;
use std::marker::Model;

// A place in the list of edges, by the node at one end of the edge there, with the edge as it is seen from there.
#[derive(Clone, Copy, Debug)]
pub(crate) struct PlaceAt {
    pub(crate) key: u64,
    pub(crate) place: usize,
    pub(crate) far: FarEnd,
}

// Places by key. Contracts see the list of both, which ascends by key. Where keys lie close together,
// it is kept beside where each of them begins; that is tested when it is used, so no contract sees it.
#[derive(Debug, Drop)]
pub(crate) struct Places {
    entries: Vec<PlaceAt>,
    starts: Vec<usize>,
}

impl Model for Places {
    ghost use Rattle.std.specs.Prelude.{List};
    ghost use Rattle.std.specs.List.Sorted.{IsNonDecreasingBy};
    ghost use Rattle.gc_ppg.specs.declared.places.PlaceAt.{PlaceAt};

    ghost Value = { List PlaceAt };

    ghost view = { λ p. p.entries.items };

    ghost invariant = { λ p. IsNonDecreasingBy (λ e. e.key) p.entries.items };
}

impl Places {
    ghost use Rattle.gc_ppg.specs.KeyedPlaces.{at_key, run_at};

    // These places, by key; those of one key stay in their order.
    pub(crate) fn of(entries: Vec<PlaceAt>) -> Result<Places, Memory>
        ensures { IfOk result (λ places. (key : ℕ) → at_key key places ≡ at_key key entries.items) }
    {
        let mut entries = entries;
        entries.sort_by_key(|entry| entry.key)?;
        let starts = starts_of(*entries.allocator(), &entries)?;
        Ok(Places { entries, starts })
    }

    // Takes all places out.
    pub(crate) fn clear(&mut self)
        ensures { self.new ≡ [] }
    {
        self.entries.clear();
        self.starts.clear();
    }

    // The i-th place of a key.
    pub(crate) fn at(&self, key: u64, i: usize) -> Option<usize>
        ensures { result ≡ option_map (λ e. e.place) (slice_get (at_key key self.now) i) }
    {
        let start = self.start(key);
        place_at(&self.entries[start..], i, key)
    }

    // The places from where those of a key begin on.
    pub(crate) fn from(&self, key: u64) -> &[PlaceAt]
        ensures { (i : ℕ) → run_at key result.now i ≡ slice_get (at_key key self.now) i }
    {
        let start = self.start(key);
        &self.entries[start..]
    }

    // Where the places of a key begin.
    fn start(&self, key: u64) -> usize
        ensures within { result ≤ length self.now }
        ensures point { IsPartitionPoint (λ e. nat_lt e.key key ≡ true) (λ e. nat_lt e.key key ≡ false) self.now result }
    {
        let likely = self.likely_start(key);
        if begins_at(&self.entries, likely, key) {
            likely
        } else {
            self.halved_start(key)
        }
    }

    // The same, by halving.
    fn halved_start(&self, key: u64) -> usize
        ensures within { result ≤ length self.now }
        ensures point { IsPartitionPoint (λ e. nat_lt e.key key ≡ true) (λ e. nat_lt e.key key ≡ false) self.now result }
    {
        self.entries.partition_point(|entry| entry.key < key)
    }

    // Where the places of a key begin, if keys lie close together, and else anywhere.
    fn likely_start(&self, key: u64) -> usize {
        match self.starts.get(key_number(&self.entries, key)) {
            Some(start) => *start,
            None => self.entries.len(),
        }
    }
}

// Where each key begins, from the first one on, up to a number that is far above that of the entries.
fn starts_of(alloc: Global, entries: &[PlaceAt]) -> Result<Vec<usize>, Memory> {
    let most = entries.len().saturating_mul(4);
    let mut starts = Vec::new(alloc);
    for (place, entry) in entries.iter().enumerate() {
        let number = key_number(entries, entry.key);
        if starts.len() <= number && number < most {
            starts.resize(number + 1, place)?;
        }
    }
    Ok(starts)
}

// By how much a key is above the first one.
fn key_number(entries: &[PlaceAt], key: u64) -> usize {
    match entries.first() {
        None => 0,
        Some(first) => key.saturating_sub(first.key) as usize,
    }
}

// Whether the entries of a key, or what would come behind them, begin at a place.
fn begins_at(entries: &[PlaceAt], place: usize, key: u64) -> bool
    requires { IsNonDecreasingBy (λ e. e.key) entries.now }
    ensures within { result ≡ true → place ≤ length entries.now }
    ensures point { result ≡ true → IsPartitionPoint (λ e. nat_lt e.key key ≡ true) (λ e. nat_lt e.key key ≡ false) entries.now place }
{
    place <= entries.len() && are_below(entries, place, key) && are_from(entries, place, key)
}

// Whether the entries before a place have keys below one. Since they ascend, the last of them tells.
fn are_below(entries: &[PlaceAt], place: usize, key: u64) -> bool
    requires ascend { IsNonDecreasingBy (λ e. e.key) entries.now }
    requires within { place ≤ length entries.now }
    ensures { result ≡ true → AllWithin (λ e. nat_lt e.key key ≡ true) entries.now 0 place }
{
    place == 0 || entries[place - 1].key < key
}

// Whether the entries from a place on have keys from one on. Since they ascend, the first of them tells.
fn are_from(entries: &[PlaceAt], place: usize, key: u64) -> bool
    requires ascend { IsNonDecreasingBy (λ e. e.key) entries.now }
    requires within { place ≤ length entries.now }
    ensures { result ≡ true → AllWithin (λ e. nat_lt e.key key ≡ false) entries.now place (length entries.now) }
{
    place == entries.len() || key <= entries[place].key
}

// The place of the i-th entry, if it has a key.
fn place_at(entries: &[PlaceAt], i: usize, key: u64) -> Option<usize>
    ensures { result ≡ option_and_then (λ e. if e.key == key then Some e.place else None) (slice_get entries.now i) }
{
    match entries.get(i) {
        Some(entry) => place_of(*entry, key),
        None => None,
    }
}

// The place of an entry, if it has a key.
fn place_of(entry: PlaceAt, key: u64) -> Option<usize>
    ensures { result ≡ (if entry.key == key then Some entry.place else None) }
{
    if entry.key == key {
        Some(entry.place)
    } else {
        None
    }
}
