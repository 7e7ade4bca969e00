ghost use Rattle.std.specs.Prelude.{◌≡◌, map, false, true, nat_eq, Some, refl, IfOk, slice_range, drop, length, ◌<◌};
ghost use Rattle.std.specs.Ordering.{nat_cmp};
ghost use Rattle.std.specs.List.{list_all, list_any};
ghost use Rattle.std.specs.Cmp.Lexicographic.{pointwise, slice_cmp, nat_list_eq_equiv, nat_list_cmp_total, texts_ties, texts_po};
ghost use Rattle.std.specs.Cmp.{partial_equiv_from_equiv};
ghost use Rattle.std.specs.Cmp.Rules.{hashing};
ghost use Rattle.std.specs.Hash as fed;
ghost use Rattle.std.proofs.Common.{rules};
ghost use Rattle.std.specs.Option.{SomeIff};
ghost use Rattle.gc_base.specs.Words.{is_word, is_word_part, is_reserved as is_reserved_word};

use crate::duplicate::Duplicate;
use crate::memory::Memory;
use crate::sequence::Sequence;
use std::alloc::Global;
use std::cmp::Ordering;
use std::hash::{Hash, Hasher};
use std::marker::Model;
use std::rc::Rc;

/// Bytes of the form of a word: an ASCII letter, then letters, digits and `_`. Contracts see a name
/// as its bytes, by which it is compared. A copy shares them, and takes no memory.
#[derive(Debug, Drop)]
pub struct Name {
    bytes: Rc<Vec<u8>>,
}

impl Model for Name {
    ghost use Rattle.std.specs.Prelude.{◌≡◌, List, ℕ, true};
    ghost use Rattle.gc_base.specs.Words.{is_word};

    ghost Value = { List ℕ };

    ghost view = { λ n. n.bytes.value.items };

    ghost invariant = { λ n. is_word n.bytes.value.items ≡ true };
}

/// A list of names.
pub type NameList = Sequence<Name>;

impl Name {
    /// The name of these bytes, or `None` exactly where they have not the form of a word.
    pub fn of(alloc: Global, bytes: &[u8]) -> Result<Option<Name>, Memory>
        ensures { IfOk result (λ name. SomeIff name (is_word bytes.now ≡ true) bytes.now) }
    {
        if !is_word_form(bytes) {
            return Ok(None);
        }
        let bytes = Rc::new(alloc, bytes.to_vec(alloc)?)?;
        Ok(Some(Name { bytes }))
    }

    /// Its bytes, which have the form of a word.
    pub fn bytes(&self) -> &[u8]
        ensures bytes { result.now ≡ self.now }
        ensures word { is_word self.now ≡ true }
    {
        &self.bytes
    }
}

/// Whether bytes have the form of a word.
pub fn is_word_form(bytes: &[u8]) -> bool
    ensures { result ≡ is_word bytes.now }
{
    match bytes.split_first() {
        None => false,
        Some((first, rest)) => first.is_ascii_alphabetic() && are_word_parts(rest),
    }
}

fn are_word_parts(bytes: &[u8]) -> bool
    ensures { result ≡ list_all is_word_part bytes.now }
{
    bytes
        .iter()
        .all(|byte| byte.is_ascii_alphanumeric() || *byte == b'_')
}

impl Duplicate for Name {
    fn copy(&self) -> Result<Name, Memory> {
        let bytes = self.bytes.clone()?;
        Ok(Name { bytes })
    }
}

impl PartialEq for Name {
    ghost eq = { pointwise nat_eq };

    ghost laws = { partial_equiv_from_equiv nat_list_eq_equiv };

    fn eq(&self, other: &Name) -> bool {
        self.bytes() == other.bytes()
    }
}

impl Eq for Name {
    ghost laws = { nat_list_eq_equiv };
}

impl Hash for Name {
    ghost hash_input = { fed.slice fed.u8 };

    ghost respects_eq = { Prim.search (hashing, rules) };

    fn hash<H: Hasher>(&self, state: &mut H) {
        self.bytes().hash(state);
    }
}

impl PartialOrd for Name {
    ghost partial_cmp = { λ x y. Some (slice_cmp nat_cmp x y) };

    ghost laws = { texts_po };

    fn partial_cmp(&self, other: &Name) -> Option<Ordering> {
        Some(self.cmp(other))
    }
}

impl Ord for Name {
    ghost cmp = { slice_cmp nat_cmp };

    ghost total = { nat_list_cmp_total };

    ghost matches_partial_cmp = { λ x y. refl };

    ghost matches_eq = { texts_ties };

    fn cmp(&self, other: &Name) -> Ordering {
        self.bytes().cmp(other.bytes())
    }
}

/// The words that are no names, though they may be labels and property names.
const RESERVED: [&str; 35] = [
    "ALL",
    "AND",
    "AS",
    "COLLECT",
    "CONSTRUCT",
    "COST",
    "COUNT",
    "EXISTS",
    "FALSE",
    "GRAPH",
    "GROUP",
    "IN",
    "INTERSECT",
    "MATCH",
    "MAX",
    "MIN",
    "MINUS",
    "NOT",
    "ON",
    "OPTIONAL",
    "OR",
    "PATH",
    "REMOVE",
    "SET",
    "SHORTEST",
    "SUBSET",
    "SUM",
    "TRUE",
    "UNION",
    "VIEW",
    "WHEN",
    "WHERE",
    "edges",
    "length",
    "nodes",
];

/// Whether a word is reserved.
pub fn is_reserved(word: &Name) -> bool
    ensures { result ≡ is_reserved_word word.now }
{
    is_among(word.bytes(), &RESERVED)
}

fn is_among(word: &[u8], words: &[&str]) -> bool
    ensures { result ≡ list_any (pointwise nat_eq word.now) (map (λ w. w.now) words.now) }
{
    for other in words {
        if word == other.as_bytes() {
            return true;
        }
    }
    false
}
