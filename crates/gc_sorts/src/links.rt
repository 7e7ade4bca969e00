ghost use Rattle.std.specs.Prelude.{◌≡◌, ◌||◌, length, map, IfOk, OnOk};
ghost use Rattle.std.specs.List.{list_any};
ghost use Rattle.indexmap.specs.IndexSet.{contains};
ghost use Rattle.gc_expr.specs.Views.{name_of};
ghost use Rattle.gc_sorts.specs.declared.link.LinkAt.{LinkAt as ALink};
ghost use Rattle.gc_sorts.specs.declared.link.LinkKey.{LinkKey as Key};
ghost use Rattle.gc_sorts.specs.LinkKeys.{key_of, same_key, is_key, has_key, is_found};
ghost use Rattle.gc_sorts.specs.Links.{link_by, fits};
ghost use Rattle.gc_sorts.specs.Variables.{has_use};

use crate::link::{LinkAt, LinkKey};
use crate::variables::Variables;
use gc_base::{Memory, Sym};
use indexmap::IndexSet;
use std::alloc::Global;
use std::marker::Model;

/// The variables of a MATCH and its links, among which those of a CONSTRUCT are looked up: each link is there
/// under its keys, as it is read and from the other side.
#[derive(Drop)]
pub(crate) struct Links<'a, 'n> {
    matched: &'a Variables<'n>,
    links: &'a [LinkAt],
    keys: IndexSet<LinkKey>,
}

impl<'a, 'n> Model for Links<'a, 'n> {
    ghost use Rattle.std.specs.Prelude.{◌≡◌, map, length};
    ghost use Rattle.std.specs.List.{list_any};
    ghost use Rattle.indexmap.specs.IndexSet.{contains};
    ghost use Rattle.gc_sorts.specs.declared.link.LinkKey.{LinkKey as Key};
    ghost use Rattle.gc_sorts.specs.Holders as holders;
    ghost use Rattle.gc_sorts.specs.LinkKeys.{same_key, has_key};
    ghost use Rattle.gc_sorts.specs.Links.{link_by};

    ghost Value = { holders.HeldLinks };

    ghost view = { λ x. record { names = x.matched.now.names; uses = x.matched.now.uses; links = map (link_by x.matched.now.names) x.links.now } };

    ghost invariant = { λ x. (k : Key) → contains same_key x.keys k ≡ list_any (λ l. has_key (length x.matched.now.names) l k) x.links.now };
}

impl<'a, 'n> Links<'a, 'n> {
    /// The links of a MATCH that has these variables.
    pub fn of(
        alloc: Global,
        matched: &'a Variables<'n>,
        links: &'a [LinkAt],
    ) -> Result<Links<'a, 'n>, Memory>
        ensures { IfOk result (λ all. all ≡ record {
          names = matched.now.names;
          uses = matched.now.uses;
          links = map (link_by matched.now.names) links.now;
        }) }
    {
        let mut keys = IndexSet::new(alloc);
        for link in links {
            add_keys(&mut keys, matched, *link)?;
        }
        Ok(Links {
            matched,
            links,
            keys,
        })
    }

    /// Whether a variable is one of the MATCH.
    pub fn is_matched(&self, name: Sym) -> bool
        ensures { result ≡ has_use self.now.uses (name_of self.now.names name) }
    {
        self.matched.has(name)
    }

    /// Whether a link fits one of these.
    pub fn has(&self, link: LinkAt) -> bool
        ensures { result ≡ list_any (fits (link_by self.now.names link)) self.now.links }
    {
        match key(self.matched, link) {
            None => false,
            Some(key) => is_among(&self.keys, key),
        }
    }
}

// The key of a link, if both neighbours have names. Another link fits this one exactly where it is looked up under it.
fn key(matched: &Variables, link: LinkAt) -> Option<LinkKey>
    ensures key { result ≡ key_of (length matched.now.names) link }
    ensures fits { (other : ALink) → is_found (length matched.now.names) result other ≡ fits (link_by matched.now.names link)
        (link_by matched.now.names other) }
{
    let Some(left) = link.left else {
        return None;
    };
    let Some(right) = link.right else {
        return None;
    };
    Some(LinkKey::between(
        matched.slot(link.name),
        matched.slot(left),
        matched.slot(right),
        link.way,
    ))
}

// Adds the keys of a link, if it has any.
fn add_keys(keys: &mut IndexSet<LinkKey>, matched: &Variables, link: LinkAt) -> Result<(), Memory>
    ensures { OnOk result ((k : Key) → contains same_key keys.new k ≡ (has_key (length matched.now.names) link k ||
        contains same_key keys.old k)) }
{
    add_key(keys, matched, link)?;
    add_key(keys, matched, link.turned())
}

// Adds the key of a link, if it has one.
fn add_key(keys: &mut IndexSet<LinkKey>, matched: &Variables, link: LinkAt) -> Result<(), Memory>
    ensures { OnOk result ((k : Key) → contains same_key keys.new k ≡ (is_key k (key_of (length matched.now.names) link) ||
        contains same_key keys.old k)) }
{
    if let Some(key) = key(matched, link) {
        insert(keys, key)?;
    }
    Ok(())
}

fn insert(keys: &mut IndexSet<LinkKey>, key: LinkKey) -> Result<(), Memory>
    ensures { OnOk result ((k : Key) → contains same_key keys.new k ≡ (same_key key k || contains same_key keys.old k)) }
{
    keys.insert(key)?;
    Ok(())
}

fn is_among(keys: &IndexSet<LinkKey>, key: LinkKey) -> bool
    ensures { result ≡ contains same_key keys.now key }
{
    keys.contains(&key)
}
