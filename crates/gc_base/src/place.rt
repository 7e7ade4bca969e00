use crate::duplicate::Duplicate;
use crate::memory::Memory;
use crate::name::NameList;
use crate::sequence::Sequence;

/// A place in a text: one more than the number of line feeds before it, and one more than the
/// number of bytes since the last of them.
#[derive(Clone, Copy, Debug, PartialEq, Eq)]
pub struct Place {
    pub line: u64,
    pub column: u64,
}

/// A number in the name table of a query file; hidden variables are numbered after the names.
#[derive(Clone, Copy, Debug, PartialEq, Eq, PartialOrd, Ord, Hash)]
pub struct Sym(pub u32);

/// The number of a block, from 0 in text order. A MATCH with its OPTIONAL blocks has one.
#[derive(Clone, Copy, Debug, PartialEq, Eq, PartialOrd, Ord, Hash)]
pub struct BlockNo(pub u32);

/// The number of a basic query, from 0 in text order.
#[derive(Clone, Copy, Debug, PartialEq, Eq, PartialOrd, Ord, Hash)]
pub struct BasicNo(pub u32);

/// The number of a PATH view, from 0 in text order.
#[derive(Clone, Copy, Debug, PartialEq, Eq, PartialOrd, Ord, Hash)]
pub struct ViewNo(pub u32);

/// A name of a query file, and the number of its token.
#[derive(Clone, Copy, Debug, PartialEq, Eq)]
pub struct NameAt {
    pub sym: Sym,
    pub token: u32,
}

/// The way of an edge pattern: `->`, `<-`, or without an arrow.
#[derive(Clone, Copy, Debug, PartialEq, Eq)]
pub enum Direction {
    Forward,
    Backward,
    Either,
}

/// For each `:A|B` of a pattern the list of its words.
pub type LabelGroupList = Sequence<NameList>;

/// The kinds of graphs that are made from numbers.
#[derive(Clone, Copy, Debug, PartialEq, Eq)]
pub enum MakeKind {
    Ring,
    Random,
}

impl Duplicate for Place {
    fn copy(&self) -> Result<Place, Memory> {
        Ok(*self)
    }
}

impl Duplicate for Sym {
    fn copy(&self) -> Result<Sym, Memory> {
        Ok(*self)
    }
}

impl Duplicate for BlockNo {
    fn copy(&self) -> Result<BlockNo, Memory> {
        Ok(*self)
    }
}

impl Duplicate for BasicNo {
    fn copy(&self) -> Result<BasicNo, Memory> {
        Ok(*self)
    }
}

impl Duplicate for ViewNo {
    fn copy(&self) -> Result<ViewNo, Memory> {
        Ok(*self)
    }
}

impl Duplicate for NameAt {
    fn copy(&self) -> Result<NameAt, Memory> {
        Ok(*self)
    }
}

impl Duplicate for Direction {
    fn copy(&self) -> Result<Direction, Memory> {
        Ok(*self)
    }
}

impl Duplicate for MakeKind {
    fn copy(&self) -> Result<MakeKind, Memory> {
        Ok(*self)
    }
}
