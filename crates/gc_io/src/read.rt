ghost use Rattle.std.specs.Prelude.{◌≡◌, ◌≤◌, ◌<◌, ◌++◌, ◌+◌, ◌^◌, take, drop, length, IfOk, IfErr, OnOk};
ghost use Rattle.gc_base.specs.Faults.{Rose};
ghost use Rattle.gc_base.specs.Files.{IsReadOf, IsReadSoFar};
ghost use Rattle.gc_io.specs.Causes.{HasCause};
ghost use Rattle.gc_io.specs.Wholes.{IsRefused, ReadsWhole, ReadsPiece, refusal_of};

use crate::folder::{Folder, FolderFault};
use crate::refusal::ReadRefusal;
use gc_base::Bytes;
use std::alloc::Global;

/// How many bytes a read asks for at least.
const LEAST_PIECE: usize = 65536;

/// How many bytes a read asks for at most.
const LARGEST_PIECE: usize = 1048576;

/// Reads a file whole, at most `limit` bytes of it.
pub fn read_whole<F: Folder>(
    alloc: Global,
    folder: &mut F,
    name: &str,
    limit: u64,
) -> Result<Bytes, ReadRefusal>
    ensures outcome { ReadsWhole (F.files folder.old) name.now limit (F.faults folder.old) (F.faults folder.new) result }
    ensures later { F.faults folder.old ≤ F.faults folder.new }
    ensures kept { F.files folder.new ≡ F.files folder.old }
{
    let mut bytes = Vec::new(alloc);
    while bytes.len() as u64 <= limit {
        if !read_piece(folder, name, &mut bytes)? {
            return Ok(Bytes::from_vec(bytes));
        }
    }
    Err(ReadRefusal::TooLarge)
}

/// Adds the next piece of a file, and answers whether there was one. It asks for as many bytes as
/// were read so far, within bounds, and reads them straight into the vector.
fn read_piece<F: Folder>(
    folder: &mut F,
    name: &str,
    bytes: &mut Vec<u8>,
) -> Result<bool, ReadRefusal>
    requires { IsReadSoFar (F.files folder.old) name.now bytes.old.items }
    ensures outcome { ReadsPiece (F.files folder.old) name.now (F.faults folder.old) (F.faults folder.new) bytes.old.items bytes.new.items result }
    ensures later { F.faults folder.old ≤ F.faults folder.new }
    ensures kept { F.files folder.new ≡ F.files folder.old }
{
    let start = bytes.len();
    let piece = start.max(LEAST_PIECE).min(LARGEST_PIECE);
    bytes.resize(start + piece, 0)?;
    let count = read_behind(folder, name, start, bytes)?;
    bytes.truncate(start + count);
    Ok(count > 0)
}

/// Reads a file from a place on into a buffer, from the same place on.
fn read_behind<F: Folder>(
    folder: &mut F,
    name: &str,
    start: usize,
    bytes: &mut [u8],
) -> Result<usize, FolderFault>
    requires { start ≤ length bytes.old }
    ensures front { take start bytes.new ≡ take start bytes.old }
    ensures count { IfOk result (λ n. start + n ≤ length bytes.new) }
    ensures bytes { IfOk result (λ n. IsReadOf (F.files folder.old) name.now start n (drop start bytes.new)) }
    ensures cause { IfErr result (HasCause (F.files folder.old) name.now (F.faults folder.old) (F.faults folder.new)) }
    ensures calm { OnOk result (F.faults folder.new ≡ F.faults folder.old) }
    ensures later { F.faults folder.old ≤ F.faults folder.new }
    ensures kept { F.files folder.new ≡ F.files folder.old }
{
    folder.read_at(name, start as u64, &mut bytes[start..])
}
