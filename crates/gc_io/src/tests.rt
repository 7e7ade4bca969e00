// What no call of the program shows: ends that cannot fail, and the real ones.
use crate::*;
use gc_base::{Bytes, Duplicate, Str};
use std::alloc::Global;
use std::io::Write;
use std::rt::Files;
use std::test::Fail;
use std::{fs, io};

fn text(alloc: Global, bytes: &[u8]) -> Result<Bytes, Fail> {
    Ok(Bytes::from_vec(bytes.to_vec(alloc)?))
}

// Of two entries with one name the first counts.
fn listed(alloc: Global) -> Result<FileList, Fail> {
    let mut files = FileList::new(alloc);
    files.push(FileEntry {
        name: Str::of(alloc, "a")?,
        bytes: text(alloc, b"first")?,
    })?;
    files.push(FileEntry {
        name: Str::of(alloc, "a")?,
        bytes: text(alloc, b"second")?,
    })?;
    Ok(files)
}

#[test]
fn sure_ends_give_and_take_all(rt: HostRuntime) -> Result<(), Fail> {
    let alloc = rt.alloc();
    let mut folder = SureFolder::new(listed(alloc)?.copy()?);
    let bytes = read_whole(alloc, &mut folder, "a", 5)?;
    assert_eq!(rt; bytes.as_slice(), b"first".as_slice());
    let larger = read_whole(alloc, &mut folder, "a", 4);
    assert_eq!(rt; larger.err(), Some(ReadRefusal::TooLarge));
    let missing = read_whole(alloc, &mut folder, "b", 5);
    assert_eq!(rt; missing.err(), Some(ReadRefusal::Missing));
    let mut sink = SureSink::new(alloc, 5)?;
    assert_eq!(rt; write_whole(&mut sink, b"abc"), Ok(()));
    assert_eq!(rt; write_pieces(&mut sink, &[b"d", b"e"]), Ok(()));
    assert_eq!(rt; sink.bytes(), b"abcde".as_slice());
    Ok(())
}

// More than the two smallest pieces and less than the largest.
const BIG: usize = 300000;

fn pattern(alloc: Global) -> Result<Vec<u8>, Fail> {
    let mut bytes = Vec::new(alloc);
    for i in 0..BIG {
        bytes.push((i % 251) as u8)?;
    }
    Ok(bytes)
}

// A writer that takes nothing.
#[derive(Drop)]
struct Full;

impl Write for Full {
    fn write(&mut self, _piece: &[u8]) -> io::Result<usize> {
        Ok(0)
    }

    fn flush(&mut self) -> io::Result<()> {
        Ok(())
    }
}

#[test]
fn what_a_real_sink_takes_a_real_folder_gives(rt: HostRuntime) -> Result<(), Fail> {
    let alloc = rt.alloc();
    let name = "/tmp/gc_io-what_a_real_sink_takes";
    let written = pattern(alloc)?;
    let mut file = RealSink::new(fs::create(&rt, name)?);
    assert_eq!(rt; write_whole(&mut file, written.as_slice()), Ok(()));
    let mut folder = RealFolder::new(rt.clone()?);
    let bytes = read_whole(alloc, &mut folder, name, BIG as u64)?;
    assert!(rt; bytes.as_slice() == written.as_slice());
    fs::remove_file(&rt, name)?;
    let missing = read_whole(alloc, &mut folder, name, BIG as u64);
    assert_eq!(rt; missing.err(), Some(ReadRefusal::Missing));
    assert_eq!(rt; folder.faults(), 1);
    let mut full = RealSink::new(Full);
    assert_eq!(rt; write_whole(&mut full, b"a line\n"), Err(SinkFault));
    assert_eq!(rt; full.faults(), 1);
    Ok(())
}
