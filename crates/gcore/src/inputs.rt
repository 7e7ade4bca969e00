ghost use Rattle.std.specs.Prelude.{◌≡◌, ◌≤◌, true, IfOk};
ghost use Rattle.gc_json.specs.GraphFiles.{file_graph};
ghost use Rattle.gc_lower.specs.Namings.{file_of};
ghost use Rattle.gc_ppg.specs.Shapes.{graph_agrees};
ghost use Rattle.gc_query.specs.Built.{AreBuilt};
ghost use Rattle.gcore.specs.Outcomes.{accepted, file_due, graph_due, query_file_due};
ghost use Rattle.gcore.specs.Steps.{Accepts, Reads, ReadsGraph, ReadsQuery, Reading};

use crate::laws::a_query_file_that_is_read_is_built;
use crate::query_file::query_file;
use crate::stop::Stop;
use gc_base::{Bytes, Duplicate, NameList, Str};
use gc_io::{Folder, ReadRefusal, read_whole};
use gc_json::{GraphRefusal, load};
use gc_ppg::{Coherence, Graph};
use gc_sorts::Checked;
use std::alloc::Global;

/// How many bytes a graph file may have.
const GRAPH_LIMIT: u64 = 33_554_432;

/// How many bytes a document may have.
pub const DOCUMENT_LIMIT: u64 = GRAPH_LIMIT;

/// How many bytes a query file may have.
const QUERY_LIMIT: u64 = 1_048_576;

/// The graph of a graph file, beside what identities stand for in the graphs of the files before it.
pub fn read_graph<F: Folder>(
    alloc: Global,
    folder: &mut F,
    name: &Str,
    seen: &Coherence,
) -> Result<Graph, Stop>
    ensures outcome { ReadsGraph (record { files = F.files folder.old; faults_before = F.faults folder.old; faults_after = F.faults folder.new })
        name.now (λ files. graph_due files seen.now name.now) result }
    ensures agrees { IfOk result (λ g. graph_agrees seen.now g ≡ true) }
    ensures later { F.faults folder.old ≤ F.faults folder.new }
    ensures kept { F.files folder.new ≡ F.files folder.old }
{
    let bytes = read_file(alloc, folder, name, GRAPH_LIMIT)?;
    load_named(alloc, bytes.as_slice(), name, seen)
}

// The graph of the bytes of a graph file.
fn load_named(alloc: Global, bytes: &[u8], name: &Str, seen: &Coherence) -> Result<Graph, Stop>
    ensures accepts { Accepts (accepted name.now (file_graph seen.now bytes.now)) result }
    ensures agrees { IfOk result (λ g. graph_agrees seen.now g ≡ true) }
{
    match load(alloc, bytes, seen) {
        Ok(graph) => Ok(graph),
        Err(GraphRefusal::Memory) => Err(Stop::OutOfMemory),
        Err(refusal) => Err(Stop::Refused(refusal, name.copy()?)),
    }
}

/// A query file over graphs of these names. Each expression by which it looks for walks has an automaton.
pub fn read_query<F: Folder>(
    alloc: Global,
    folder: &mut F,
    name: &Str,
    graphs: &NameList,
) -> Result<Checked, Stop>
    ensures outcome { ReadsQuery (record { files = F.files folder.old; faults_before = F.faults folder.old; faults_after = F.faults folder.new })
        name.now (λ files. query_file_due graphs.now files name.now) result }
    ensures built { IfOk result (λ checked. AreBuilt (file_of checked)) }
    ensures later { F.faults folder.old ≤ F.faults folder.new }
    ensures kept { F.files folder.new ≡ F.files folder.old }
{
    let bytes = read_file(alloc, folder, name, QUERY_LIMIT)?;
    a_query_file_that_is_read_is_built();
    query_file(alloc, bytes.as_slice(), graphs)
}

/// A file of at most `limit` bytes.
pub fn read_file<F: Folder>(
    alloc: Global,
    folder: &mut F,
    name: &Str,
    limit: u64,
) -> Result<Bytes, Stop>
    ensures outcome { Reads (record { files = F.files folder.old; faults_before = F.faults folder.old; faults_after = F.faults folder.new }) name.now
        (λ files. file_due files name.now limit) result }
    ensures later { F.faults folder.old ≤ F.faults folder.new }
    ensures kept { F.files folder.new ≡ F.files folder.old }
{
    match read_whole(alloc, folder, name.text(), limit) {
        Ok(bytes) => Ok(bytes),
        Err(ReadRefusal::Missing) => Err(Stop::Unread(name.copy()?)),
        Err(ReadRefusal::Failed) => Err(Stop::Unread(name.copy()?)),
        Err(ReadRefusal::TooLarge) => Err(Stop::TooLarge(name.copy()?)),
        Err(ReadRefusal::Memory) => Err(Stop::OutOfMemory),
    }
}
