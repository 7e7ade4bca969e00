//! Files and sinks: where an engine's bytes come from, and where they go. Others rely on one thing
//! above all: a file is read whole or refused with its cause, and what is written arrives whole or,
//! at a fault that the sink counted, as a prefix. This crate knows nothing of what the bytes mean.
#![tactic(auto)]

mod entry;
mod folder;
mod memory_folder;
mod memory_sink;
mod read;
mod real_folder;
mod real_sink;
mod refusal;
mod sink;
mod sure_sink;
mod write;

pub use entry::{CallList, FileEntry, FileList};
pub use folder::{Folder, FolderFault};
pub use memory_folder::{MemoryFolder, SureFolder};
pub use memory_sink::MemorySink;
pub use read::read_whole;
pub use real_folder::RealFolder;
pub use real_sink::RealSink;
pub use refusal::ReadRefusal;
pub use sink::{Sink, SinkFault};
pub use sure_sink::SureSink;
pub use write::{write_pieces, write_whole};

#[cfg(test)]
mod tests;
