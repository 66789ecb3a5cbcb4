//! The outside of the engine: sources, sinks, disks and files by name, in memory and on the real
//! system.
//!
//! Each object has a count of its faults, which never falls and has risen where a call answers
//! `Failed`. What an object has left or holds is told over memory, and is not told over a real
//! file, stream or terminal.
#![tactic(auto)]

mod calls;
mod disk;
mod disk_bytes;
mod disk_of;
mod fault_count;
mod files;
mod gate;
mod host_disk;
mod host_files;
mod mem_disk;
mod mem_disks;
mod mem_files;
mod mem_sink;
mod mem_source;
mod pieces;
mod sink;
mod sink_of;
mod source;
mod source_of;
mod writer_sink;

pub use disk::Disk;
pub use disk_of::DiskOf;
pub use files::{FileNo, Files, OpenFault};
pub use gate::{Gate, OpenGate};
pub use host_disk::LockFile;
pub use host_files::HostFiles;
pub use mem_disk::MemDisk;
pub use mem_files::MemFiles;
pub use mem_sink::MemSink;
pub use mem_source::{MemSource, PlainSource};
pub use pieces::{PIECE, write_all, write_when_full};
pub use sink::Sink;
pub use sink_of::SinkOf;
pub use source::{Failed, Source};
pub use source_of::SourceOf;
pub use writer_sink::{NoteSink, OutSink, WriterSink};
