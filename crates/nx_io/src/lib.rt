//! Where bytes come from and go to: sources and sinks that count their faults, in memory and over std.
//!
//! Code that is generic over [`Source`] and [`Sink`] is proved once for each of them. It can't raise a count of
//! faults by itself, so it answers a fault only where the object that it was lent has failed. Nor can it add to their
//! histories, which each source and each sink tells: so a contract over any of them speaks of the bytes that were
//! given and sent.
#![tactic(auto)]

mod buffered;
mod byte_list;
mod discard;
mod door_history;
mod doors;
mod duplex;
mod file_sinks;
mod history;
mod links;
mod local_sockets;
mod memory;
mod memory_doors;
mod memory_links;
mod queues;
mod recorders;
mod scripts;
mod sockets;
mod standard;
mod stream_links;
mod streams;
mod system_streams;
mod timed_streams;

pub use byte_list::Bytes;
pub use discard::Discard;
pub use doors::{Dial, Door, Gate, Next, OpenGate, Place};
pub use duplex::{Duplex, StdDuplex};
pub use file_sinks::FileSink;
pub use history::History;
pub use links::{Link, send_whole};
pub use memory::{MemSink, MemSource};
pub use memory_doors::{DoorPlan, MemDoor};
pub use memory_links::MemLink;
pub use recorders::{Recorder, StdRecorder};
pub use sockets::{SocketDoor, SocketLink};
pub use standard::{StdSink, StdSource};
pub use stream_links::StreamLink;
pub use streams::{Got, Put, Reach, Shared, Sink, Source, send_all};
pub use system_streams::SystemStream;
