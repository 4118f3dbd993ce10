//! A log of lines that is kept elsewhere: a sink of whole lines, each of which counts as sent once a keeper has answered
//! for it.
#![tactic(auto)]

mod calls;
mod keepers;
mod line_logs;
mod lines;
mod logs;
mod memory;
mod sockets;
mod standings;
mod wires;

pub use calls::{CallLog, LoggedCall};
pub use line_logs::LineLog;
pub use logs::Log;
pub use memory::MemWire;
pub use sockets::SocketWire;
pub use standings::Standing;
pub use wires::LogWire;
