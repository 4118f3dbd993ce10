//! Authorities: whoever answers, when asked, whether a statement holds now.
//!
//! Code that is generic over [`Panel`] is proved once for each of them. A panel's history grows by each call of it, with how the call went,
//! and by nothing else: so no answer is kept for a later check, Down is told only where an authority was down, and nobody is reached
//! unseen.
#![tactic(auto)]

mod call_history;
mod clocks;
mod connections;
mod conversations;
mod hosts;
mod memory;
mod panels;
mod tcp_wires;
mod time_tests;
mod wire_log;
mod wires;

pub use clocks::{Clock, HostClock, MemClock};
pub use hosts::{AuthorityPanel, HostPanel};
pub use memory::MemPanel;
pub use panels::{Ask, Panel};
pub use tcp_wires::TcpWires;
pub use time_tests::TimeTest;
pub use wire_log::{LoggedWireCall, WireLog};
pub use wires::Wires;
