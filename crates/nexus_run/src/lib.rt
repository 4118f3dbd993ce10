//! The program over its surroundings: the words of its call, and what each of them runs.
#![tactic(auto)]

mod arguments;
mod commands;
mod load;
mod plain;
mod program;
mod starting;

pub use arguments::{Arguments, SystemArguments, texts, words_of_call};
pub use commands::{Call, Command, call_of};
pub use plain::run_plain;
pub use program::{HandedBack, Sinks, run};
pub use script_command::PlainEnd;
pub use service_commands::Ended;
pub use starting::{Finished, start};
