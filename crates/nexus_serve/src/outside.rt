//! What a service at an address is handed of the outside.
use authority_ask::Panel;
use nx_io::{Door, Recorder};

/// What a service at an address is handed of the outside: its workers get shares of each, and it is handed back.
#[derive(Drop)]
pub struct Outside<D: Door, P: Panel, C: Recorder> {
    pub door: D,
    pub panel: P,
    /// To where the records of calls go, where they are wanted.
    pub recorder: Option<C>,
}
