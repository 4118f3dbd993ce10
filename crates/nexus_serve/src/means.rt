//! What a worker has of its own beside its door.
use authority_ask::Panel;
use nx_io::Sink;
use session_core::RecordKeeper;

/// What a worker has of its own beside its door: the panel that it asks, and who keeps the records of its calls.
#[derive(Drop)]
pub struct Means<P: Panel, C: Sink> {
    pub panel: P,
    pub records: RecordKeeper<C>,
}
