//! What stands behind the writer's lock.
use std::marker::Model;
use std::sync::ledger::{Ledger, Share};

/// The right to write: all shares of the ledger that says where the pen is. Contracts see what it counts, which is nothing.
#[derive(Drop)]
pub(crate) struct Turn<W: Ledger> {
    pub(crate) share: Share<W>,
}

impl<W: Ledger> Model for Turn<W> {
    ghost use Rattle.std.specs.Prelude.{◌≡◌, ◌<◌, ℕ};

    ghost Value = { ℕ };

    ghost view = { λ t. t.share.amount };

    ghost invariant = { λ t. (t.share.parts ≡ W.parts) × (0 < t.share.parts) × (t.share.amount ≡ 0) };
}
