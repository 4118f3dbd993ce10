//! Labels carried from one service to another: a bundle of the labels that one principal holds here, which a peer says there in its
//! own name.
#![tactic(auto)]

mod bundles;
mod carrying;
mod printing;
mod progress;
mod reading;

pub use bundles::Bundle;
pub use carrying::{Carried, carry};
pub use printing::print_bundle;
pub use reading::{BundleError, read_bundle};
