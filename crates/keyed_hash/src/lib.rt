//! Hashing under a key, for maps whose keys are chosen by peers: whoever does not know the key can't choose keys that
//! collide.
#![tactic(auto)]

mod key;
mod sip;

pub use key::{HashKey, KeyedHash};
pub use sip::SipHasher;
