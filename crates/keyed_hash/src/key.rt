//! The key of a map's hashes.
ghost use Rattle.std.specs.Prelude.{◌≡◌, ◌%◌, ◌/◌, ◌^◌};
ghost use Rattle.std.specs.Int.{w128, from_le_bytes};
ghost use Rattle.keyed_hash.specs.SipHash.{initial};

use crate::sip::SipHasher;
use std::hash::BuildHasher;

/// A key of 128 bits. It protects only while it is not known to those who choose what is hashed.
#[derive(Clone, Copy)]
pub struct HashKey {
    k0: u64,
    k1: u64,
}

impl HashKey {
    /// The key whose first eight bytes are `k0` and whose last eight are `k1`, each with its first byte lowest.
    pub fn new(k0: u64, k1: u64) -> HashKey
        ensures first { result.k0 ≡ k0 }
        ensures last { result.k1 ≡ k1 }
    {
        HashKey { k0, k1 }
    }

    /// The key of these 16 bytes.
    pub fn of(bytes: [u8; 16]) -> HashKey
        ensures first { result.k0 ≡ from_le_bytes w128 bytes % 2 ^ 64 }
        ensures last { result.k1 ≡ from_le_bytes w128 bytes / 2 ^ 64 }
    {
        let whole = u128::from_le_bytes(bytes);
        HashKey {
            k0: (whole % (1 << 64)) as u64,
            k1: (whole >> 64) as u64,
        }
    }
}

/// Hashes by SipHash-2-4 under a key.
#[derive(Clone, Copy)]
pub struct KeyedHash {
    key: HashKey,
}

impl KeyedHash {
    /// Hashing under this key.
    pub fn new(key: HashKey) -> KeyedHash
        ensures { result.key ≡ key }
    {
        KeyedHash { key }
    }
}

impl BuildHasher for KeyedHash {
    type Hasher = SipHasher;

    ghost build_hasher = { λ h. initial h.key.k0 h.key.k1 };

    fn build_hasher(&self) -> SipHasher {
        SipHasher::new(self.key.k0, self.key.k1)
    }
}
