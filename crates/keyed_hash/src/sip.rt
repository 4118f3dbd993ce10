//! SipHash-2-4 (Aumasson and Bernstein, 2012).
ghost use Rattle.std.specs.Prelude.{◌≡◌};
ghost use Rattle.keyed_hash.specs.SipHash as sip;

use std::hash::Hasher;

/// A hash that is being computed: SipHash-2-4 of the bytes that were written so far, under the key with which it began.
#[derive(Clone, Copy)]
pub struct SipHasher {
    v0: u64,
    v1: u64,
    v2: u64,
    v3: u64,
    // The bytes since the last whole word, the first of them lowest.
    tail: u64,
    // How many bytes were written, modulo 2^64.
    count: u64,
}

impl SipHasher {
    /// The hash of no bytes yet, under the key whose first eight bytes are `k0` and whose last eight are `k1`, each
    /// with its first byte lowest.
    pub fn new(k0: u64, k1: u64) -> SipHasher
        ensures { result ≡ sip.initial k0 k1 }
    {
        SipHasher {
            v0: k0 ^ 0x736f_6d65_7073_6575,
            v1: k1 ^ 0x646f_7261_6e64_6f6d,
            v2: k0 ^ 0x6c79_6765_6e65_7261,
            v3: k1 ^ 0x7465_6462_7974_6573,
            tail: 0,
            count: 0,
        }
    }

    fn round(&mut self)
        ensures { self.new ≡ sip.sip_round self.old }
    {
        self.v0 = self.v0.wrapping_add(self.v1);
        self.v2 = self.v2.wrapping_add(self.v3);
        self.v1 = self.v1.rotate_left(13) ^ self.v0;
        self.v3 = self.v3.rotate_left(16) ^ self.v2;
        self.v0 = self.v0.rotate_left(32);
        self.v2 = self.v2.wrapping_add(self.v1);
        self.v0 = self.v0.wrapping_add(self.v3);
        self.v1 = self.v1.rotate_left(17) ^ self.v2;
        self.v3 = self.v3.rotate_left(21) ^ self.v0;
        self.v2 = self.v2.rotate_left(32);
    }

    fn compress(&mut self, word: u64)
        ensures { self.new ≡ sip.compress self.old word }
    {
        self.v3 ^= word;
        self.round();
        self.round();
        self.v0 ^= word;
    }

    fn write_byte(&mut self, byte: u8)
        ensures { self.new ≡ sip.write_byte self.old byte }
    {
        self.tail |= (byte as u64) << (8 * (self.count % 8));
        self.count = self.count.wrapping_add(1);
        if self.count % 8 == 0 {
            self.compress(self.tail);
            self.tail = 0;
        }
    }
}

impl Hasher for SipHasher {
    ghost write = { sip.write };

    ghost finish = { sip.finish };

    fn finish(&self) -> u64 {
        let mut s = *self;
        s.compress((self.count & 0xFF) << 56 | self.tail);
        s.v2 ^= 0xFF;
        s.round();
        s.round();
        s.round();
        s.round();
        s.v0 ^ s.v1 ^ s.v2 ^ s.v3
    }

    fn write(&mut self, bytes: &[u8]) {
        for byte in bytes {
            self.write_byte(*byte);
        }
    }
}
