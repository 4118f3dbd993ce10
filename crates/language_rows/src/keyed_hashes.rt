use keyed_hash::{HashKey, KeyedHash};
use std::hash::{BuildHasher, Hasher};

// The test vectors of the SipHash reference implementation: the key is the bytes 0 to 15, and the k-th hash is that
// of the bytes 0 to k - 1.
#[test]
fn hashes_are_those_of_the_reference(rt: HostRuntime) {
    let key = [0, 1, 2, 3, 4, 5, 6, 7, 8, 9, 10, 11, 12, 13, 14, 15];
    let hash = KeyedHash::new(HashKey::of(key));
    for (count, wanted) in [
        (0usize, 0x726f_db47_dd0e_0e31u64),
        (1, 0x74f8_39c5_93dc_67fd),
        (2, 0x0d6c_8009_d9a9_4f5a),
        (3, 0x8567_6696_d7fb_7e2d),
        (7, 0xab02_00f5_8b01_d137),
        (8, 0x93f5_f579_9a93_2462),
        (15, 0xa129_ca61_49be_45e5),
        (16, 0x3f2a_cc7f_57c2_9bdb),
        (63, 0x958a_324c_eb06_4572),
    ] {
        let mut bytes = [0; 63];
        for k in 0..63usize {
            bytes[k] = k as u8;
        }
        let mut whole = hash.build_hasher();
        whole.write(&bytes[..count]);
        assert_eq!(rt; whole.finish(), wanted, "{count}");

        // The same where the bytes are written in two pieces.
        let mut pieces = hash.build_hasher();
        pieces.write(&bytes[..count / 2]);
        pieces.write(&bytes[count / 2..count]);
        assert_eq!(rt; pieces.finish(), wanted, "{count}");
    }
}

#[test]
fn another_key_gives_another_hash(rt: HostRuntime) {
    let bytes = b"open".as_slice();
    for (k0, k1) in [(0, 0), (1, 0), (0, 1), (u64::MAX, 0)] {
        for (l0, l1) in [(2, 0), (0, 2), (0, u64::MAX)] {
            let mut one = KeyedHash::new(HashKey::new(k0, k1)).build_hasher();
            let mut other = KeyedHash::new(HashKey::new(l0, l1)).build_hasher();
            one.write(bytes);
            other.write(bytes);
            assert!(rt; one.finish() != other.finish(), "{k0} {k1} {l0} {l1}");
        }
    }
}
