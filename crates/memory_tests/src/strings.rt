//! Strings and digests against values that were computed elsewhere.
use aegis_num::{Block, Key};
use block_hash::{ProgramHasher, block_digest, block_string, entry_value, keys_of};

// The bytes from 0 to 63, in order.
fn ramp() -> [u8; 64] {
    let mut payload = [0; 64];
    for i in 0..64u8 {
        payload[i as usize] = i;
    }
    payload
}

#[test]
fn gives_the_digest_of_a_program(rt: HostRuntime) {
    // What `sha1sum` says of a file of 69 bytes: 02 00 00 00 01, and the bytes from 00 to 3f in order.
    let expected = [
        0x50, 0xc3, 0xe7, 0x69, 0xed, 0x11, 0xe3, 0x25, 0xcf, 0x83, 0xe5, 0x3c, 0x09, 0x6a, 0xd2,
        0x57, 0x6c, 0x5f, 0xa1, 0x6c,
    ];
    let mut hasher = ProgramHasher::new(1);
    hasher.add(&ramp());
    assert_eq!(rt; hasher.finish(), expected);
}

#[test]
fn gives_strings_digests_entries_and_keys(rt: HostRuntime) {
    // What Python's hashlib says of the same bytes.
    let block = Block {
        payload: ramp(),
        stamp: 0x0506_0708_090a_0b0c,
    };
    let string = block_string(1, 0x0102_0304, &block);
    assert_eq!(rt;
        &string[..14],
        &[1, 1, 2, 3, 4, 5, 6, 7, 8, 9, 10, 11, 12, 0][..]
    );
    assert_eq!(rt; string[76], 63);
    let digest = [
        0xf7, 0x1c, 0xb9, 0x42, 0x98, 0x9e, 0x8f, 0xbf, 0x7a, 0x03, 0x25, 0xa2, 0x10, 0x78, 0x38,
        0x0e, 0xf2, 0x92, 0x48, 0xb6,
    ];
    assert_eq!(rt; block_digest(0x0102_0304, &block), digest);
    let key = [0, 1, 2, 3, 4, 5, 6, 7, 8, 9, 10, 11, 12, 13, 14, 15];
    let value = entry_value(&Key(key), 0x0102_0304, &block);
    assert_eq!(rt; value, 0x6996_df9a_573e_1b93_b042_4ab8_44d5_a0a3);
    let keys = keys_of(&key, &[0, 0, 0, 0, 0, 0, 0, 1]);
    let pad = [
        0xdf, 0xc0, 0x58, 0xe1, 0x53, 0x8e, 0x81, 0x35, 0xa7, 0x8a, 0x2b, 0xa9, 0x5b, 0x49, 0xf4,
        0xec,
    ];
    let log = [
        0x0e, 0x9c, 0x9e, 0x2f, 0x08, 0x3e, 0x37, 0xce, 0x35, 0xef, 0x10, 0xde, 0x81, 0x00, 0xf4,
        0x1a,
    ];
    let (made_pad, made_log) = (keys.pad, keys.log);
    assert!(rt; made_pad == Key(pad));
    assert!(rt; made_log == Key(log));
}
