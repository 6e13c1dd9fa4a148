//! A store is made for a small image, and the test of fuel at its edge.
use crate::{Store, has_fuel};
use aegis_num::{Key, Keys};
use image_file::read_image;
use regions::Layout;
use std::alloc::Global;
use std::test::Fail;

// The words of a file: the header of an image with one block of verified memory and one of code, and the first words of its code.
const HEAD: [u32; 12] = [
    0x4145_4753,
    1,
    1,
    0,
    0,
    1,
    0,
    0,
    0,
    0x9c60_0048,
    0x7000_0006,
    0x7000_0001,
];

// Whether the file is an image. A store is made for it.
fn stores_image(alloc: Global) -> Result<bool, Fail> {
    let mut bytes = Vec::new(alloc);
    for word in HEAD {
        bytes.extend_from_slice(&word.to_be_bytes())?;
    }
    for _ in 0..13 {
        bytes.extend_from_slice(&[0x15, 0, 0, 0])?;
    }
    let keys = Keys {
        pad: Key([1; 16]),
        log: Key([2; 16]),
    };
    match read_image(alloc, bytes.as_slice()) {
        Ok(image) => {
            let _store = Store::new(alloc, &image, keys)?;
            Ok(true)
        }
        Err(_error) => Ok(false),
    }
}

#[test]
fn makes_a_store(rt: HostRuntime) -> Result<(), Fail> {
    let made = stores_image(rt.alloc())?;
    assert!(rt; made);
    let layout = Layout {
        verified: 1,
        private: 0,
        constants: 0,
        code: 1,
        log: 2,
        shared: 0,
    };
    assert!(rt; has_fuel(&layout, 16_644, 0));
    assert!(rt; !has_fuel(&layout, 16_643, 0));
    assert!(rt; has_fuel(&layout, 16_654, 10));
    assert!(rt; !has_fuel(&layout, 16_654, 11));
    assert!(rt; !has_fuel(&layout, 3, 4));
    Ok(())
}
