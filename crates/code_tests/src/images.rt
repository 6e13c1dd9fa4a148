//! Files that are images, and such that are none.
use image_file::{ImageError, image_bytes, read_image};
use std::alloc::Global;
use std::process::Abort;
use std::test::Fail;

/// The words of a file: the header of an image with one block of verified memory and one of code, and its code.
const HEAD: [u32; 12] = [
    0x4145_4753,
    1,
    1,
    0,
    0,
    1,
    0,
    0,
    0,
    0x9c60_0048,
    0x7000_0006,
    0x7000_0001,
];

fn file(alloc: Global) -> Result<Vec<u8>, Fail> {
    let mut bytes = Vec::new(alloc);
    for word in HEAD {
        bytes.extend_from_slice(&word.to_be_bytes())?;
    }
    for _ in 0..13 {
        bytes.extend_from_slice(&[0x15, 0, 0, 0])?;
    }
    Ok(bytes)
}

/// The file with the high bit of one byte turned.
fn turned(alloc: Global, bytes: &[u8], place: usize) -> Result<Vec<u8>, Fail> {
    let mut changed = Vec::new(alloc);
    for (k, byte) in bytes.iter().enumerate() {
        changed.push(if k == place { *byte ^ 0x80 } else { *byte })?;
    }
    Ok(changed)
}

/// Why a file is no image. An image that is read has to give back this file.
fn fault_of(rt: &impl Abort, alloc: Global, bytes: &[u8]) -> Result<Option<ImageError>, Fail> {
    match read_image(alloc, bytes) {
        Ok(image) => {
            let back = image_bytes(alloc, &image)?;
            assert_eq!(rt; back.as_slice(), bytes);
            Ok(None)
        }
        Err(error) => Ok(Some(error)),
    }
}

/// What is wrong with the file once the high bit of its byte at this place is turned.
fn fault_at(place: usize) -> Option<ImageError> {
    match place {
        0..=3 => Some(ImageError::Magic),
        4 => Some(ImageError::Version { found: 0x8000_0001 }),
        5 => Some(ImageError::Version { found: 0x0080_0001 }),
        6 => Some(ImageError::Version { found: 0x8001 }),
        7 => Some(ImageError::Version { found: 0x81 }),
        8..=10 => Some(ImageError::Field { at: 8 }),
        12..=14 => Some(ImageError::Field { at: 12 }),
        16..=18 => Some(ImageError::Field { at: 16 }),
        20..=22 => Some(ImageError::Field { at: 20 }),
        19 | 23 => Some(ImageError::Short { at: 100 }),
        24..=26 => Some(ImageError::Field { at: 24 }),
        28..=29 => Some(ImageError::Field { at: 28 }),
        32..=35 => Some(ImageError::Field { at: 32 }),
        _ => None,
    }
}

#[test]
fn reads_an_image(rt: HostRuntime) -> Result<(), Fail> {
    let alloc = rt.alloc();
    let bytes = file(alloc)?;
    let image = read_image(alloc, &bytes).ok().ok_or("an image")?;
    assert_eq!(rt; image.layout.verified, 1);
    assert_eq!(rt; image.layout.code, 1);
    assert_eq!(rt; image.entry, 0);
    assert_eq!(rt; image.code.as_slice().get(..3), HEAD.get(9..));
    assert_eq!(rt; image.constants.into_vec().len(), 0);
    assert_eq!(rt; image.code.into_vec().len(), 16);
    Ok(())
}

#[test]
fn refuses_other_files(rt: HostRuntime) -> Result<(), Fail> {
    let alloc = rt.alloc();
    let mut bytes = file(alloc)?;
    for place in 0..100 {
        let short = bytes.get(..place).ok_or("a front")?;
        assert_eq!(rt;
            fault_of(&rt, alloc, short)?,
            Some(ImageError::Short { at: place as u64 })
        );
        let changed = turned(alloc, &bytes, place)?;
        assert_eq!(rt;
            fault_of(&rt, alloc, &changed)?,
            fault_at(place),
            "at {place}"
        );
    }
    assert_eq!(rt; fault_of(&rt, alloc, &bytes)?, None);
    bytes.push(0)?;
    assert_eq!(rt;
        fault_of(&rt, alloc, &bytes)?,
        Some(ImageError::Trailing { at: 100 })
    );
    Ok(())
}

#[test]
fn refuses_great_counts_and_garbage(rt: HostRuntime) -> Result<(), Fail> {
    let alloc = rt.alloc();
    for (field, at) in [
        (2usize, 8),
        (3, 12),
        (4, 16),
        (5, 20),
        (6, 24),
        (7, 28),
        (8, 32),
    ] {
        let mut bytes = Vec::new(alloc);
        for (k, word) in HEAD.iter().enumerate() {
            let word = if k == field { u32::MAX } else { *word };
            bytes.extend_from_slice(&word.to_be_bytes())?;
        }
        assert_eq!(rt;
            fault_of(&rt, alloc, &bytes)?,
            Some(ImageError::Field { at })
        );
    }
    let garbage: Vec<u8> = (0..1_048_576u32).map(|k| (k % 251) as u8).collect(alloc)?;
    assert_eq!(rt; fault_of(&rt, alloc, &garbage)?, Some(ImageError::Magic));
    Ok(())
}
