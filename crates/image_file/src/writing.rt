//! Images written as files.
ghost use Rattle.std.specs.Prelude.{◌≡◌, ◌++◌, map, IfOk, OnOk};
ghost use Rattle.std.specs.Int.{w32, to_be_bytes};
ghost use Rattle.std.specs.List.{flat_map};
ghost use Rattle.image_file.specs.ImageTable.{fields, header_of, bytes_of};

use crate::image::{Image, MAGIC, VERSION};
use aegis_num::OutOfMemory;
use std::alloc::Global;

/// The numbers of the header, in the order of the file.
fn numbers_of(image: &Image) -> [u32; 9]
    ensures { result ≡ map (λ f. f.number) (fields (header_of image.now)) }
{
    let layout = &image.layout;
    [
        MAGIC,
        VERSION,
        layout.verified,
        layout.private,
        layout.constants,
        layout.code,
        layout.log,
        layout.shared,
        image.entry,
    ]
}

/// Adds the bytes of some words, the greatest byte first.
fn push_words(bytes: &mut Vec<u8>, words: &[u32]) -> Result<(), OutOfMemory>
    ensures { OnOk result
        (bytes.new.items ≡ bytes.old.items ++ flat_map (to_be_bytes w32) words.now) }
{
    for word in words {
        bytes.extend_from_slice(&word.to_be_bytes())?;
    }
    Ok(())
}

/// The file of an image.
pub fn image_bytes(alloc: Global, image: &Image) -> Result<Vec<u8>, OutOfMemory>
    ensures { IfOk result (λ bytes. bytes.items ≡ bytes_of image.now) }
{
    let mut bytes = Vec::new(alloc);
    push_words(&mut bytes, &numbers_of(image))?;
    bytes.extend_from_slice(image.constants.as_slice())?;
    push_words(&mut bytes, image.code.as_slice())?;
    Ok(bytes)
}
