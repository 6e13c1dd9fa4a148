//! The digest of the program of an image.
ghost use Rattle.std.specs.Prelude.{◌≡◌, ◌+◌, ◌*◌, ◌++◌, ◌≤◌, ◌<◌, drop, length, take};
ghost use Rattle.std.specs.Int.{w32, to_be_bytes};
ghost use Rattle.std.specs.List.{flat_map};
ghost use Rattle.block_hash.specs.BlockStrings.{program_digest};
ghost use Rattle.image_file.specs.ImageTable.{static_bytes};
ghost use Rattle.off_chip.specs.OffChipBytes.{bytes_at, static_blocks};
ghost use Rattle.aegis_machine.specs.Boundaries.{blocks_in};

use block_hash::ProgramHasher;
use image_file::{BLOCK_WORDS, Image};
use regions::BLOCK_BYTES;

// Puts bytes after the first ones, of which there are so many.
fn put_after(payload: &mut [u8], at: usize, bytes: &[u8])
    requires { at + length bytes.now ≤ length payload.old }
    ensures { take (at + length bytes.now) payload.new ≡ take at payload.old ++ bytes.now }
{
    payload[at..at + bytes.len()].copy_from_slice(bytes);
}

// The bytes of a block of code, which is the one of this number among these words.
fn code_block(code: &[u32], number: u32) -> [u8; 64]
    requires { BLOCK_WORDS * number + BLOCK_WORDS ≤ length code.now }
    ensures { result ≡ flat_map (to_be_bytes w32)
        (take BLOCK_WORDS (drop (BLOCK_WORDS * number) code.now)) }
{
    let first = BLOCK_WORDS as usize * number as usize;
    let mut payload = [0; 64];
    for k in 0..BLOCK_WORDS as usize {
        put_after(&mut payload, 4 * k, &code[first + k].to_be_bytes());
    }
    payload
}

// The bytes of a constant block, which is the one of this number among these bytes.
fn constant_block(constants: &[u8], number: u32) -> [u8; 64]
    requires { BLOCK_BYTES * number + BLOCK_BYTES ≤ length constants.now }
    ensures { result ≡ bytes_at (BLOCK_BYTES * number) BLOCK_BYTES constants.now }
{
    let first = BLOCK_BYTES as usize * number as usize;
    let mut payload = [0; 64];
    payload.copy_from_slice(&constants[first..first + BLOCK_BYTES as usize]);
    payload
}

// The bytes of the static block of this number: the constant blocks come first, and then the code blocks.
fn static_payload(image: &Image, number: u32) -> [u8; 64]
    requires { number < static_blocks image.now.layout }
    ensures { result ≡ bytes_at (BLOCK_BYTES * number) BLOCK_BYTES (static_bytes image.now) }
{
    let constants = image.layout.constants;
    if number < constants {
        constant_block(image.constants.as_slice(), number)
    } else {
        code_block(image.code.as_slice(), number - constants)
    }
}

// The digest of the program of an image, by its static blocks.
pub(crate) fn digest_of(image: &Image) -> [u8; 20]
    ensures { result ≡ program_digest
        (blocks_in (static_blocks image.now.layout) (static_bytes image.now)) }
{
    let blocks = image.layout.constants + image.layout.code;
    let mut program = ProgramHasher::new(blocks);
    for number in 0..blocks {
        program.add(&static_payload(image, number));
    }
    program.finish()
}
