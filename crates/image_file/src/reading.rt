//! Files read as images.
ghost use Rattle.std.specs.Prelude.{◌≡◌, ◌≢◌, ℕ, ◌+◌, ◌*◌, ◌%◌, ◌<◌, ◌≤◌, nat_le, nat_lt, if◌then◌else◌, length, drop, Ok, Err, Some, None, IfOk, IfErr};
ghost use Rattle.regions.specs.declared.addresses.TheConstants.{BLOCK_BYTES};
ghost use Rattle.regions.specs.declared.layout.TheConstants.{MAX_DATA_BLOCKS, MAX_LOG_BLOCKS, MAX_SHARED_BYTES};
ghost use Rattle.image_file.specs.declared.error.ImageError.TheVariants as errors;
ghost use Rattle.image_file.specs.declared.image.TheConstants.{BLOCK_WORDS, HEADER_BYTES, MAGIC, VERSION};
ghost use Rattle.image_file.specs.declared.image.Image.{Image};
ghost use Rattle.image_file.specs.ImageTable.{field, static_bytes, bytes_of, HoldsWords};
ghost use Rattle.image_file.specs.ImageFaults.{number_at, field_fault, header_in, blocks_fault, first_fault, FindsUnlessMemory};
ghost use Rattle.image_file.specs.ReadParts.{fault_told, fault_among, HasNumbers, words_in};

use crate::blocks::{CodeWords, ConstantBytes};
use crate::error::ImageError;
use crate::image::{BLOCK_WORDS, HEADER_BYTES, Image, MAGIC, VERSION};
use aegis_num::OutOfMemory;
use regions::{BLOCK_BYTES, Layout, MAX_DATA_BLOCKS, MAX_LOG_BLOCKS, MAX_SHARED_BYTES};
use std::alloc::Global;

/// How many data blocks there are of each class, together no more than there may be.
#[derive(Clone, Copy)]
struct DataBlocks {
    verified: u32,
    private: u32,
    constants: u32,
    code: u32,
    ghost data_fits: { verified + private + constants + code ≤ MAX_DATA_BLOCKS },
}

/// What the header of an image says.
#[derive(Clone, Copy)]
struct FileHeader {
    layout: Layout,
    entry: u32,
    ghost shared_words: { layout.shared % 4 ≡ 0 },
    ghost entry_inside: { entry < BLOCK_WORDS * layout.code },
}

/// The number that stands at a place of the header.
fn number_in(bytes: &[u8], at: usize) -> Result<u32, ImageError>
    requires { at < HEADER_BYTES }
    ensures { result ≡ (if nat_lt (length bytes.now) (at + 4)
        then Err (errors.Short (length bytes.now)) else Ok (number_at bytes.now at)) }
{
    if bytes.len() < at + 4 {
        return Err(ImageError::Short {
            at: bytes.len() as u64,
        });
    }
    let (_, rest) = bytes.split_at(at);
    let (front, _) = rest.split_at(4);
    Ok(u32::from_be_bytes([front[0], front[1], front[2], front[3]]))
}

/// The number that stands at a place of the header, where it and those before it are together at most `limit`.
fn number_within(bytes: &[u8], at: usize, before: u32, limit: u32) -> Result<u32, ImageError>
    requires place { at < HEADER_BYTES }
    requires room { before ≤ limit }
    ensures number { IfOk result (λ number. number ≡ number_at bytes.now at) }
    ensures fits { IfOk result (λ number. before + number ≤ limit) }
    ensures fault { fault_told result ≡ field_fault bytes.now (field at (number_at bytes.now at)
        (nat_le (before + number_at bytes.now at) limit) (errors.Field at)) }
{
    let number = number_in(bytes, at)?;
    if number > limit - before {
        return Err(ImageError::Field { at: at as u64 });
    }
    Ok(number)
}

/// Tests the first two fields.
fn signature_of(bytes: &[u8]) -> Result<(), ImageError>
    ensures magic { IfOk result (λ _. number_at bytes.now 0 ≡ MAGIC) }
    ensures version { IfOk result (λ _. number_at bytes.now 4 ≡ VERSION) }
    ensures fault { fault_told result ≡ fault_among bytes.now 0 2 }
{
    if number_in(bytes, 0)? != MAGIC {
        return Err(ImageError::Magic);
    }
    let version = number_in(bytes, 4)?;
    if version != VERSION {
        return Err(ImageError::Version { found: version });
    }
    Ok(())
}

/// The next four fields: how many data blocks there are of each class.
fn data_blocks_of(bytes: &[u8]) -> Result<DataBlocks, ImageError>
    ensures verified { IfOk result (λ found. found.verified ≡ number_at bytes.now 8) }
    ensures private { IfOk result (λ found. found.private ≡ number_at bytes.now 12) }
    ensures constants { IfOk result (λ found. found.constants ≡ number_at bytes.now 16) }
    ensures code { IfOk result (λ found. found.code ≡ number_at bytes.now 20) }
    ensures fault { fault_told result ≡ fault_among bytes.now 2 4 }
{
    let verified = number_within(bytes, 8, 0, MAX_DATA_BLOCKS)?;
    let private = number_within(bytes, 12, verified, MAX_DATA_BLOCKS)?;
    let constants = number_within(bytes, 16, verified + private, MAX_DATA_BLOCKS)?;
    let code = number_within(bytes, 20, verified + private + constants, MAX_DATA_BLOCKS)?;
    if code == 0 {
        return Err(ImageError::Field { at: 20 });
    }
    Ok(DataBlocks {
        verified,
        private,
        constants,
        code,
    })
}

/// The next two fields: how many log blocks and how many shared bytes there are.
fn log_and_shared_of(bytes: &[u8]) -> Result<(u32, u32), ImageError>
    ensures log { IfOk result (λ found. found.0 ≡ number_at bytes.now 24) }
    ensures shared { IfOk result (λ found. found.1 ≡ number_at bytes.now 28) }
    ensures log_fits { IfOk result (λ found. found.0 ≤ MAX_LOG_BLOCKS) }
    ensures shared_fits { IfOk result (λ found. found.1 ≤ MAX_SHARED_BYTES) }
    ensures words { IfOk result (λ found. found.1 % 4 ≡ 0) }
    ensures fault { fault_told result ≡ fault_among bytes.now 6 2 }
{
    let log = number_within(bytes, 24, 0, MAX_LOG_BLOCKS)?;
    let shared = number_within(bytes, 28, 0, MAX_SHARED_BYTES)?;
    if shared % 4 != 0 {
        return Err(ImageError::Field { at: 28 });
    }
    Ok((log, shared))
}

/// The last field of the header.
fn entry_of(bytes: &[u8], code: u32) -> Result<u32, ImageError>
    requires blocks { code ≤ MAX_DATA_BLOCKS }
    requires number { code ≡ number_at bytes.now 20 }
    ensures entry { IfOk result (λ entry. entry ≡ number_at bytes.now 32) }
    ensures inside { IfOk result (λ entry. entry < BLOCK_WORDS * code) }
    ensures fault { fault_told result ≡ fault_among bytes.now 8 1 }
{
    let entry = number_in(bytes, 32)?;
    if entry >= BLOCK_WORDS * code {
        return Err(ImageError::Field { at: 32 });
    }
    Ok(entry)
}

/// The header.
fn header_of(bytes: &[u8]) -> Result<FileHeader, ImageError>
    ensures magic { IfOk result (λ _. number_at bytes.now 0 ≡ MAGIC) }
    ensures version { IfOk result (λ _. number_at bytes.now 4 ≡ VERSION) }
    ensures layout { IfOk result (λ header. HasNumbers header.layout (header_in bytes.now)) }
    ensures entry { IfOk result (λ header. header.entry ≡ number_at bytes.now 32) }
    ensures fault { fault_told result ≡ fault_among bytes.now 0 9 }
{
    signature_of(bytes)?;
    let data = data_blocks_of(bytes)?;
    let (log, shared) = log_and_shared_of(bytes)?;
    let entry = entry_of(bytes, data.code)?;
    Ok(FileHeader {
        layout: Layout {
            verified: data.verified,
            private: data.private,
            constants: data.constants,
            code: data.code,
            log,
            shared,
        },
        entry,
    })
}

/// What follows the header, where it is so many blocks.
fn blocks_of(bytes: &[u8], count: u32) -> Result<&[u8], ImageError>
    requires { count ≤ MAX_DATA_BLOCKS }
    ensures blocks { IfOk result (λ blocks. blocks.now ≡ drop HEADER_BYTES bytes.now) }
    ensures length { IfOk result (λ _. length bytes.now ≡ HEADER_BYTES + BLOCK_BYTES * count) }
    ensures fault { fault_told result
        ≡ blocks_fault bytes.now (HEADER_BYTES + BLOCK_BYTES * count) }
{
    let whole = HEADER_BYTES + (BLOCK_BYTES * count) as usize;
    if bytes.len() < whole {
        return Err(ImageError::Short {
            at: bytes.len() as u64,
        });
    }
    if bytes.len() > whole {
        return Err(ImageError::Trailing { at: whole as u64 });
    }
    let (_, blocks) = bytes.split_at(HEADER_BYTES);
    Ok(blocks)
}

/// The words of some bytes, the greatest byte first.
fn words_of(alloc: Global, bytes: &[u8]) -> Result<Vec<u32>, OutOfMemory>
    ensures { IfOk result (λ words. words.items ≡ words_in bytes.now) }
{
    let mut words = Vec::new(alloc);
    let mut rest = bytes;
    while let [first, second, third, fourth, after @ ..] = rest {
        words.push(u32::from_be_bytes([*first, *second, *third, *fourth]))?;
        rest = after;
    }
    Ok(words)
}

/// The image with this header and these bytes as its blocks.
fn image_of(alloc: Global, header: FileHeader, blocks: &[u8]) -> Result<Image, OutOfMemory>
    requires { length blocks.now ≡ BLOCK_BYTES * (header.layout.constants + header.layout.code) }
    ensures layout { IfOk result (λ image. image.layout ≡ header.layout) }
    ensures entry { IfOk result (λ image. image.entry ≡ header.entry) }
    ensures blocks { IfOk result (λ image. static_bytes image ≡ blocks.now) }
    ensures words { IfOk result HoldsWords }
{
    let layout = header.layout;
    let (constants, code) = blocks.split_at((BLOCK_BYTES * layout.constants) as usize);
    let constants = Vec::from_slice(alloc, constants)?;
    let code = words_of(alloc, code)?;
    Ok(Image {
        layout,
        entry: header.entry,
        constants: ConstantBytes::new(constants),
        code: CodeWords::new(code),
    })
}

/// The image whose file this is.
///
/// # Errors
///
/// The first fault of the file, its fields and its blocks taken in order. `OutOfMemory` where memory runs out.
pub fn read_image(alloc: Global, bytes: &[u8]) -> Result<Image, ImageError>
    // The file is that of the image which is read.
    ensures read { IfOk result (λ image. bytes.now ≡ bytes_of image) }
    ensures words { IfOk result HoldsWords }
    // The image of a file is the one that is read, unless memory runs out.
    ensures only { (image : Image) → HoldsWords image → bytes.now ≡ bytes_of image →
        FindsUnlessMemory image result }
    // The file has this fault first, and none where an image is read.
    ensures fault { IfErr result
        (λ error. error ≢ ImageError.OutOfMemory → first_fault bytes.now ≡ Some error) }
    ensures faultless { IfOk result (λ _. first_fault bytes.now ≡ None) }
{
    let header = header_of(bytes)?;
    let count = header.layout.constants + header.layout.code;
    let blocks = blocks_of(bytes, count)?;
    let image = image_of(alloc, header, blocks)?;
    Ok(image)
}
