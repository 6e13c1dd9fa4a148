//! The image of a program: its layout, its entry, its constants and its code, and the file that holds it.
#![tactic(auto)]

mod blocks;
mod error;
mod image;
mod laws;
mod reading;
mod writing;

pub use blocks::{CodeWords, ConstantBytes};
pub use error::ImageError;
pub use image::{BLOCK_WORDS, HEADER_BYTES, Image, MAGIC, VERSION};
pub use laws::images_and_files;
pub use reading::read_image;
pub use writing::image_bytes;
