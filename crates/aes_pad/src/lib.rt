//! AES-128 (FIPS 197), and the pads that hide the payloads of private blocks.
#![tactic(auto)]

mod aes;
mod pads;
mod rounds;
mod tables;

pub use aes::Aes;
pub use pads::xor_into;
