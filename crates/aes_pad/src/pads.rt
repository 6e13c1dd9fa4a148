//! The pads of private blocks.
ghost use Rattle.std.specs.Prelude.{◌≡◌, ◌+◌, ◌++◌, ◌≤◌, length, take};
ghost use Rattle.aes_pad.specs.Cipher.{xor_bytes};
ghost use Rattle.aes_pad.specs.Pads.{pad, pad_input};

use crate::aes::Aes;

// The counter block of a block's number, its stamp and the place in its pad.
fn pad_input(number: u32, stamp: u64, j: u32) -> [u8; 16]
    ensures { result ≡ pad_input number stamp j }
{
    let n = number.to_be_bytes();
    let s = stamp.to_be_bytes();
    let p = j.to_be_bytes();
    [
        n[0], n[1], n[2], n[3], s[0], s[1], s[2], s[3], s[4], s[5], s[6], s[7], p[0], p[1], p[2],
        p[3],
    ]
}

// Puts a block after the first bytes of a pad, of which there are so many.
fn put_block(pad: &mut [u8], at: usize, block: &[u8; 16])
    requires { at + 16 ≤ length pad.old }
    ensures { take (at + 16) pad.new ≡ take at pad.old ++ block.now }
{
    pad[at..at + 16].copy_from_slice(block);
}

impl Aes {
    /// The pad of a tree block, by its number and the stamp of the write that put it off chip.
    pub fn pad(&self, number: u32, stamp: u64) -> [u8; 64]
        ensures value { result ≡ pad self.now number stamp }
    {
        let mut pad = [0; 64];
        'counters: for j in 0..4u32 {
            let block = self.encrypt(pad_input(number, stamp, j));
            put_block(&mut pad, 16 * j as usize, &block);
        }
        pad
    }
}

/// Adds a pad to a payload, bit by bit. What comes out is hidden, and a second call with one pad uncovers it.
pub fn xor_into(pad: &[u8; 64], payload: &mut [u8; 64])
    ensures sum { payload.new ≡ xor_bytes payload.old pad.now }
    ensures back { xor_bytes payload.new pad.now ≡ payload.old }
{
    'bytes: for i in 0..64 {
        payload[i] ^= pad[i];
    }
}
