//! The veil over private blocks.
ghost use Rattle.std.specs.Prelude.{◌≡◌};
ghost use Rattle.secure_memory.specs.PrivatePads.{is_private_block, hidden_payload};

use aes_pad::{Aes, xor_into};
use hash_tree::Veil;
use regions::{Layout, leaf};
use std::marker::Model;

/// The veil that adds the pad of its number and stamp to each block of private data, and leaves all others as they are.
#[derive(Drop)]
pub struct PrivatePad {
    aes: Aes,
    layout: Layout,
}

impl Model for PrivatePad {
    ghost use Rattle.secure_memory.specs.PrivatePads.{Padding};

    ghost Value = { Padding };

    ghost view = { λ p. record { key = p.aes; layout = p.layout } };
}

impl PrivatePad {
    /// A veil with the pads of a key, over the private blocks of a layout.
    pub fn new(aes: Aes, layout: Layout) -> PrivatePad
        ensures key { result.key ≡ aes }
        ensures layout { result.layout ≡ layout }
    {
        PrivatePad { aes, layout }
    }

    // Whether a tree block is one of private data.
    fn is_private(&self, block: u32) -> bool
        ensures { result ≡ is_private_block self.now.layout block }
    {
        let nodes = leaf(&self.layout, 0);
        if block < nodes {
            return false;
        }
        let position = block - nodes;
        position >= self.layout.verified && position - self.layout.verified < self.layout.private
    }
}

impl Veil for PrivatePad {
    ghost use Rattle.hash_tree.specs.HashTrees.{nodes_of};
    ghost use Rattle.secure_memory.specs.PrivatePads.{hidden_payload};
    ghost use Rattle.secure_memory.specs.PadLaws.{hidden-twice, hidden-long, hidden-node};

    ghost veiled = { hidden_payload };

    ghost nodes = { λ veil. nodes_of veil.layout };

    fn veil(&self, block: u32, stamp: u64, payload: &mut [u8; 64]) {
        if self.is_private(block) {
            xor_into(&self.aes.pad(block, stamp), payload);
        }
    }

    ghost own_inverse = { hidden-twice };

    ghost keeps_length = { hidden-long };

    ghost leaves_nodes = { hidden-node };
}
