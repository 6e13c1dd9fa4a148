//! How the payload of a block stands off chip.
ghost use Rattle.std.specs.Prelude.{◌≡◌, ℕ, ◌<◌, List, length};

/// A veil over payloads: what goes over the bus in place of a payload, and back.
pub trait Veil {
    /// The payload that stands off chip for a payload on the chip, by the number of the block and its stamp.
    ghost veiled: { Self → ℕ → ℕ → List ℕ → List ℕ };

    /// How many blocks, from block 0 on, are nodes of the tree. They have no veil.
    ghost nodes: { Self → ℕ };

    /// Puts the veil of a block and a stamp over a payload, or takes it off again.
    fn veil(&self, block: u32, stamp: u64, payload: &mut [u8; 64])
        ensures value { payload.new ≡ veiled self.now block stamp payload.old };

    /// It takes itself off.
    ghost own_inverse: { (v : Self) (block stamp : ℕ) (payload : List ℕ) → length payload ≡ 64
        → veiled v block stamp (veiled v block stamp payload) ≡ payload };

    /// It keeps the length.
    ghost keeps_length: { (v : Self) (block stamp : ℕ) (payload : List ℕ) → length payload ≡ 64
        → length (veiled v block stamp payload) ≡ 64 };

    /// It leaves nodes as they are.
    ghost leaves_nodes: { (v : Self) (block stamp : ℕ) (payload : List ℕ) → block < nodes v
        → veiled v block stamp payload ≡ payload };
}
