//! A veil that can be seen through.
use hash_tree::Veil;

/// Data blocks stand off chip with their bytes in reverse. The first blocks are nodes.
#[derive(Clone, Copy, Debug)]
pub(crate) struct Turned {
    /// How many nodes there are.
    pub(crate) nodes: u32,
}

impl Veil for Turned {
    ghost use Rattle.std.specs.Prelude.{◌≡◌, Bool, true, false, nat_lt, reverse, length, if◌then◌else◌};
    ghost use Rattle.std.proofs.Common.{refl, ap, ◌∙◌};
    ghost use Rattle.std.proofs.lemmas.Bool.{lt-ltb};
    ghost use Rattle.std.proofs.lemmas.List.{length-reverse, reverse-reverse};

    ghost veiled = { λ v block stamp payload. if nat_lt block v.nodes then payload else reverse payload };

    ghost nodes = { λ v. v.nodes };

    fn veil(&self, block: u32, _stamp: u64, payload: &mut [u8; 64]) {
        if block >= self.nodes {
            payload.reverse();
        }
    }

    ghost own_inverse = { λ v block stamp payload long.
        let same : (b : Bool) → (if b then (if b then payload else reverse payload)
        else reverse (if b then payload else reverse payload)) ≡ payload
        = elim [ true ↦ refl | false ↦ reverse-reverse payload ] in same (nat_lt block v.nodes) };

    ghost keeps_length = { λ v block stamp payload long.
        let same : (b : Bool) → length (if b then payload else reverse payload) ≡ 64
        = elim [ true ↦ long | false ↦ length-reverse payload ∙ long ] in same (nat_lt block v.nodes) };

    ghost leaves_nodes = { λ v block stamp payload below.
        ap (λ (b : Bool). if b then payload else reverse payload) (lt-ltb block v.nodes below) };
}
