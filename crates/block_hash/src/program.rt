//! The digest of a program, whose static blocks come one after another.
ghost use Rattle.std.specs.Prelude.{◌≡◌, ◌+◌, ◌<◌, List, ℕ, [], ◌∷◌, ◌++◌};
ghost use Rattle.block_hash.specs.BlockStrings.{program_digest};
ghost use Rattle.block_hash.specs.ProgramParts.{HasTaken};

use crate::strings::PROGRAM_TAG;
use sha1::Sha1;
use std::marker::Model;

/// Takes in the payloads of a program's static blocks, in order, and gives the digest of the program. Contracts see how
/// many there are, how many were added, and what the hasher keeps of them.
#[derive(Drop)]
pub struct ProgramHasher {
    hasher: Sha1,
    blocks: u32,
    added: u32,
}

impl Model for ProgramHasher {
    ghost use Rattle.std.specs.Prelude.{◌<◌, ◌^◌};
    ghost use Rattle.block_hash.specs.ProgramParts.{ProgramParts};

    ghost Value = { ProgramParts };

    ghost view = { λ p. record { blocks = p.blocks; added = p.added; kept = p.hasher } };

    ghost invariant = { λ p. p.blocks < 2 ^ 32 };
}

impl ProgramHasher {
    /// A program of so many static blocks, none of which was added yet.
    pub fn new(blocks: u32) -> ProgramHasher
        ensures blocks { result.blocks ≡ blocks }
        ensures added { result.added ≡ 0 }
        ensures taken { HasTaken result [] }
    {
        let mut hasher = Sha1::new();
        hasher.update(&[PROGRAM_TAG]);
        hasher.update(&blocks.to_be_bytes());
        ProgramHasher {
            hasher,
            blocks,
            added: 0,
        }
    }

    /// Adds the payload of the next static block.
    pub fn add(&mut self, payload: &[u8; 64])
        requires { self.old.added < self.old.blocks }
        ensures blocks { self.new.blocks ≡ self.old.blocks }
        ensures added { self.new.added ≡ self.old.added + 1 }
        ensures taken { (payloads : List (List ℕ)) → HasTaken self.old payloads
            → HasTaken self.new (payloads ++ payload.now ∷ []) }
    {
        self.hasher.update(payload);
        self.added += 1;
    }

    /// The digest of the program with the payloads that were added, which are as many as it has.
    pub fn finish(self) -> [u8; 20]
        requires { self.added ≡ self.blocks }
        ensures digest { (payloads : List (List ℕ)) → HasTaken self payloads
            → result ≡ program_digest payloads }
    {
        self.hasher.finalize()
    }
}
