//! The secure memory as the memory that a core runs on.
ghost use Rattle.std.specs.Prelude.{◌≡◌};

use crate::memory::{SecureMemory, no_pins};
use crate::path::pins_of;
use line_cache::Lines;
use off_chip::OffChip;
use orbis_core::{Memory, Stop};
use regions::Access;

impl<O: OffChip, L: Lines> Memory for SecureMemory<'_, O, L> {
    ghost use Rattle.std.specs.Prelude.{◌≡◌, ◌+◌, length};
    ghost use Rattle.secure_memory.specs.MemorySights.{HasLeft, sight_of};
    ghost use Rattle.secure_memory.specs.MemoryAccesses.{secure_accesses};
    ghost use Rattle.secure_memory.specs.AccessesLeft.{fewer, secure_leaves};

    ghost has_left = { λ memory n. HasLeft (sight_of L.lines O.trace O.room O.layout memory) n };

    ghost accesses = { secure_accesses (λ (memory : Self). sight_of L.lines O.trace O.room O.layout memory)
        (λ (old new : Self). (new.lent.ghost_name ≡ old.lent.ghost_name) × O.same_memory old.lent.now new.lent.now
        × (length (O.trace new.lent.now) + O.room new.lent.now ≡ length (O.trace old.lent.now) + O.room old.lent.now)) };

    fn fetch(&mut self, at: u32) -> Result<u32, Stop> {
        self.test_word(at, Access::Fetch)?;
        self.pins = no_pins();
        let word = self.read_word(at)?;
        self.pins = pins_of(&self.layout, at);
        Ok(word)
    }

    fn load_word(&mut self, at: u32) -> Result<u32, Stop> {
        self.test_word(at, Access::Read)?;
        self.read_word(at)
    }

    fn load_byte(&mut self, at: u32) -> Result<u32, Stop> {
        self.test_byte(at, Access::Read)?;
        self.read_byte(at)
    }

    fn store_word(&mut self, at: u32, word: u32) -> Result<(), Stop> {
        self.test_word(at, Access::Write)?;
        self.write_word(at, word)
    }

    fn store_byte(&mut self, at: u32, byte: u8) -> Result<(), Stop> {
        self.test_byte(at, Access::Write)?;
        self.write_byte(at, byte)
    }

    ghost one_fewer_left = { secure_leaves _ _ };

    ghost fewer_left = { λ memory n left. fewer (sight_of L.lines O.trace O.room O.layout memory) n left };
}
