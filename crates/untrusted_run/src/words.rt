//! The open words, as untrusted code has them.
ghost use Rattle.std.specs.Prelude.{◌≡◌};
ghost use Rattle.untrusted_run.specs.OpenAccesses.{refusal_of_byte, refusal_of_word};

use off_chip::{OffChip, Who};
use orbis_core::{Memory, Stop, Why};
use regions::OPEN_END;

/// The open words at a bus: each access is an event of untrusted code there. All else is refused.
pub(crate) struct OpenWords<'a, O: OffChip> {
    /// The bus.
    pub(crate) bus: &'a mut O,
}

// Whether untrusted code may access the word at an address.
fn check_word(at: u32) -> Result<(), Stop>
    ensures value { result ≡ refusal_of_word at }
{
    check_byte(at)?;
    if at % 4 != 0 {
        return Err(Stop::Refused(Why::Misaligned));
    }
    Ok(())
}

// Whether untrusted code may access the byte at an address.
fn check_byte(at: u32) -> Result<(), Stop>
    ensures value { result ≡ refusal_of_byte at }
{
    if at >= OPEN_END {
        return Err(Stop::Refused(Why::Rights));
    }
    Ok(())
}

impl<O: OffChip> Memory for OpenWords<'_, O> {
    ghost use Rattle.std.specs.Prelude.{◌≡◌, ◌≤◌, ◌*◌};
    ghost use Rattle.untrusted_run.specs.OpenAccesses.{open_accesses, open_leaves, twice_fewer};

    ghost has_left = { λ memory n. 2 * n ≤ O.room memory.bus.now };

    ghost accesses = { open_accesses (λ (memory : Self). record { trace = O.trace memory.bus.now; room = O.room memory.bus.now })
        (λ (old new : Self). (new.bus.ghost_name ≡ old.bus.ghost_name) × O.same_memory old.bus.now new.bus.now) };

    fn fetch(&mut self, at: u32) -> Result<u32, Stop> {
        check_word(at)?;
        Ok(self.bus.read_word(Who::Untrusted, at))
    }

    fn load_word(&mut self, at: u32) -> Result<u32, Stop> {
        check_word(at)?;
        Ok(self.bus.read_word(Who::Untrusted, at))
    }

    fn load_byte(&mut self, at: u32) -> Result<u32, Stop> {
        check_byte(at)?;
        let word = self.bus.read_word(Who::Untrusted, at - at % 4);
        Ok(word.to_be_bytes()[(at % 4) as usize] as u32)
    }

    fn store_word(&mut self, at: u32, word: u32) -> Result<(), Stop> {
        check_word(at)?;
        self.bus.write_word(Who::Untrusted, at, word);
        Ok(())
    }

    fn store_byte(&mut self, at: u32, byte: u8) -> Result<(), Stop> {
        check_byte(at)?;
        let start = at - at % 4;
        let mut bytes = self.bus.read_word(Who::Untrusted, start).to_be_bytes();
        bytes[(at % 4) as usize] = byte;
        self.bus
            .write_word(Who::Untrusted, start, u32::from_be_bytes(bytes));
        Ok(())
    }

    ghost one_fewer_left = { open_leaves _ _ };

    ghost fewer_left = { λ memory n left. twice_fewer (O.room memory.bus.now) n left };
}
