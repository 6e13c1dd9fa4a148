//! Accesses: what refuses them, how the block of an address gets a line, and what is read and written there.
ghost use Rattle.std.specs.Prelude.{◌≡◌, ◌+◌, ◌<◌, ◌≤◌, ◌/◌, ◌%◌, [], ◌∷◌, Ok, Some, length, slice_index, slice_set};
ghost use Rattle.regions.specs.Addresses.{IsInData, IsInLog, offset_at};
ghost use Rattle.regions.specs.declared.addresses.TheConstants.{OPEN_END};
ghost use Rattle.off_chip.specs.declared.event.Event.TheVariants.{WordRead, WordWrite};
ghost use Rattle.off_chip.specs.declared.event.Who.TheVariants.{Secure};
ghost use Rattle.orbis_core.specs.ByteOrder.{byte_in, with_byte, word_start, words_in};
ghost use Rattle.orbis_core.specs.Refusals.{answered, byte_refusal, word_refusal};
ghost use Rattle.secure_memory.specs.BlockWords.{IsPlaced, byte_at, place_at, with_byte_at, with_word_at, word_at};
ghost use Rattle.secure_memory.specs.MemorySights.{HasLine, IsReady, line_in, sight_of};
ghost use Rattle.secure_memory.specs.MemoryStands.{IsOfLayout};
ghost use Rattle.secure_memory.specs.MemoryAccesses.{Loads, Puts, ReachesOrStops, Stores};

use crate::memory::SecureMemory;
use line_cache::Lines;
use off_chip::{OffChip, Who};
use orbis_core::{Stop, Why};
use regions::{Access, BLOCK_BYTES, LOG_START, OPEN_END, TREE_START, class_of, may};

impl<O: OffChip, L: Lines> SecureMemory<'_, O, L> {
    // Why an access to the byte at an address is refused, if it is.
    pub(crate) fn test_byte(&self, at: u32, access: Access) -> Result<(), Stop>
        ensures value { result
            ≡ answered (byte_refusal self.now.layout self.now.mode_unit.mode access at) tt }
    {
        match class_of(&self.layout, at) {
            Some(class) if may(self.mode_unit.mode(), class, access) => Ok(()),
            _ => Err(Stop::Refused(Why::Rights)),
        }
    }

    // Why an access to the word at an address is refused, if it is.
    pub(crate) fn test_word(&self, at: u32, access: Access) -> Result<(), Stop>
        ensures value { result
            ≡ answered (word_refusal self.now.layout self.now.mode_unit.mode access at) tt }
    {
        self.test_byte(at, access)?;
        if at % 4 != 0 {
            return Err(Stop::Refused(Why::Misaligned));
        }
        Ok(())
    }

    // Gives the data block of an address a line, and each block of its path.
    fn reach_data(&mut self, at: u32) -> Result<(), Stop>
        requires inside { IsInData self.old.layout at }
        requires ready { IsReady (sight_of L.lines O.trace O.room O.layout self.old) }
        requires has_room { 160 ≤ O.room self.old.lent.now }
        ensures does { ReachesOrStops at result
            (sight_of L.lines O.trace O.room O.layout self.old)
            (sight_of L.lines O.trace O.room O.layout self.new) }
        ensures same { O.same_memory self.old.lent.now self.new.lent.now }
        ensures total { length (O.trace self.new.lent.now) + O.room self.new.lent.now
            ≡ length (O.trace self.old.lent.now) + O.room self.old.lent.now }
        ensures same_reference { self.new.lent.ghost_name ≡ self.old.lent.ghost_name }
    {
        let position = (at - TREE_START) / BLOCK_BYTES;
        match self
            .tree
            .load(&mut *self.lent, &mut self.stamps, position, &self.pins)
        {
            Ok(()) => Ok(()),
            Err(changed) => Err(Stop::Tree {
                event: changed.event,
            }),
        }
    }

    // Gives the log block of an address a line.
    fn reach_log(&mut self, at: u32) -> Result<(), Stop>
        requires inside { IsInLog self.old.layout at }
        requires ready { IsReady (sight_of L.lines O.trace O.room O.layout self.old) }
        requires has_room { 160 ≤ O.room self.old.lent.now }
        ensures does { ReachesOrStops at result
            (sight_of L.lines O.trace O.room O.layout self.old)
            (sight_of L.lines O.trace O.room O.layout self.new) }
        ensures same { O.same_memory self.old.lent.now self.new.lent.now }
        ensures total { length (O.trace self.new.lent.now) + O.room self.new.lent.now
            ≡ length (O.trace self.old.lent.now) + O.room self.old.lent.now }
        ensures same_reference { self.new.lent.ghost_name ≡ self.old.lent.ghost_name }
    {
        let block = (at - LOG_START) / BLOCK_BYTES;
        match self.log.load(&mut *self.lent, &mut self.stamps, block) {
            Ok(()) => Ok(()),
            Err(changed) => Err(Stop::Log {
                event: changed.event,
            }),
        }
    }

    // Gives the block of an address a line.
    fn reach(&mut self, at: u32) -> Result<(), Stop>
        requires placed { IsPlaced self.old.layout at }
        requires not_open { OPEN_END ≤ at }
        requires ready { IsReady (sight_of L.lines O.trace O.room O.layout self.old) }
        requires has_room { 160 ≤ O.room self.old.lent.now }
        ensures does { ReachesOrStops at result
            (sight_of L.lines O.trace O.room O.layout self.old)
            (sight_of L.lines O.trace O.room O.layout self.new) }
        ensures same { O.same_memory self.old.lent.now self.new.lent.now }
        ensures total { length (O.trace self.new.lent.now) + O.room self.new.lent.now
            ≡ length (O.trace self.old.lent.now) + O.room self.old.lent.now }
        ensures same_reference { self.new.lent.ghost_name ≡ self.old.lent.ghost_name }
    {
        if at < LOG_START {
            self.reach_data(at)
        } else {
            self.reach_log(at)
        }
    }

    // The payload in the line of the block of an address.
    fn line(&self, at: u32) -> &[u8; 64]
        requires placed { IsPlaced self.now.layout at }
        requires not_open { OPEN_END ≤ at }
        requires parts { IsOfLayout self.now.layout self.now.tree self.now.log }
        requires held { HasLine at (sight_of L.lines O.trace O.room O.layout self.now) }
        ensures value { line_in (sight_of L.lines O.trace O.room O.layout self.now)
            (place_at self.now.layout at) ≡ Some result.now }
    {
        if at < LOG_START {
            self.tree.payload((at - TREE_START) / BLOCK_BYTES)
        } else {
            self.log.payload((at - LOG_START) / BLOCK_BYTES)
        }
    }

    // Puts a word into the line of the block of an address.
    fn put_word_at(&mut self, at: u32, word: u32)
        requires placed { IsPlaced self.old.layout at }
        requires not_open { OPEN_END ≤ at }
        requires aligned { at % 4 ≡ 0 }
        requires parts { IsOfLayout self.old.layout self.old.tree self.old.log }
        requires held { HasLine at (sight_of L.lines O.trace O.room O.layout self.old) }
        ensures puts { Puts (λ before. word) (λ payload. with_word_at payload at word) at
            (sight_of L.lines O.trace O.room O.layout self.old)
            (sight_of L.lines O.trace O.room O.layout self.new) }
        ensures bus { self.new.lent.now ≡ self.old.lent.now }
        ensures same_reference { self.new.lent.ghost_name ≡ self.old.lent.ghost_name }
    {
        if at < LOG_START {
            put_word(
                self.tree.payload_mut((at - TREE_START) / BLOCK_BYTES),
                at,
                word,
            );
        } else {
            put_word(
                self.log.payload_mut((at - LOG_START) / BLOCK_BYTES),
                at,
                word,
            );
        }
    }

    // Puts a byte into the line of the block of an address.
    fn put_byte_at(&mut self, at: u32, byte: u8)
        requires placed { IsPlaced self.old.layout at }
        requires not_open { OPEN_END ≤ at }
        requires parts { IsOfLayout self.old.layout self.old.tree self.old.log }
        requires held { HasLine at (sight_of L.lines O.trace O.room O.layout self.old) }
        ensures puts { Puts (λ before. with_byte before at byte)
            (λ payload. with_byte_at payload at byte) at
            (sight_of L.lines O.trace O.room O.layout self.old)
            (sight_of L.lines O.trace O.room O.layout self.new) }
        ensures bus { self.new.lent.now ≡ self.old.lent.now }
        ensures same_reference { self.new.lent.ghost_name ≡ self.old.lent.ghost_name }
    {
        if at < LOG_START {
            put_byte(
                self.tree.payload_mut((at - TREE_START) / BLOCK_BYTES),
                at,
                byte,
            );
        } else {
            put_byte(
                self.log.payload_mut((at - LOG_START) / BLOCK_BYTES),
                at,
                byte,
            );
        }
    }

    // Reads the word at an address.
    pub(crate) fn read_word(&mut self, at: u32) -> Result<u32, Stop>
        requires placed { IsPlaced self.old.layout at }
        requires aligned { at % 4 ≡ 0 }
        requires ready { IsReady (sight_of L.lines O.trace O.room O.layout self.old) }
        requires has_room { 160 ≤ O.room self.old.lent.now }
        ensures does { Loads (λ payload. word_at payload at) (λ word. word) at result
            (sight_of L.lines O.trace O.room O.layout self.old)
            (sight_of L.lines O.trace O.room O.layout self.new) }
        ensures same { O.same_memory self.old.lent.now self.new.lent.now }
        ensures total { length (O.trace self.new.lent.now) + O.room self.new.lent.now
            ≡ length (O.trace self.old.lent.now) + O.room self.old.lent.now }
        ensures same_reference { self.new.lent.ghost_name ≡ self.old.lent.ghost_name }
    {
        if at < OPEN_END {
            return Ok(self.lent.read_word(Who::Secure, at));
        }
        self.reach(at)?;
        Ok(word_of(self.line(at), at))
    }

    // Reads the byte at an address.
    pub(crate) fn read_byte(&mut self, at: u32) -> Result<u32, Stop>
        requires placed { IsPlaced self.old.layout at }
        requires ready { IsReady (sight_of L.lines O.trace O.room O.layout self.old) }
        requires has_room { 160 ≤ O.room self.old.lent.now }
        ensures does { Loads (λ payload. byte_at payload at) (λ word. byte_in word at) at result
            (sight_of L.lines O.trace O.room O.layout self.old)
            (sight_of L.lines O.trace O.room O.layout self.new) }
        ensures same { O.same_memory self.old.lent.now self.new.lent.now }
        ensures total { length (O.trace self.new.lent.now) + O.room self.new.lent.now
            ≡ length (O.trace self.old.lent.now) + O.room self.old.lent.now }
        ensures same_reference { self.new.lent.ghost_name ≡ self.old.lent.ghost_name }
    {
        if at < OPEN_END {
            let word = self.lent.read_word(Who::Secure, at - at % 4);
            return Ok(word.to_be_bytes()[(at % 4) as usize] as u32);
        }
        self.reach(at)?;
        Ok(byte_of(self.line(at), at))
    }

    // Writes the word at an address.
    pub(crate) fn write_word(&mut self, at: u32, word: u32) -> Result<(), Stop>
        requires placed { IsPlaced self.old.layout at }
        requires aligned { at % 4 ≡ 0 }
        requires ready { IsReady (sight_of L.lines O.trace O.room O.layout self.old) }
        requires has_room { 160 ≤ O.room self.old.lent.now }
        ensures does { Stores (λ before. word) (λ payload. with_word_at payload at word)
            (λ read. WordWrite Secure at word ∷ []) at result
            (sight_of L.lines O.trace O.room O.layout self.old)
            (sight_of L.lines O.trace O.room O.layout self.new) }
        ensures same { O.same_memory self.old.lent.now self.new.lent.now }
        ensures total { length (O.trace self.new.lent.now) + O.room self.new.lent.now
            ≡ length (O.trace self.old.lent.now) + O.room self.old.lent.now }
        ensures same_reference { self.new.lent.ghost_name ≡ self.old.lent.ghost_name }
    {
        if at < OPEN_END {
            self.lent.write_word(Who::Secure, at, word);
            return Ok(());
        }
        self.reach(at)?;
        self.put_word_at(at, word);
        Ok(())
    }

    // Writes the byte at an address.
    pub(crate) fn write_byte(&mut self, at: u32, byte: u8) -> Result<(), Stop>
        requires placed { IsPlaced self.old.layout at }
        requires ready { IsReady (sight_of L.lines O.trace O.room O.layout self.old) }
        requires has_room { 160 ≤ O.room self.old.lent.now }
        ensures does { Stores (λ before. with_byte before at byte)
            (λ payload. with_byte_at payload at byte)
            (λ read. WordRead Secure (word_start at) read
            ∷ WordWrite Secure (word_start at) (with_byte read at byte) ∷ []) at result
            (sight_of L.lines O.trace O.room O.layout self.old)
            (sight_of L.lines O.trace O.room O.layout self.new) }
        ensures same { O.same_memory self.old.lent.now self.new.lent.now }
        ensures total { length (O.trace self.new.lent.now) + O.room self.new.lent.now
            ≡ length (O.trace self.old.lent.now) + O.room self.old.lent.now }
        ensures same_reference { self.new.lent.ghost_name ≡ self.old.lent.ghost_name }
    {
        if at < OPEN_END {
            let start = at - at % 4;
            let mut bytes = self.lent.read_word(Who::Secure, start).to_be_bytes();
            bytes[(at % 4) as usize] = byte;
            self.lent
                .write_word(Who::Secure, start, u32::from_be_bytes(bytes));
            return Ok(());
        }
        self.reach(at)?;
        self.put_byte_at(at, byte);
        Ok(())
    }
}

// The word at an address, in the payload of its block.
fn word_of(payload: &[u8; 64], at: u32) -> u32
    requires aligned { at % 4 ≡ 0 }
    ensures value { result ≡ word_at payload.now at }
{
    let first = (at % BLOCK_BYTES) as usize;
    u32::from_be_bytes([
        payload[first],
        payload[first + 1],
        payload[first + 2],
        payload[first + 3],
    ])
}

// The byte at an address, in the payload of its block.
fn byte_of(payload: &[u8; 64], at: u32) -> u32
    ensures value { result ≡ byte_at payload.now at }
{
    let bytes = word_of(payload, at - at % 4).to_be_bytes();
    bytes[(at % 4) as usize] as u32
}

// Puts a word at an address into the payload of its block.
fn put_word(payload: &mut [u8; 64], at: u32, word: u32)
    requires aligned { at % 4 ≡ 0 }
    ensures payload { payload.new ≡ with_word_at payload.old at word }
    ensures words { words_in (with_word_at payload.old at word)
        ≡ slice_set (words_in payload.old) (offset_at at / 4) word }
    ensures long { length payload.old ≡ 64 }
    ensures left_long { length payload.new ≡ 64 }
{
    let first = (at % BLOCK_BYTES) as usize;
    payload[first..first + 4].copy_from_slice(&word.to_be_bytes());
}

// Puts a byte at an address into the payload of its block.
fn put_byte(payload: &mut [u8; 64], at: u32, byte: u8)
    ensures payload { payload.new ≡ with_byte_at payload.old at byte }
    ensures words { words_in (with_byte_at payload.old at byte)
        ≡ slice_set (words_in payload.old) (offset_at at / 4)
        (with_byte (slice_index (words_in payload.old) (offset_at at / 4)) at byte) }
    ensures long { length payload.old ≡ 64 }
    ensures left_long { length payload.new ≡ 64 }
{
    let place = (at % BLOCK_BYTES) as usize;
    payload[place..place + 1].copy_from_slice(&[byte]);
}
