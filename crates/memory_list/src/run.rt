//! What a secure memory answers.
ghost use Rattle.std.specs.Prelude.{◌≡◌, ◌≤◌, [], false};
ghost use Rattle.std.specs.FinMap.{empty};
ghost use Rattle.off_chip.specs.BusCalls.{TellsOnly};
ghost use Rattle.off_chip.specs.OffChipBytes.{static_blocks};
ghost use Rattle.orbis_core.specs.Accesses.{IsSettled};
ghost use Rattle.stamp_log.specs.StandsOn.{IsNew};
ghost use Rattle.secure_memory.specs.MemorySights.{IsReady, sight_of};
ghost use Rattle.secure_memory.specs.MemoryStands.{IsOfLayout};

use crate::lines::Line;
use aegis_num::Key;
use aes_pad::Aes;
use anyhow::{Result, bail};
use hash_tree::Tree;
use line_cache::{LineCache, Lines};
use off_chip::{OffChip, blocks_of_tree};
use orbis_core::{Memory, Stop};
use regions::Layout;
use secure_memory::{PrivatePad, SecureMemory};
use stamp_log::StampLog;
use std::alloc::Global;

/// Ten data blocks, seven of which are static, and five blocks of the log.
pub(crate) fn ten_blocks() -> Layout
    ensures log { result.log ≡ 5 }
    ensures statics { static_blocks result ≡ 7 }
{
    Layout {
        verified: 1,
        private: 2,
        constants: 3,
        code: 4,
        log: 5,
        shared: 12,
    }
}

// What an access answers. A store that is done answers with 0.
fn answer<M: Memory>(memory: &mut M, line: Line) -> Result<u32, Stop>
    requires left { M.has_left memory.old 2 }
    ensures left { IsSettled result → M.has_left memory.new 1 }
{
    match line {
        Line::Fetch(at) => memory.fetch(at),
        Line::Word(at) => memory.load_word(at),
        Line::Byte(at) => memory.load_byte(at),
        Line::PutWord(at, word) => {
            memory.store_word(at, word)?;
            Ok(0)
        }
        Line::PutByte(at, byte) => {
            memory.store_byte(at, byte)?;
            Ok(0)
        }
        Line::Enter | Line::PrivateOn => Ok(0),
    }
}

// Whether the tree or the log stopped an access.
fn is_stopped(answer: Result<u32, Stop>) -> bool
    ensures settled { (result ≡ false) → IsSettled answer }
{
    matches!(answer, Err(Stop::Tree { .. } | Stop::Log { .. }))
}

// The mode unit does what a line says of it.
fn change_mode<O: OffChip, L: Lines>(memory: &mut SecureMemory<'_, O, L>, line: Line)
    requires ready { IsReady (sight_of L.lines O.trace O.room O.layout memory.old) }
    ensures ready { IsReady (sight_of L.lines O.trace O.room O.layout memory.new) }
    ensures bus { memory.new.lent.now ≡ memory.old.lent.now }
{
    match line {
        Line::Enter => {
            memory.modes().enter();
        }
        Line::PrivateOn => {
            memory.modes().private_on();
        }
        _ => {}
    }
}

// What a memory answers to each line, and how many events there are then. It ends where the tree or the log stops an access.
fn answers<O: OffChip, L: Lines>(
    alloc: Global,
    memory: &mut SecureMemory<'_, O, L>,
    lines: &[Line],
) -> Result<String>
    requires ready { IsReady (sight_of L.lines O.trace O.room O.layout memory.old) }
{
    let mut text = String::new(alloc);
    'each: for line in lines {
        change_mode(memory, *line);
        if memory.lent.room() < 320 {
            bail!("no room is left");
        }
        let answered = answer(memory, *line);
        let events = memory.lent.events();
        text.push_str(format!(in alloc; "{answered:?}, {events} events\n")?.as_str())?;
        if is_stopped(answered) {
            return Ok(text);
        }
    }
    Ok(text)
}

/// Enters a program on a bus, and tells what the memory answers to each line.
pub(crate) fn run_on<O: OffChip>(
    alloc: Global,
    bus: &mut O,
    layout: Layout,
    lines: &[Line],
) -> Result<String>
    requires unused { O.trace bus.old ≡ [] }
    requires log { layout.log ≡ 5 }
    requires statics { static_blocks layout ≡ 7 }
    requires has_room { 20000 ≤ O.room bus.old }
    requires told { TellsOnly layout (O.layout bus.old) }
{
    let _blocks = blocks_of_tree(&layout);
    let key = Key([7; 16]);
    let veil = PrivatePad::new(Aes::new(&key), layout);
    let tree = Tree::new(LineCache::new(alloc)?, veil, layout);
    let log = StampLog::new(alloc, layout.log, key)?;
    let mut memory = SecureMemory::new(bus, tree, log, layout);
    memory.enter();
    let text = answers(alloc, &mut memory, lines);
    let _parts = memory.parts();
    text
}
