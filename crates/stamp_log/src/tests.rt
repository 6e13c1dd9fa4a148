//! The log over a memory that answers each read with the last write, and over one in which a byte is changed once.
ghost use Rattle.std.specs.Prelude.{◌≡◌, ◌+◌, ◌<◌, ◌≤◌, [], IfOk, IfSome, IsTrue, is_some, length, true};
ghost use Rattle.off_chip.specs.BusCalls.{TellsLog};
ghost use Rattle.off_chip.specs.Histories.{History, history};
ghost use Rattle.off_chip.specs.OffChipBytes.{static_blocks};
ghost use Rattle.off_chip.specs.WriteBacks.{StampsFit};
ghost use Rattle.stamp_log.specs.LogState.{line_of};
ghost use Rattle.stamp_log.specs.StandsOn.{StandsOn};

use crate::{Changed, LogCause, StampLog};
use aegis_num::{Block, Key, OutOfMemory, Place, Stamps};
use off_chip::{Event, Mark, OffChip, PlainDram, Recorder, Trace, Who};
use regions::Layout;
use std::alloc::Global;
use std::test::Fail;

const KEY: Key = Key([0x0f; 16]);

// A byte of a block of the log is changed before the first event that comes when there were at least so many.
// The payload has the bytes 0 to 63, and the stamp those from 64 to 71, its greatest byte first.
#[derive(Clone, Copy)]
struct Change {
    at: u64,
    block: u32,
    byte: usize,
    mask: u8,
}

// Blocks of the log, of which one byte is changed once.
#[derive(Drop)]
struct Changing {
    layout: Layout,
    blocks: Vec<Block>,
    change: Change,
    recorder: Recorder,
}

// A layout that has blocks of the log alone.
fn layout_of(blocks: u32) -> Layout
    requires { blocks ≤ 1024 }
    ensures log { result.log ≡ blocks }
    ensures statics { static_blocks result ≡ 0 }
{
    Layout {
        verified: 0,
        private: 0,
        constants: 0,
        code: 0,
        log: blocks,
        shared: 0,
    }
}

fn change_block(block: &mut Block, byte: usize, mask: u8) {
    if byte < 64 {
        block.payload[byte] ^= mask;
    } else if byte < 72 {
        let mut stamp = block.stamp.to_be_bytes();
        stamp[byte - 64] ^= mask;
        block.stamp = u64::from_be_bytes(stamp);
    }
}

impl Changing {
    fn new(alloc: Global, blocks: u32, change: Change, room: u64) -> Result<Changing, OutOfMemory>
        requires { blocks ≤ 1024 }
        ensures layout { IfOk result (λ bus. bus.layout.log ≡ blocks) }
        ensures empty { IfOk result (λ bus. bus.recorder.trace ≡ []) }
        ensures room { IfOk result (λ bus. bus.recorder.room ≡ room) }
    {
        let zeros = Block {
            payload: [0; 64],
            stamp: 0,
        };
        Ok(Changing {
            layout: layout_of(blocks),
            blocks: vec![in alloc; zeros; blocks as usize]?,
            change,
            recorder: Recorder::new(alloc, room)?,
        })
    }

    fn change_if_due(&mut self)
        ensures layout { self.new.layout ≡ self.old.layout }
        ensures recorder { self.new.recorder ≡ self.old.recorder }
    {
        if self.recorder.events() != self.change.at {
            return;
        }
        if let Some(block) = self.blocks.get_mut(self.change.block as usize) {
            change_block(block, self.change.byte, self.change.mask);
        }
    }
}

impl OffChip for Changing {
    ghost use Rattle.std.specs.Prelude.{◌≡◌, Some, None};
    ghost use Rattle.std.proofs.Common.{refl, ap, ◌∙◌};

    ghost trace = { λ d. d.recorder.trace };

    ghost room = { λ d. d.recorder.room };

    ghost layout = { λ d. Some d.layout };

    ghost contents = { λ d. None };

    ghost same_memory = { λ a b. a.layout ≡ b.layout };

    fn room(&self) -> u64 {
        self.recorder.room()
    }

    fn events(&self) -> u64 {
        self.recorder.events()
    }

    fn read_block(&mut self, at: Place, into: &mut Block) {
        self.change_if_due();
        if let Place::Log(n) = at {
            if let Some(block) = self.blocks.get(n as usize) {
                *into = *block;
            }
        }
        self.recorder.append(Event::BlockRead { at, block: *into });
    }

    fn write_block(&mut self, at: Place, block: &Block) {
        self.change_if_due();
        if let Place::Log(n) = at {
            if let Some(place) = self.blocks.get_mut(n as usize) {
                *place = *block;
            }
        }
        self.recorder
            .append(Event::BlockWrite { at, block: *block });
    }

    fn read_word(&mut self, by: Who, at: u32) -> u32 {
        self.recorder.append(Event::WordRead { by, at, word: 0 });
        0
    }

    fn write_word(&mut self, by: Who, at: u32, word: u32) {
        self.recorder.append(Event::WordWrite { by, at, word });
    }

    fn note(&mut self, mark: Mark) {
        self.change_if_due();
        self.recorder.append(Event::Note(mark));
    }

    ghost reflexive = { λ a. refl };

    ghost transitive = { λ a b c p q. p ∙ q };

    ghost same_layout = { λ a b p. ap Some p };
}

// A log that is started on a bus with no event yet.
fn begin<O: OffChip>(
    alloc: Global,
    bus: &mut O,
    stamps: &mut Stamps,
    blocks: u32,
) -> Result<StampLog, OutOfMemory>
    requires few { blocks ≤ 1024 }
    requires empty { O.trace bus.old ≡ [] }
    requires first { stamps.old ≡ 0 }
    requires has_room { blocks ≤ O.room bus.old }
    requires told { TellsLog blocks (O.layout bus.old) }
    ensures blocks { IfOk result (λ log. log.blocks ≡ blocks) }
    ensures stands { IfOk result (λ log. StandsOn log (history (O.trace bus.new))) }
    ensures fits { IfOk result (λ log. StampsFit stamps.new (history (O.trace bus.new))) }
    ensures told { IfOk result (λ log. TellsLog blocks (O.layout bus.new)) }
    ensures room { IfOk result (λ log. O.room bus.old ≤ O.room bus.new + blocks) }
{
    let mut log = StampLog::new(alloc, blocks, KEY)?;
    log.start(bus, stamps);
    Ok(log)
}

// How a load of the one block of a log ends, and the check after it, and whether the log was quiet then.
#[derive(Clone, Copy, Debug, PartialEq, Eq)]
enum Answer {
    Stopped(Changed, bool),
    Checked(Result<(), LogCause>, bool),
}

fn load_and_check<O: OffChip>(alloc: Global, bus: &mut O) -> Result<Answer, OutOfMemory>
    requires empty { O.trace bus.old ≡ [] }
    requires has_room { 40 ≤ O.room bus.old }
    requires told { TellsLog 1 (O.layout bus.old) }
{
    let mut stamps = Stamps::new();
    let mut log = begin(alloc, bus, &mut stamps, 1)?;
    if let Err(changed) = log.load(bus, &mut stamps, 0) {
        return Ok(Answer::Stopped(changed, log.quiet()));
    }
    let quiet = log.quiet();
    Ok(Answer::Checked(log.check(bus, &mut stamps), quiet))
}

// Checks a log, and says whether the check passed.
fn checks<O: OffChip>(log: &mut StampLog, bus: &mut O, stamps: &mut Stamps) -> bool
    requires told { TellsLog log.old.blocks (O.layout bus.old) }
    requires stands { StandsOn log.old (history (O.trace bus.old)) }
    requires fits { StampsFit stamps.old (history (O.trace bus.old)) }
    requires has_room { log.old.blocks + 34 ≤ O.room bus.old }
    ensures blocks { log.new.blocks ≡ log.old.blocks }
    ensures told { TellsLog log.old.blocks (O.layout bus.new) }
    ensures stands { IsTrue result → StandsOn log.new (history (O.trace bus.new)) }
    ensures fits { StampsFit stamps.new (history (O.trace bus.new)) }
    ensures room { O.room bus.old ≤ O.room bus.new + (log.old.blocks + 34) }
{
    log.check(bus, stamps).is_ok()
}

// Checks a log of one block twice, and says whether each check passed, and whether the log was quiet before and after each.
fn check_twice<O: OffChip>(alloc: Global, bus: &mut O) -> Result<[bool; 5], OutOfMemory>
    requires empty { O.trace bus.old ≡ [] }
    requires has_room { 80 ≤ O.room bus.old }
    requires told { TellsLog 1 (O.layout bus.old) }
{
    let mut stamps = Stamps::new();
    let mut log = begin(alloc, bus, &mut stamps, 1)?;
    let before = log.quiet();
    if !checks(&mut log, bus, &mut stamps) {
        return Ok([before, false, false, false, false]);
    }
    let between = log.quiet();
    let second = checks(&mut log, bus, &mut stamps);
    Ok([before, true, between, second, log.quiet()])
}

// The payload of a block's line gets a byte, and so do the bytes that are expected of it.
fn store(log: &mut StampLog, expected: &mut [u8], block: u32, place: usize, byte: u8)
    requires below { block < log.old.blocks }
    requires cached { is_some (line_of log.old.lines block) ≡ true }
    requires place { place < 64 }
    requires expected { length expected.old ≡ 64 }
    ensures stands { (older : History) → StandsOn log.old older → StandsOn log.new older }
    ensures blocks { log.new.blocks ≡ log.old.blocks }
{
    log.payload_mut(block)[place] = byte;
    expected[place] = byte;
}

// Loads a block and compares it with what is expected, and then changes a byte of it, as a number says. Says whether
// it was as expected; or nothing, where the load did not succeed.
fn load_and_store<O: OffChip>(
    log: &mut StampLog,
    bus: &mut O,
    stamps: &mut Stamps,
    expected: &mut [u8],
    choice: u32,
) -> Option<bool>
    requires blocks { log.old.blocks ≡ 100 }
    requires told { TellsLog log.old.blocks (O.layout bus.old) }
    requires stands { StandsOn log.old (history (O.trace bus.old)) }
    requires fits { StampsFit stamps.old (history (O.trace bus.old)) }
    requires has_room { 2 ≤ O.room bus.old }
    requires expected { length expected.old ≡ 6400 }
    ensures blocks { log.new.blocks ≡ log.old.blocks }
    ensures told { TellsLog log.old.blocks (O.layout bus.new) }
    ensures stands { IfSome result (λ _. StandsOn log.new (history (O.trace bus.new))) }
    ensures fits { StampsFit stamps.new (history (O.trace bus.new)) }
    ensures room { O.room bus.old ≤ O.room bus.new + 2 }
{
    let block = choice % 100;
    if log.load(bus, stamps, block).is_err() {
        return None;
    }
    let at = 64 * block as usize;
    let part = &mut expected[at..at + 64];
    let same = log.payload(block)[..] == part[..];
    let place = (choice / 128) as usize % 64;
    if choice % 3 > 0 {
        store(log, part, block, place, (choice / 8192 % 256) as u8);
    }
    Some(same)
}

// What came of many calls.
#[derive(Clone, Copy, Debug, PartialEq, Eq)]
enum Played {
    // A call did not succeed. Whether a load before it, since the latest check that passed, gave what was not expected.
    Stopped(bool),
    // All loads gave what was expected, and the last check passed.
    Passed,
    // A check passed after a load that gave what was not expected.
    Missed,
}

// Loads and stores of 100 blocks, in an order that looks random, and a check after each 100 of them.
fn play<O: OffChip>(
    log: &mut StampLog,
    bus: &mut O,
    stamps: &mut Stamps,
    expected: &mut [u8],
    turns: u32,
) -> Played
    requires blocks { log.old.blocks ≡ 100 }
    requires told { TellsLog log.old.blocks (O.layout bus.old) }
    requires stands { StandsOn log.old (history (O.trace bus.old)) }
    requires fits { StampsFit stamps.old (history (O.trace bus.old)) }
    requires expected { length expected.old ≡ 6400 }
{
    let mut state = 1u64;
    let mut wrong = false;
    'turns: for turn in 0..turns {
        if bus.room() < 136 {
            return Played::Stopped(wrong);
        }
        state = state
            .wrapping_mul(6_364_136_223_846_793_005)
            .wrapping_add(1_442_695_040_888_963_407);
        match load_and_store(log, bus, stamps, expected, (state >> 33) as u32) {
            Some(same) => wrong = wrong || !same,
            None => return Played::Stopped(wrong),
        }
        if turn % 100 == 99 {
            if !checks(log, bus, stamps) {
                return Played::Stopped(wrong);
            }
            if wrong {
                return Played::Missed;
            }
        }
    }
    Played::Passed
}

// The same calls on a bus with no event yet.
fn play_on<O: OffChip>(alloc: Global, bus: &mut O, turns: u32) -> Result<Played, OutOfMemory>
    requires empty { O.trace bus.old ≡ [] }
    requires has_room { 100 ≤ O.room bus.old }
    requires told { TellsLog 100 (O.layout bus.old) }
{
    let mut stamps = Stamps::new();
    let mut log = begin(alloc, bus, &mut stamps, 100)?;
    let mut expected = vec![in alloc; 0; 6400]?;
    Ok(play(&mut log, bus, &mut stamps, expected.as_mut_slice(), turns))
}

// Whether some read of an epoch of the log that a passed check ended is not of the block that was written last, and
// whether one of the open epoch is.
fn unfaithful_reads(alloc: Global, trace: &Trace) -> Result<(bool, bool), OutOfMemory> {
    let zeros = Block {
        payload: [0; 64],
        stamp: 0,
    };
    let mut written = vec![in alloc; zeros; 100]?;
    let mut ended = false;
    let mut open = false;
    for event in trace.events() {
        match event {
            Event::BlockWrite {
                at: Place::Log(n),
                block,
            } => {
                if let Some(place) = written.get_mut(*n as usize) {
                    *place = *block;
                }
            }
            Event::BlockRead {
                at: Place::Log(n),
                block,
            } => open = open || written.get(*n as usize) != Some(block),
            Event::Note(Mark::CheckPassed) => {
                ended = ended || open;
                open = false;
            }
            _ => {}
        }
    }
    Ok((ended, open))
}

fn zeros(stamp: u64) -> Block {
    Block {
        payload: [0; 64],
        stamp,
    }
}

const ONE: Place = Place::Log(0);

#[test]
fn starts_loads_and_checks(rt: HostRuntime) -> Result<(), Fail> {
    let mut dram = PlainDram::new(rt.alloc(), &layout_of(1), &[], 64)?;
    let answer = load_and_check(rt.alloc(), &mut dram)?;
    assert_eq!(rt; answer, Answer::Checked(Ok(()), false));
    let trace = dram.into_trace();
    let events = [
        Event::BlockWrite {
            at: ONE,
            block: zeros(1),
        },
        Event::BlockRead {
            at: ONE,
            block: zeros(1),
        },
        Event::Note(Mark::CheckStart),
        Event::BlockWrite {
            at: ONE,
            block: zeros(2),
        },
        Event::BlockRead {
            at: ONE,
            block: zeros(2),
        },
        Event::Note(Mark::CheckPassed),
    ];
    assert_eq!(rt; trace.events(), &events[..]);
    let mut unread = PlainDram::new(rt.alloc(), &layout_of(1), &[], 80)?;
    assert_eq!(rt; check_twice(rt.alloc(), &mut unread)?, [true; 5]);
    Ok(())
}

#[test]
fn finds_a_changed_payload_and_a_changed_stamp(rt: HostRuntime) -> Result<(), Fail> {
    let payload = Change {
        at: 1,
        block: 0,
        byte: 0,
        mask: 0x41,
    };
    let mut bus = Changing::new(rt.alloc(), 1, payload, 64)?;
    match load_and_check(rt.alloc(), &mut bus)? {
        Answer::Checked(Err(LogCause::Sums { read, written }), quiet) => {
            assert_eq!(rt; (read.count, written.count), (2, 2));
            assert!(rt; read.sum != written.sum);
            assert!(rt; !quiet);
        }
        other => assert!(rt; false, "{other:?}"),
    }
    let stamp = Change {
        at: 1,
        block: 0,
        byte: 64,
        mask: 0xff,
    };
    let mut later = Changing::new(rt.alloc(), 1, stamp, 64)?;
    let answer = load_and_check(rt.alloc(), &mut later)?;
    assert_eq!(rt; answer, Answer::Stopped(Changed { event: 1 }, true));
    Ok(())
}

#[test]
fn gives_what_was_stored(rt: HostRuntime) -> Result<(), Fail> {
    let mut dram = PlainDram::new(rt.alloc(), &layout_of(100), &[], 8192)?;
    let played = play_on(rt.alloc(), &mut dram, 1000)?;
    assert_eq!(rt; played, Played::Passed);
    let trace = dram.into_trace();
    assert_eq!(rt; unfaithful_reads(rt.alloc(), &trace)?, (false, false));
    Ok(())
}

// A bit of some block is changed before each event in turn: no check passes that ends an epoch with a read of what
// was not written last, and what is read in between is never taken for what was stored.
#[test]
fn finds_a_bit_that_is_changed_at_any_event(rt: HostRuntime) -> Result<(), Fail> {
    let mut stopped = 0u32;
    for at in 100..1000u64 {
        let change = Change {
            at,
            block: (at * 37 % 100) as u32,
            byte: (at * 11 % 72) as usize,
            mask: 1 << (at % 8),
        };
        let mut bus = Changing::new(rt.alloc(), 100, change, 1024)?;
        let played = play_on(rt.alloc(), &mut bus, 300)?;
        let (ended, open) = unfaithful_reads(rt.alloc(), &bus.recorder.into_trace())?;
        assert!(rt; !ended, "at {at}");
        match played {
            Played::Stopped(wrong) => {
                assert!(rt; open || !wrong, "at {at}");
                stopped = stopped.wrapping_add(1);
            }
            Played::Passed => assert!(rt; !open, "at {at}"),
            Played::Missed => assert!(rt; false, "at {at}"),
        }
    }
    assert!(rt; stopped > 0);
    Ok(())
}
