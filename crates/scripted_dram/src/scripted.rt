//! A memory that an adversary changes as a script says.
ghost use Rattle.std.specs.Prelude.{◌≡◌, ◌*◌, ◌+◌, ◌<◌, ◌^◌, [], length, IfOk, if◌then◌else◌};
ghost use Rattle.off_chip.specs.OffChipBytes.{static_blocks};
ghost use Rattle.scripted_dram.specs.DueChanges.{IsPassed};
ghost use Rattle.scripted_dram.specs.declared.due.Count.TheVariants.{Events, Suspensions};
ghost use Rattle.off_chip.specs.Boundaries.{is_suspend};
ghost use Rattle.off_chip.specs.declared.event.Event.TheVariants.{Note};
ghost use Rattle.scripted_dram.specs.ScriptMemory.{IsAnsweredBy, changes_at, is_at_suspension, is_before_event};
ghost use Rattle.scripted_dram.specs.StoredStates.{all_stored};

use crate::due::{Count, do_at_start, do_due};
use crate::storage::Storage;
use adversary_script::Script;
use aegis_num::{Block, OutOfMemory, Place};
use off_chip::{Event, Mark, OffChip, Recorder, Trace, Who};
use regions::Layout;
use std::alloc::Global;
use std::marker::Model;

/// Off-chip memory that begins as the plain one does and is changed as a script says. All of it is one region: the
/// open bytes, then each block of the tree and each block of the log in 72 bytes.
///
/// A `start` change is done when the memory is made, and an `at` change before the first event that comes when
/// there were at least so many. The suspensions are counted from 0, and a `suspend` change is done right after its own.
/// The script is gone through once in the whole run, so an event costs the same, however many changes it has.
#[derive(Drop)]
pub struct ScriptedDram {
    storage: Storage,
    statics: Vec<u8>,
    script: Script,
    suspensions: u64,
    next_at: usize,
    next_suspend: usize,
    recorder: Recorder,
}

impl Model for ScriptedDram {
    ghost use Rattle.scripted_dram.specs.ScriptedInvariant.{IsScriptedMemory};
    ghost use Rattle.scripted_dram.specs.ScriptedValues.{Scripted};

    ghost Value = { Scripted };

    ghost view = { λ d. record {
      layout = d.storage.layout;
      statics = d.statics.items;
      script = d.script;
      trace = d.recorder.trace;
      room = d.recorder.room;
    } };

    ghost invariant = { λ d. IsScriptedMemory d.storage.layout d.statics.items d.script
        d.recorder.trace d.storage.state d.suspensions d.next_at d.next_suspend };
}

// Whether a mark is that of a suspension.
fn is_suspend(mark: Mark) -> bool
    ensures { result ≡ is_suspend (Note mark) }
{
    matches!(mark, Mark::Suspend)
}

// Does the changes that are due before the event of this number, and answers where the cursor stands then.
fn do_before(storage: &mut Storage, script: &Script, cursor: usize, events: u64) -> usize
    requires { IsPassed Events events script.now cursor }
    ensures done { storage.new ≡ all_stored (changes_at (is_before_event events) script.now) storage.old }
    ensures passed { IsPassed Events (events + 1) script.now result }
{
    do_due(storage, script.as_slice(), cursor, Count::Events, events)
}

// Does the changes that follow a mark after so many suspensions, and answers where the cursor stands then.
fn do_after(
    storage: &mut Storage,
    script: &Script,
    mark: Mark,
    cursor: usize,
    suspensions: u64,
) -> usize
    requires { IsPassed Suspensions suspensions script.now cursor }
    ensures done { storage.new ≡ all_stored (if is_suspend (Note mark)
        then changes_at (is_at_suspension suspensions) script.now else []) storage.old }
    ensures passed { IsPassed Suspensions (if is_suspend (Note mark) then suspensions + 1 else suspensions)
        script.now result }
{
    if is_suspend(mark) {
        return do_due(
            storage,
            script.as_slice(),
            cursor,
            Count::Suspensions,
            suspensions,
        );
    }
    cursor
}

// How many suspensions there are after a mark.
fn suspensions_after(mark: Mark, suspensions: u64) -> u64
    requires { suspensions + 1 < 2 ^ 64 }
    ensures { result ≡ (if is_suspend (Note mark) then suspensions + 1 else suspensions) }
{
    if is_suspend(mark) {
        suspensions + 1
    } else {
        suspensions
    }
}

impl ScriptedDram {
    /// A memory with no event yet, and room for so many. `statics` has the payloads of the constant blocks and
    /// then those of the code blocks, 64 bytes each. All memory is taken here, and that it ran out is the one error.
    pub fn new(
        alloc: Global,
        layout: &Layout,
        statics: &[u8],
        script: Script,
        room: u64,
    ) -> Result<ScriptedDram, OutOfMemory>
        requires statics { length statics.now ≡ 64 * static_blocks layout.now }
        ensures layout { IfOk result (λ dram. dram.layout ≡ layout.now) }
        ensures statics { IfOk result (λ dram. dram.statics ≡ statics.now) }
        ensures script { IfOk result (λ dram. dram.script ≡ script) }
        ensures empty { IfOk result (λ dram. dram.trace ≡ []) }
        ensures room { IfOk result (λ dram. dram.room ≡ room) }
    {
        let recorder = Recorder::new(alloc, room)?;
        let statics_kept = Vec::from_slice(alloc, statics)?;
        let mut storage = Storage::new(alloc, layout, statics)?;
        do_at_start(&mut storage, script.as_slice());
        Ok(ScriptedDram {
            storage,
            statics: statics_kept,
            script,
            suspensions: 0,
            next_at: 0,
            next_suspend: 0,
            recorder,
        })
    }

    /// The events of all calls, oldest first.
    pub fn into_trace(self) -> Trace
        ensures events { result ≡ self.trace }

        // Each read holds the bytes that the script left at its place just before it.
        ensures answered { IsAnsweredBy self.layout self.statics self.script result }
    {
        self.recorder.into_trace()
    }
}

impl OffChip for ScriptedDram {
    ghost use Rattle.std.specs.Prelude.{Some};
    ghost use Rattle.std.proofs.Common.{refl, ap, ◌∙◌};
    ghost use Rattle.scripted_dram.specs.ScriptedValues.{SameScripted, scripted_contents};

    ghost trace = { λ d. d.trace };

    ghost room = { λ d. d.room };

    ghost layout = { λ d. Some d.layout };

    ghost contents = { λ d. Some (scripted_contents d) };

    ghost same_memory = { SameScripted };

    fn room(&self) -> u64 {
        self.recorder.room()
    }

    fn events(&self) -> u64 {
        self.recorder.events()
    }

    fn read_block(&mut self, at: Place, into: &mut Block) {
        let events = self.recorder.events();
        self.next_at = do_before(&mut self.storage, &self.script, self.next_at, events);
        *into = self.storage.read_block(at);
        self.recorder.append(Event::BlockRead { at, block: *into });
    }

    fn write_block(&mut self, at: Place, block: &Block) {
        let events = self.recorder.events();
        self.next_at = do_before(&mut self.storage, &self.script, self.next_at, events);
        self.storage.write_block(at, block);
        self.recorder
            .append(Event::BlockWrite { at, block: *block });
    }

    fn read_word(&mut self, by: Who, at: u32) -> u32 {
        let events = self.recorder.events();
        self.next_at = do_before(&mut self.storage, &self.script, self.next_at, events);
        let word = self.storage.read_word(by, at);
        self.recorder.append(Event::WordRead { by, at, word });
        word
    }

    fn write_word(&mut self, by: Who, at: u32, word: u32) {
        let events = self.recorder.events();
        self.next_at = do_before(&mut self.storage, &self.script, self.next_at, events);
        self.storage.write_word(by, at, word);
        self.recorder.append(Event::WordWrite { by, at, word });
    }

    fn note(&mut self, mark: Mark) {
        let events = self.recorder.events();
        self.next_at = do_before(&mut self.storage, &self.script, self.next_at, events);
        self.next_suspend = do_after(
            &mut self.storage,
            &self.script,
            mark,
            self.next_suspend,
            self.suspensions,
        );
        self.suspensions = suspensions_after(mark, self.suspensions);
        self.recorder.append(Event::Note(mark));
    }

    ghost reflexive = { λ a. record { layout = refl; statics = refl; script = refl } };

    ghost transitive = { λ a b c p q. record {
      layout = p.layout ∙ q.layout;
      statics = p.statics ∙ q.statics;
      script = p.script ∙ q.script;
    } };

    ghost same_layout = { λ a b p. ap Some p.layout };
}
