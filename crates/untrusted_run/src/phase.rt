//! A phase of untrusted code, from the suspension of the secure program to its end.
ghost use Rattle.std.specs.Prelude.{◌≡◌, ℕ, ◌+◌, ◌*◌, ◌≤◌, ◌++◌, List, length};
ghost use Rattle.off_chip.specs.declared.event.Event.{Event as SomeEvent};
ghost use Rattle.untrusted_run.specs.PhaseParts.{DoesInstruction};
ghost use Rattle.untrusted_run.specs.Phases.{IsPhase};

use crate::words::OpenWords;
use off_chip::{Mark, OffChip, Who};
use orbis_core::{Core, Port, StepEnd, step};
use regions::UNTRUSTED_START;

/// How many instructions untrusted code may do in one phase.
pub const MAX_INSTRUCTIONS: u32 = 4096;

/// How a phase of untrusted code ends.
#[derive(Clone, Copy, Debug, PartialEq, Eq)]
pub enum UntrustedEnd {
    /// It did its resume instruction.
    Resumed,
    /// An instruction was refused: it is none, divides by zero, is misaligned, accesses or is fetched from an address
    /// that is not open, or is a secure one other than resume. It was not done.
    Refused,
    /// It did `MAX_INSTRUCTIONS` instructions, none of which was resume.
    Watchdog,
}

/// Runs untrusted code from `UNTRUSTED_START` with zero registers. Takes room for four events an instruction, 16,384 in all.
pub fn run_untrusted<O: OffChip>(bus: &mut O) -> UntrustedEnd
    requires has_room { 4 * MAX_INSTRUCTIONS ≤ O.room bus.old }
    ensures phase { (events : List SomeEvent) × (O.trace bus.new ≡ O.trace bus.old ++ events)
        × IsPhase events result }
    ensures room { O.room bus.old ≤ O.room bus.new + 4 * MAX_INSTRUCTIONS }
    ensures total { length (O.trace bus.new) + O.room bus.new ≡ length (O.trace bus.old) + O.room bus.old }
    ensures same { O.same_memory bus.old bus.new }
{
    let mut words = OpenWords { bus };
    let end = run_words(&mut words);
    let OpenWords { bus: _ } = words;
    end
}

// Runs untrusted code over the open words.
fn run_words<O: OffChip>(words: &mut OpenWords<'_, O>) -> UntrustedEnd
    requires has_room { 4 * MAX_INSTRUCTIONS ≤ O.room words.old.bus.now }
    ensures phase { (events : List SomeEvent) × (O.trace words.new.bus.now ≡ O.trace words.old.bus.now ++ events)
        × IsPhase events result }
    ensures room { O.room words.old.bus.now ≤ O.room words.new.bus.now + 4 * MAX_INSTRUCTIONS }
    ensures total { length (O.trace words.new.bus.now) + O.room words.new.bus.now
        ≡ length (O.trace words.old.bus.now) + O.room words.old.bus.now }
    ensures same { O.same_memory words.old.bus.now words.new.bus.now }
    ensures same_reference { words.new.bus.ghost_name ≡ words.old.bus.ghost_name }
{
    let mut core = Core::new(UNTRUSTED_START);
    'instructions: for _ in 0..MAX_INSTRUCTIONS {
        if let Some(end) = run_instruction(&mut core, words) {
            return end;
        }
    }
    UntrustedEnd::Watchdog
}

// Runs one instruction. It answers how the phase ends, where it ends with it.
fn run_instruction<O: OffChip>(
    core: &mut Core,
    words: &mut OpenWords<'_, O>,
) -> Option<UntrustedEnd>
    requires has_room { 4 ≤ O.room words.old.bus.now }
    ensures does { (events : List SomeEvent) × (O.trace words.new.bus.now ≡ O.trace words.old.bus.now ++ events)
        × DoesInstruction core.old core.new result events }
    ensures total { length (O.trace words.new.bus.now) + O.room words.new.bus.now
        ≡ length (O.trace words.old.bus.now) + O.room words.old.bus.now }
    ensures same { O.same_memory words.old.bus.now words.new.bus.now }
    ensures same_reference { words.new.bus.ghost_name ≡ words.old.bus.ghost_name }
{
    let mut port = Port {
        input: &[],
        next: 0,
    };
    match step(core, words, &mut port) {
        StepEnd::Next => {
            words.bus.note(Mark::Retire(Who::Untrusted));
            None
        }
        StepEnd::Resume => {
            words.bus.note(Mark::Retire(Who::Untrusted));
            Some(UntrustedEnd::Resumed)
        }
        _ => Some(UntrustedEnd::Refused),
    }
}
