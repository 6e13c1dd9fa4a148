//! One instruction of the secure program, with all that belongs to it.
ghost use Rattle.std.specs.Prelude.{◌≡◌, ℕ, true, ◌+◌, ◌%◌, ◌^◌, ◌==◌, ◌<◌, ◌≤◌, List, [], length, IsTrue, IfErr, OnOk, ◌↔◌};
ghost use Rattle.regions.specs.Modes.{is_secure};
ghost use Rattle.off_chip.specs.Epochs.{IsQuiet};
ghost use Rattle.off_chip.specs.Histories.{history};
ghost use Rattle.orbis_core.specs.OwnMemory.{is_permitted, secure_of_end};
ghost use Rattle.bus_machine.specs.BusData.{most_held};
ghost use Rattle.bus_machine.specs.BusMachine.{LoadedProgram};
ghost use Rattle.aegis_machine.specs.declared.instructions.Done.TheVariants.{Goes};
ghost use Rattle.aegis_machine.specs.declared.instructions.Fault.TheVariants.{Sink as SinkFails};
ghost use Rattle.aegis_machine.specs.Follows.{Comes, Finishes, Follows, answer_of};
ghost use Rattle.aegis_machine.specs.Guards.{LeadsOn, room_after};
ghost use Rattle.aegis_machine.specs.InstructionsDone.{DoesSo, HandsOut, Releases, Settles};
ghost use Rattle.aegis_machine.specs.Outcomes.{LeavesTied, TakesMore, done_of, done_stopped};
ghost use Rattle.aegis_machine.specs.Releases.{mark_sent};
ghost use Rattle.aegis_machine.specs.Ties.{IsTied};

use crate::guarded::Guarded;
use crate::held::{Held, MAX_HELD};
use aegis_edge::Sink;
use off_chip::{Mark, Who};
use orbis_core::{Core, Port, StepEnd, Stop, Why, step};
use regions::Mode;
use stamp_log::LogCause;

/// What ends a run after a step that was done.
#[derive(Clone, Copy, Debug, PartialEq, Eq)]
pub enum Fault {
    /// A check did not pass.
    Log(LogCause),
    /// The sink did not take a piece.
    Sink,
}

/// Whether the mode permits the instruction whose step ended so.
pub fn permits(mode: Mode, end: StepEnd) -> bool
    ensures { result ≡ is_permitted (secure_of_end end) mode }
{
    let secure = matches!(mode, Mode::Te | Mode::Ptr);
    match end {
        StepEnd::Next | StepEnd::Stopped(_) => true,
        StepEnd::Private(on) => mode == if on { Mode::Te } else { Mode::Ptr },
        StepEnd::Enter => mode == Mode::Std,
        StepEnd::Resume => mode == Mode::Ssp,
        _ => secure,
    }
}

/// How an instruction of the secure program left the machine.
#[derive(Clone, Copy, Debug, PartialEq, Eq)]
pub enum Done {
    /// It was done, and the next one follows.
    Goes,
    /// It ended the program.
    Ended,
    /// It ended the program at an index out of range, at this place.
    Index(u32),
    /// It ended the program at a zero divisor, at this place.
    Divide(u32),
    /// It was refused.
    Refused(Why),
    /// A block of the tree was changed: this is the number of its read among the events.
    Tree(u64),
    /// A block of the log bears the stamp of a write that was not made: this is the number of its read among the events.
    Log(u64),
    /// It was done, and then a check or the sink failed.
    Fault(Fault),
}

// Makes a check, and sends what is held after it.
fn settle<M: Guarded, K: Sink>(mem: &mut M, held: &mut Held, out: &mut K) -> Result<(), Fault>
    requires ready { M.ready mem.old }
    requires has_room { 1059 ≤ M.room mem.old }
    requires takes { TakesMore (K.limit out.old) MAX_HELD }
    requires most { length held.old ≤ MAX_HELD }
    ensures does { (piece : List ℕ)
        × Comes M.sight M.Caused true (Settles held.old) (λ mode. mode) result held.new piece mem.old mem.new
        × HandsOut (answer_of result) (K.written out.old) (K.written out.new)
        (K.faults out.old) (K.faults out.new) (K.limit out.old) (K.limit out.new) piece }
    ensures room { M.room mem.old ≤ M.room mem.new + 1059 }
    ensures ready { OnOk result (M.ready mem.new) }
    ensures kept { M.Keeps mem.old mem.new }
    ensures empty { OnOk result (held.new ≡ []) }
{
    if let Err(cause) = mem.check() {
        return Err(Fault::Log(cause));
    }
    send(mem, held, out)
}

// Sends what is held.
fn send<M: Guarded, K: Sink>(mem: &mut M, held: &mut Held, out: &mut K) -> Result<(), Fault>
    requires ready { M.ready mem.old }
    requires has_room { 1 ≤ M.room mem.old }
    requires takes { TakesMore (K.limit out.old) MAX_HELD }
    requires most { length held.old ≤ MAX_HELD }
    ensures event { LeadsOn M.sight (mark_sent held.old) mem.old mem.new }
    ensures hands { HandsOut (answer_of result) (K.written out.old) (K.written out.new)
        (K.faults out.old) (K.faults out.new) (K.limit out.old) (K.limit out.new) held.old }
    ensures fault { IfErr result (λ fault. fault ≡ SinkFails) }
    ensures room { M.room mem.old ≤ M.room mem.new + 1 }
    ensures ready { M.ready mem.new }
    ensures kept { M.Keeps mem.old mem.new }
    ensures empty { held.new ≡ [] }
{
    match held.send(mem, out) {
        Ok(()) => Ok(()),
        Err(_fault) => Err(Fault::Sink),
    }
}

// Whether a byte that is released is sent at once: nothing is held, and no read waits for a check.
fn sends_at_once<M: Guarded>(mem: &M, held: &Held) -> bool
    requires ready { M.ready mem.now }
    ensures { IsTrue result ↔ ((held.now ≡ []) × IsQuiet (history (M.sight.trace mem.now))) }
{
    held.is_empty() && mem.quiet()
}

// Releases a byte: it is sent at once where nothing is held and no read waits for a check. Else it is held, and where as many
// are held as can be, a check is made and they are sent.
fn release<M: Guarded, K: Sink>(
    mem: &mut M,
    held: &mut Held,
    out: &mut K,
    byte: u8,
) -> Result<(), Fault>
    requires ready { M.ready mem.old }
    requires has_room { 1059 ≤ M.room mem.old }
    requires takes { TakesMore (K.limit out.old) MAX_HELD }
    requires few { length held.old < MAX_HELD }
    ensures does { (piece : List ℕ)
        × Comes M.sight M.Caused (length held.old + 1 == most_held)
        (Releases (history (M.sight.trace mem.old)) (byte % 2 ^ 8) held.old) (λ mode. mode)
        result held.new piece mem.old mem.new
        × HandsOut (answer_of result) (K.written out.old) (K.written out.new)
        (K.faults out.old) (K.faults out.new) (K.limit out.old) (K.limit out.new) piece }
    ensures room { M.room mem.old ≤ M.room mem.new + 1059 }
    ensures ready { OnOk result (M.ready mem.new) }
    ensures kept { M.Keeps mem.old mem.new }
    ensures few { OnOk result (length held.new < MAX_HELD) }
{
    let at_once = sends_at_once(mem, held);
    held.hold(byte);
    if at_once {
        return send(mem, held, out);
    }
    if held.is_full() {
        return settle(mem, held, out);
    }
    Ok(())
}

// Does what belongs to an instruction after its step.
fn follow_up<M: Guarded, K: Sink>(
    mem: &mut M,
    held: &mut Held,
    out: &mut K,
    end: StepEnd,
) -> Result<(), Fault>
    requires ready { M.ready mem.old }
    requires permitted { is_permitted (secure_of_end end) (M.sight.mode mem.old) ≡ true }
    requires has_room { room_after end ≤ M.room mem.old }
    requires takes { TakesMore (K.limit out.old) MAX_HELD }
    requires few { length held.old < MAX_HELD }
    ensures does { (piece : List ℕ)
        × Follows M.sight M.Caused end result held.old held.new piece mem.old mem.new
        × HandsOut (answer_of result) (K.written out.old) (K.written out.new)
        (K.faults out.old) (K.faults out.new) (K.limit out.old) (K.limit out.new) piece }
    ensures room { M.room mem.old < M.room mem.new + room_after end }
    ensures ready { OnOk result (M.ready mem.new) }
    ensures kept { M.Keeps mem.old mem.new }
    ensures few { OnOk result (length held.new < MAX_HELD) }
{
    match end {
        StepEnd::Released(byte) => release(mem, held, out, byte),
        StepEnd::Check => settle(mem, held, out),
        StepEnd::Exit => settle(mem, held, out),
        StepEnd::Index(_) => settle(mem, held, out),
        StepEnd::Divide(_) => settle(mem, held, out),
        StepEnd::Suspend => {
            mem.suspend();
            Ok(())
        }
        StepEnd::Private(on) => {
            mem.set_private(on);
            Ok(())
        }
        StepEnd::Next => Ok(()),
        StepEnd::Input => Ok(()),
        StepEnd::Resume => Ok(()),
        StepEnd::Enter => Ok(()),
        StepEnd::Stopped(_) => Ok(()),
    }
}

// Does what belongs to an instruction after its step, and notes that it is done.
fn finish<M: Guarded, K: Sink>(
    mem: &mut M,
    held: &mut Held,
    out: &mut K,
    end: StepEnd,
) -> Result<(), Fault>
    requires ready { M.ready mem.old }
    requires permitted { is_permitted (secure_of_end end) (M.sight.mode mem.old) ≡ true }
    requires has_room { room_after end ≤ M.room mem.old }
    requires takes { TakesMore (K.limit out.old) MAX_HELD }
    requires few { length held.old < MAX_HELD }
    ensures does { (piece : List ℕ)
        × Finishes M.sight M.Caused end result held.old held.new piece mem.old mem.new
        × HandsOut (answer_of result) (K.written out.old) (K.written out.new)
        (K.faults out.old) (K.faults out.new) (K.limit out.old) (K.limit out.new) piece }
    ensures ready { OnOk result (M.ready mem.new) }
    ensures kept { M.Keeps mem.old mem.new }
    ensures few { OnOk result (length held.new < MAX_HELD) }
{
    if let Err(fault) = follow_up(mem, held, out, end) {
        return Err(fault);
    }
    mem.note(Mark::Retire(Who::Secure));
    Ok(())
}

// What a stop of the memory makes of the machine.
fn after_stop(stop: Stop) -> Done
    ensures { result ≡ done_stopped stop }
{
    match stop {
        Stop::Refused(why) => Done::Refused(why),
        Stop::Tree { event } => Done::Tree(event),
        Stop::Log { event } => Done::Log(event),
    }
}

// What an instruction that is done makes of the machine.
fn after_step(end: StepEnd) -> Done
    ensures { result ≡ done_of end }
{
    match end {
        StepEnd::Exit => Done::Ended,
        StepEnd::Index(place) => Done::Index(place),
        StepEnd::Divide(place) => Done::Divide(place),
        StepEnd::Stopped(stop) => after_stop(stop),
        _ => Done::Goes,
    }
}

/// Does one instruction of the secure program, with all that belongs to it: the check and the bytes that are sent after a
/// release, a check, the exit and the traps, the untrusted code of a suspension, and the mark that it is done. Takes room for
/// 16,640 events.
pub fn instruction<M: Guarded, K: Sink>(
    core: &mut Core,
    mem: &mut M,
    port: &mut Port,
    held: &mut Held,
    out: &mut K,
) -> Done
    requires ready { M.ready mem.old }
    requires secure { IsTrue (is_secure (M.sight.mode mem.old)) }
    requires has_room { 16640 ≤ M.room mem.old }
    requires port { port.old.next ≤ length port.old.input.now }
    requires takes { TakesMore (K.limit out.old) MAX_HELD }
    requires few { length held.old < MAX_HELD }

    // Its step is made, and what belongs to it comes after it, with one piece at most that is handed out.
    ensures does { (piece : List ℕ)
        × DoesSo M.sight M.accesses M.Caused result held.old held.new piece
        (record { core = core.old; memory = mem.old; port = port.old })
        (record { core = core.new; memory = mem.new; port = port.new })
        × HandsOut result (K.written out.old) (K.written out.new)
        (K.faults out.old) (K.faults out.new) (K.limit out.old) (K.limit out.new) piece }

    // It goes along with the bus machine of the trace.
    ensures tied { (program : LoadedProgram)
        → IsTied M.sight program (record { core = core.old; memory = mem.old; port = port.old })
        → LeavesTied M.sight program result
        (record { core = core.new; memory = mem.new; port = port.new }) }
    ensures port { port.new.next ≤ length port.new.input.now }
    ensures input { port.new.input ≡ port.old.input }
    ensures kept { M.Keeps mem.old mem.new }

    // Where it goes on, so can the next one.
    ensures ready { result ≡ Goes → M.ready mem.new }
    ensures few { result ≡ Goes → length held.new < MAX_HELD }
{
    let end = step(core, mem, port);
    if let StepEnd::Stopped(stop) = end {
        return after_stop(stop);
    }
    if !permits(mem.mode(), end) {
        return Done::Refused(Why::Mode);
    }
    match finish(mem, held, out, end) {
        Ok(()) => after_step(end),
        Err(fault) => Done::Fault(fault),
    }
}
