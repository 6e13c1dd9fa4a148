//! One step of the core: one row of the instruction table.
ghost use Rattle.std.specs.Prelude.{◌≡◌, ◌≤◌, length};
ghost use Rattle.orbis_core.specs.Effects.{IsEffectInRange};
ghost use Rattle.orbis_core.specs.Processor.{IsProcessor};
ghost use Rattle.orbis_core.specs.Rows.{Carries, IsNoStop, LeavesFewer, Steps, StopsUnchanged};
ghost use Rattle.orbis_core.specs.Secure.{secure_core, secure_end, secure_of, secure_port};

use crate::effect::Effect;
use crate::memory::{Memory, Stop, Why};
use crate::port::Port;
use crate::processor::Core;

/// How a step ended. Whether the mode allows a secure instruction is not asked.
#[derive(Clone, Copy, Debug, PartialEq, Eq)]
pub enum StepEnd {
    /// The instruction was done, and the next one follows.
    Next,
    /// The input instruction was done: register 11 is the next byte of the port, or -1 after the last one.
    Input,
    /// The instruction released this byte, and the next one follows.
    Released(u8),
    /// The program asks for a check.
    Check,
    /// The program suspends itself.
    Suspend,
    /// The suspended program is to go on.
    Resume,
    /// A program begins.
    Enter,
    /// Private data can be used from now on, or no longer.
    Private(bool),
    /// The program ended.
    Exit,
    /// The program ended at an index out of range, at this place.
    Index(u32),
    /// The program ended at a zero divisor, at this place.
    Divide(u32),
    /// The memory stopped an access, the word is no instruction, or a divisor is zero; the core and the port stay
    /// as they were.
    Stopped(Stop),
}

/// Fetches the word at the program counter and does its row of the instruction table.
/// The program counter moves on by 4, modulo 2 to the 32nd, after each instruction that is done and is no jump, the
/// secure instructions included.
pub fn step<M: Memory>(core: &mut Core, mem: &mut M, port: &mut Port) -> StepEnd
    requires left { M.has_left mem.old 2 }
    requires port { port.old.next ≤ length port.old.input.now }

    ensures row { Steps M.accesses
        (record { core = core.old; memory = mem.old; port = port.old }) result
        (record { core = core.new; memory = mem.new; port = port.new }) }
    ensures stopped { StopsUnchanged
        (record { core = core.old; memory = mem.old; port = port.old }) result
        (record { core = core.new; memory = mem.new; port = port.new }) }
    ensures left { LeavesFewer 2 M.has_left mem.old result mem.new }
    ensures port { port.new.next ≤ length port.new.input.now }

    // The registers are 32, and register 0 reads zero, before the step and after it.
    ensures whole { IsProcessor core.old }
    ensures kept { IsProcessor core.new }
{
    let word = match mem.fetch(core.pc) {
        Ok(word) => word,
        Err(stop) => return StepEnd::Stopped(stop),
    };
    match orbis_word::decode(word) {
        Some(instruction) => {
            let effect = core.effect(instruction);
            let end = carry_out(core, mem, port, effect);
            core.is_whole();
            end
        }
        None => StepEnd::Stopped(Stop::Refused(Why::Illegal)),
    }
}

/// Does what an instruction asks for.
fn carry_out<M: Memory>(core: &mut Core, mem: &mut M, port: &mut Port, effect: Effect) -> StepEnd
    requires left { M.has_left mem.old 1 }
    requires port { port.old.next ≤ length port.old.input.now }
    requires effect { IsEffectInRange effect }

    ensures row { Carries M.accesses effect
        (record { core = core.old; memory = mem.old; port = port.old }) result
        (record { core = core.new; memory = mem.new; port = port.new }) }
    ensures stopped { StopsUnchanged
        (record { core = core.old; memory = mem.old; port = port.old }) result
        (record { core = core.new; memory = mem.new; port = port.new }) }
    ensures left { LeavesFewer 1 M.has_left mem.old result mem.new }
    ensures port { port.new.next ≤ length port.new.input.now }
{
    match effect {
        Effect::Proceed => core.advance(),
        Effect::Write { d, value } => core.write(d, value),
        Effect::Compare { flag } => core.compare_as(flag),
        Effect::Jump { to } => core.jump(to),
        Effect::Link { to } => core.link(to),
        Effect::LoadWord { d, at } => {
            let answer = mem.load_word(at);
            core.take(d, answer)
        }
        Effect::LoadByte { d, at } => {
            let answer = mem.load_byte(at);
            core.take(d, answer)
        }
        Effect::StoreWord { at, word } => {
            let answer = mem.store_word(at, word);
            core.go_on(answer)
        }
        Effect::StoreByte { at, byte } => {
            let answer = mem.store_byte(at, byte);
            core.go_on(answer)
        }
        Effect::DivideByZero => StepEnd::Stopped(Stop::Refused(Why::Divide)),
        Effect::Secure { f } => secure(core, port, f),
    }
}

/// Does a secure instruction.
fn secure(core: &mut Core, port: &mut Port, f: u8) -> StepEnd
    requires f { f ≤ 10 }
    requires port { port.old.next ≤ length port.old.input.now }
    ensures end { result ≡ secure_end (secure_of f) core.old }
    ensures core { core.new ≡ secure_core (secure_of f) port.old core.old }
    ensures port { port.new ≡ secure_port (secure_of f) port.old }
    ensures within { port.new.next ≤ length port.new.input.now }
    ensures goes_on { IsNoStop result }
{
    if f == 7 {
        let word = port.read();
        core.write(11, word);
        return StepEnd::Input;
    }
    let place = core.register(3);
    core.advance();
    match f {
        0 => StepEnd::Enter,
        1 => StepEnd::Exit,
        2 => StepEnd::Suspend,
        3 => StepEnd::Resume,
        4 => StepEnd::Private(true),
        5 => StepEnd::Private(false),
        6 => StepEnd::Released((place & 0xff) as u8),
        8 => StepEnd::Check,
        9 => StepEnd::Index(place),
        _ => StepEnd::Divide(place),
    }
}
