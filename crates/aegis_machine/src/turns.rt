//! Instructions one after another, until as many were done as were asked for, or the run is over.
ghost use Rattle.std.specs.Prelude.{◌≡◌, ℕ, ◌+◌, ◌≤◌, List, ◌++◌, length, Some};
ghost use Rattle.bus_machine.specs.BusMachine.{LoadedProgram};
ghost use Rattle.off_chip.specs.Boundaries.{retired};
ghost use Rattle.secure_memory.specs.MemorySights.{sight_of};
ghost use Rattle.aegis_machine.specs.declared.turns.Turn.TheVariants.{Parked as StaysParked};
ghost use Rattle.aegis_machine.specs.MachineParts.{CarriesSums, IsRunning, LeadsTo, RetiresInTurn, TakesIn, end_by};
ghost use Rattle.aegis_machine.specs.SecureSights.{bus_sight};
ghost use Rattle.aegis_machine.specs.Watched.{IsWatched};

use crate::ends::{End, has_fuel};
use crate::held::Held;
use crate::instructions::{Done, Fault, instruction};
use aegis_edge::Sink;
use line_cache::Lines;
use off_chip::OffChip;
use orbis_core::{Core, Port};
use secure_memory::SecureMemory;
use stamp_log::LogCause;

/// Where a turn leaves the machine.
#[derive(Clone, Copy, Debug, PartialEq, Eq)]
pub enum Turn {
    /// As many instructions were done as were asked for, and the program goes on.
    Parked,
    /// The run is over, and ended so.
    Over(End),
}

// How an instruction ends the run after so many instructions, if it does.
fn end_after(done: Done, count: u64) -> Option<End>
    ensures { result ≡ end_by done count }
{
    match done {
        Done::Goes => None,
        Done::Ended => Some(End::Ended),
        Done::Index(at) => Some(End::Index { at }),
        Done::Divide(at) => Some(End::Divide { at }),
        Done::Refused(why) => Some(End::Refused {
            why,
            retired: count,
        }),
        Done::Tree(event) => Some(End::AbortTree {
            event,
            retired: count,
        }),
        Done::Log(event) => Some(End::AbortLog {
            cause: LogCause::Future { event },
            retired: count,
        }),
        Done::Fault(Fault::Log(cause)) => Some(End::AbortLog {
            cause,
            retired: count,
        }),
        Done::Fault(Fault::Sink) => Some(End::WriteFault),
    }
}

/// Does `n` instructions of the secure program, or fewer where the run is over before.
pub(crate) fn run_on<O: OffChip, L: Lines, K: Sink>(
    mem: &mut SecureMemory<'_, O, L>,
    core: &mut Core,
    port: &mut Port,
    held: &mut Held,
    count: &mut u64,
    out: &mut K,
    fuel: u64,
    n: u32,
) -> Turn
    requires ready { IsWatched (sight_of L.lines O.trace O.room O.layout mem.old) }
    requires running { (program : LoadedProgram) × (handed_out : List ℕ)
        × IsRunning (bus_sight (sight_of L.lines O.trace O.room O.layout)) (λ memory. O.room memory.lent.now)
        program fuel (K.limit out.old) handed_out held.old count.old
        (record { core = core.old; memory = mem.old; port = port.old }) }
    requires port { port.old.next ≤ length port.old.input.now }
    ensures does { (piece : List ℕ)
        × TakesIn result (O.trace mem.new.lent.now) (K.written out.old) (K.written out.new)
        (K.faults out.old) (K.faults out.new) piece
        × ((program : LoadedProgram) (handed_out : List ℕ)
        → IsRunning (bus_sight (sight_of L.lines O.trace O.room O.layout)) (λ memory. O.room memory.lent.now)
        program fuel (K.limit out.old) handed_out held.old count.old
        (record { core = core.old; memory = mem.old; port = port.old })
        → LeadsTo (bus_sight (sight_of L.lines O.trace O.room O.layout)) (λ memory. O.room memory.lent.now)
        program fuel result (K.limit out.new) (handed_out ++ piece) held.new count.new
        ((bus_sight (sight_of L.lines O.trace O.room O.layout)).veil mem.old)
        (record { core = core.new; memory = mem.new; port = port.new })) }
    ensures sums { CarriesSums mem.old.log.key result (O.trace mem.new.lent.now) }
    ensures key { mem.new.log.key ≡ mem.old.log.key }
    ensures ready { result ≡ StaysParked → IsWatched (sight_of L.lines O.trace O.room O.layout mem.new) }
    ensures parked { result ≡ StaysParked → count.new ≡ count.old + n }
    ensures over { RetiresInTurn result n (retired (O.trace mem.old.lent.now))
        (retired (O.trace mem.new.lent.now)) }
    ensures port { port.new.next ≤ length port.new.input.now }
    ensures input { port.new.input ≡ port.old.input }
    ensures same { O.same_memory mem.old.lent.now mem.new.lent.now }
    ensures total { length (O.trace mem.new.lent.now) + O.room mem.new.lent.now
        ≡ length (O.trace mem.old.lent.now) + O.room mem.old.lent.now }
    ensures same_reference { mem.new.lent.ghost_name ≡ mem.old.lent.ghost_name }
{
    'instructions: for _ in 0..n {
        if !has_fuel(&mem.layout, fuel, mem.lent.events()) {
            return Turn::Over(End::FuelOut { retired: *count });
        }
        let done = instruction(core, mem, port, held, out);
        if let Some(end) = end_after(done, *count) {
            return Turn::Over(end);
        }
        *count += 1;
    }
    Turn::Parked
}
