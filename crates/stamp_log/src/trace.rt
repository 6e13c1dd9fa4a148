//! One event of the log: a read or a write of a block, with its entry.
ghost use Rattle.std.specs.Prelude.{◌≡◌, ◌+◌, ◌<◌, ◌^◌, IfErr, IfOk, IsErr, ◌↔◌, length};
ghost use Rattle.aegis_num.specs.declared.storage.Place.TheVariants.{Log};
ghost use Rattle.off_chip.specs.declared.event.Event.TheVariants.{BlockRead, BlockWrite};
ghost use Rattle.off_chip.specs.BusCalls.{AppendsOne, IsInside};
ghost use Rattle.off_chip.specs.Histories.{history};
ghost use Rattle.off_chip.specs.WriteBacks.{StampsFit};
ghost use Rattle.off_chip.specs.Epochs.{log_entry, open_reads, open_writes};
ghost use Rattle.off_chip.specs.Collisions.{sum_of};
ghost use Rattle.stamp_log.specs.LogState.{entry_sum, stamped, value_under};

use crate::sums::MultisetSum;
use aegis_num::{Block, Key, Place, Stamps};
use block_hash::entry_value;
use off_chip::OffChip;

/// Writes a block of the log with a fresh stamp, and adds its entry to the sum of what was written.
pub(crate) fn write_back<O: OffChip>(
    key: &Key,
    written: &mut MultisetSum,
    bus: &mut O,
    stamps: &mut Stamps,
    number: u32,
    payload: &[u8; 64],
)
    requires has_room { 0 < O.room bus.old }
    requires inside { IsInside (O.layout bus.old) (Log number) }
    requires fits { StampsFit stamps.old (history (O.trace bus.old)) }
    requires sum { entry_sum written.old
        ≡ sum_of (value_under key.now) (open_writes (history (O.trace bus.old))) }
    ensures event { AppendsOne (BlockWrite (Log number) (stamped payload.now (stamps.old + 1)))
        (O.trace bus.old) (O.room bus.old) (O.trace bus.new) (O.room bus.new) }
    ensures next { stamps.new ≡ stamps.old + 1 }
    ensures fits { StampsFit stamps.new (history (O.trace bus.new)) }
    ensures sum { entry_sum written.new
        ≡ sum_of (value_under key.now) (open_writes (history (O.trace bus.new))) }
    ensures same { O.same_memory bus.old bus.new }
{
    let _ = bus.events();
    let block = Block {
        payload: *payload,
        stamp: stamps.fresh(),
    };
    written.add(entry_value(key, number, &block));
    bus.write_block(Place::Log(number), &block);
}

/// Reads a block of the log, and gives the value of its entry; or the number of the event, where its stamp is above the
/// count of block writes. The entry is added to no sum.
pub(crate) fn read_entry<O: OffChip>(
    key: &Key,
    bus: &mut O,
    stamps: &Stamps,
    number: u32,
    into: &mut Block,
) -> Result<u128, u64>
    requires has_room { 0 < O.room bus.old }
    requires inside { IsInside (O.layout bus.old) (Log number) }
    ensures event { AppendsOne (BlockRead (Log number) into.new)
        (O.trace bus.old) (O.room bus.old) (O.trace bus.new) (O.room bus.new) }
    ensures above { IsErr result ↔ (stamps.now < into.new.stamp) }
    ensures number { IfErr result (λ event. event ≡ length (O.trace bus.old)) }
    ensures value { IfOk result (λ value. value ≡ value_under key.now (log_entry number into.new)) }
    ensures limit { length (O.trace bus.old) + O.room bus.old < 2 ^ 64 }
    ensures same { O.same_memory bus.old bus.new }
{
    let event = bus.events();
    bus.read_block(Place::Log(number), into);
    if into.stamp > stamps.last() {
        return Err(event);
    }
    Ok(entry_value(key, number, into))
}
