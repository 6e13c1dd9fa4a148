//! The run of an image: the processor steps it from its entry, and each released byte goes to the sink at once.
ghost use Rattle.std.specs.Prelude.{◌≡◌, ◌≢◌, ℕ, ◌*◌, ◌+◌, ◌^◌, ◌<◌, ◌≤◌, Some, None, length, IfOk, OnErr};
ghost use Rattle.std.specs.List.{AllByRecursion};
ghost use Rattle.aegis_edge.specs.Faults.{Rose};
ghost use Rattle.aegis_edge.specs.Sink.{Appends, IsWithin, limit_after};
ghost use Rattle.image_file.specs.ImageTable.{static_bytes};
ghost use Rattle.orbis_core.specs.FlatMemory.{flat_of};
ghost use Rattle.orbis_core.specs.Ideal.{IdealEnd, entry_address};
ghost use Rattle.flat_machine.specs.ImageRuns.{EndsAfter, GoesOn, IsCutShort, IsSoundImage, machine_end, released_in};

use crate::ran::{ImageEnd, Ran};
use aegis_edge::Sink;
use aegis_num::OutOfMemory;
use image_file::Image;
use orbis_core::{Core, FlatMemory, Port, StepEnd, step};
use regions::{BLOCK_BYTES, TREE_START};
use std::alloc::Global;

/// Runs an image from its entry until it ends, a byte is not taken, or `fuel` instructions were done. Its memory is flat,
/// and shared words change by its own stores alone. Each released byte goes to `out` at once.
pub fn run_image<K: Sink>(
    alloc: Global,
    image: &Image,
    input: &[u8],
    fuel: u64,
    out: &mut K,
) -> Result<Ran, OutOfMemory>
    requires sound { IsSoundImage image.now }

    // What the image releases with this fuel is within the limit of the sink, where it has one.
    requires room { IsWithin (K.limit out.old) (released_in image.now input.now fuel) }

    // An end of the program comes where the ideal machine ends so within the fuel, after exactly so many instructions.
    ensures ended { IfOk result (λ ran. (end : IdealEnd) → machine_end ran.end ≡ Some end
        → EndsAfter image.now input.now ran.retired end × (ran.retired ≤ fuel)) }
    ensures complete { IfOk result (λ ran. ran.end ≢ ImageEnd.WriteFault → (steps : ℕ) (end : IdealEnd)
        → EndsAfter image.now input.now steps end → steps ≤ fuel
        → (machine_end ran.end ≡ Some end) × (ran.retired ≡ steps)) }

    // The fuel is used up where that many instructions were done and the ideal machine has not ended by then.
    ensures fuel_out { IfOk result (λ ran. ran.end ≡ ImageEnd.FuelOut
        → GoesOn image.now input.now fuel × (ran.retired ≡ fuel)) }
    ensures used_up { IfOk result (λ ran. ran.end ≢ ImageEnd.WriteFault → GoesOn image.now input.now fuel
        → ran.end ≡ ImageEnd.FuelOut) }

    // The sink took what the ideal machine releases in as many steps, or all but the last byte of it.
    ensures delivered { IfOk result (λ ran. ran.end ≢ ImageEnd.WriteFault
        → Appends (K.written out.old) (K.written out.new) (released_in image.now input.now ran.retired)) }
    ensures cut_short { IfOk result (λ ran. ran.end ≡ ImageEnd.WriteFault
        → IsCutShort image.now input.now fuel ran.retired (K.written out.old) (K.written out.new)) }

    // A byte is not taken only where the count of faults rose.
    ensures fault { IfOk result (λ ran. ran.end ≡ ImageEnd.WriteFault
        → Rose (K.faults out.old) (K.faults out.new)) }
    ensures steady { IfOk result (λ ran. ran.end ≢ ImageEnd.WriteFault
        → K.faults out.new ≡ K.faults out.old) }

    ensures left { IfOk result (λ ran. ran.end ≢ ImageEnd.WriteFault → K.limit out.new
        ≡ limit_after (K.limit out.old) (length (released_in image.now input.now ran.retired))) }
    ensures still_unlimited { K.limit out.old ≡ None → K.limit out.new ≡ None }

    // Where memory is wanting no instruction was done.
    ensures silent { OnErr result (K.written out.new ≡ K.written out.old) }
    ensures untouched { OnErr result (K.faults out.new ≡ K.faults out.old) }
    ensures unspent { OnErr result (K.limit out.new ≡ K.limit out.old) }
{
    let bytes = bytes_of(alloc, image)?;
    let mut memory = memory_of(alloc, image, bytes)?;
    let mut core = Core::new(start_address(image));
    let mut port = Port { input, next: 0 };
    for index in 0..fuel {
        let retired = index + 1;
        match step(&mut core, &mut memory, &mut port) {
            StepEnd::Released(byte) => {
                if out.write(&[byte]).is_err() {
                    return Ok(Ran {
                        end: ImageEnd::WriteFault,
                        retired,
                    });
                }
            }
            StepEnd::Exit => {
                return Ok(Ran {
                    end: ImageEnd::Ended,
                    retired,
                });
            }
            StepEnd::Index(at) => {
                return Ok(Ran {
                    end: ImageEnd::Index { at },
                    retired,
                });
            }
            StepEnd::Divide(at) => {
                return Ok(Ran {
                    end: ImageEnd::Divide { at },
                    retired,
                });
            }
            StepEnd::Stopped(_) => unreachable!(),
            _ => {}
        }
    }
    Ok(Ran {
        end: ImageEnd::FuelOut,
        retired: fuel,
    })
}

/// The address of the first instruction.
fn start_address(image: &Image) -> u32
    ensures { result ≡ entry_address image.now.layout image.now.entry }
{
    let layout = &image.layout;
    let blocks = layout.verified + layout.private + layout.constants;
    TREE_START + BLOCK_BYTES * blocks + 4 * image.entry
}

/// The memory before the first instruction, with these bytes in the static blocks.
fn memory_of(alloc: Global, image: &Image, bytes: Vec<u8>) -> Result<FlatMemory, OutOfMemory>
    requires { bytes.items ≡ static_bytes image.now }
    ensures memory { IfOk result (λ memory. memory ≡ flat_of image.now.layout (static_bytes image.now)) }
    ensures bytes { AllByRecursion (λ byte. byte < 2 ^ 8) (static_bytes image.now) }
{
    FlatMemory::new(alloc, &image.layout, bytes.as_slice())
}

/// The bytes of the static blocks: the constants, and then the code with big-endian words.
fn bytes_of(alloc: Global, image: &Image) -> Result<Vec<u8>, OutOfMemory>
    ensures { IfOk result (λ bytes. bytes.items ≡ static_bytes image.now) }
{
    let mut bytes = Vec::new(alloc);
    bytes.extend_from_slice(image.constants.as_slice())?;
    for word in image.code.as_slice() {
        bytes.extend_from_slice(&word.to_be_bytes())?;
    }
    Ok(bytes)
}
