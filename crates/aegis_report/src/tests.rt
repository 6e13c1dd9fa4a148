//! The line of each end, over a trace of four events.
ghost use Rattle.std.specs.Prelude.{◌≡◌, IfOk, IsSome, Some};
ghost use Rattle.aegis_num.specs.declared.storage.Place.TheVariants.{Tree, Log};
ghost use Rattle.aegis_report.specs.ReportLines.{IsRecordOf, place_at};

use crate::{Record, report_text};
use aegis_machine::End;
use aegis_num::{Block, Place};
use image_file::{Image, read_image};
use off_chip::{Event, Mark, Trace, Who};
use orbis_core::Why;
use stamp_log::{LogCause, MultisetSum};
use std::alloc::Global;
use std::test::Fail;

// The header of the file of an image with one block of verified memory and one of code.
const HEADER: [u32; 9] = [0x4145_4753, 1, 1, 0, 0, 1, 0, 0, 0];

// An image whose code does nothing.
fn idle_image(alloc: Global) -> Result<Image, Fail> {
    let mut bytes = Vec::new(alloc);
    for word in HEADER {
        bytes.extend_from_slice(&word.to_be_bytes())?;
    }
    for _ in 0..16 {
        bytes.extend_from_slice(&[0x15, 0, 0, 0])?;
    }
    Ok(read_image(alloc, bytes.as_slice())?)
}

// The record of a run of that image with four events.
fn four_events(alloc: Global) -> Result<Record, Fail>
    ensures tree { IfOk result (λ kept. place_at kept.trace 3 ≡ Some (Tree 2)) }
    ensures log { IfOk result (λ kept. place_at kept.trace 2 ≡ Some (Log 6)) }
    ensures image { IfOk result (λ kept. IsSome kept.image) }
{
    let block = Block {
        payload: [7; 64],
        stamp: 2,
    };
    let events = vec![in alloc;
        Event::Note(Mark::Enter),
        Event::Note(Mark::Retire(Who::Secure)),
        Event::BlockRead {
            at: Place::Log(6),
            block
        },
        Event::BlockRead {
            at: Place::Tree(2),
            block
        },
    ]?;
    let image = idle_image(alloc)?;
    Ok(Record {
        image: Some(image),
        trace: Trace::new(events),
    })
}

// Whether an end is told so.
fn is_told(end: End, kept: &Record, text: &str) -> bool
    requires { IsRecordOf end kept.now.image kept.now.trace }
{
    report_text(&end, kept).as_str() == text
}

#[test]
fn tells_ends_of_the_program(rt: HostRuntime) -> Result<(), Fail> {
    let kept = four_events(rt.alloc())?;
    let index = End::Index { at: 27 };
    let divide = End::Divide { at: 9 };
    let fuel = End::FuelOut { retired: 1 };
    assert!(rt; is_told(End::Ended, &kept, "ended retired 1 events 4\n"));
    assert!(rt; is_told(index, &kept, "index token 27 retired 1 events 4\n"));
    assert!(rt; is_told(divide, &kept, "divide token 9 retired 1 events 4\n"));
    assert!(rt; is_told(fuel, &kept, "fuel retired 1 events 4\n"));
    Ok(())
}

#[test]
fn tells_aborts(rt: HostRuntime) -> Result<(), Fail> {
    let kept = four_events(rt.alloc())?;
    let tree = End::AbortTree {
        event: 3,
        retired: 1,
    };
    let future = End::AbortLog {
        cause: LogCause::Future { event: 2 },
        retired: 1,
    };
    let sums = End::AbortLog {
        cause: LogCause::Sums {
            read: MultisetSum {
                count: 3,
                sum: 0xabc,
            },
            written: MultisetSum { count: 2, sum: 1 },
        },
        retired: 1,
    };
    let sums_text =
        "abort log sums read 3 00000000000000000000000000000abc written 2 00000000000000000000000000000001 retired 1\n";
    let program = End::AbortProgram {
        read: [0x1f; 20],
        expected: [0xa0; 20],
    };
    let program_text =
        "abort program read 1f1f1f1f1f1f1f1f1f1f1f1f1f1f1f1f1f1f1f1f expected a0a0a0a0a0a0a0a0a0a0a0a0a0a0a0a0a0a0a0a0\n";
    assert!(rt; is_told(tree, &kept, "abort tree data 1 event 3 retired 1\n"));
    assert!(rt; is_told(future, &kept, "abort log future log 6 event 2 retired 1\n"));
    assert!(rt; is_told(sums, &kept, sums_text));
    assert!(rt; is_told(program, &kept, program_text));
    Ok(())
}

#[test]
fn tells_the_other_ends(rt: HostRuntime) -> Result<(), Fail> {
    let kept = four_events(rt.alloc())?;
    let refused = End::Refused {
        why: Why::Mode,
        retired: 1,
    };
    assert!(rt; is_told(refused, &kept, "refused mode retired 1\n"));
    assert!(rt; is_told(End::WriteFault, &kept, "write fault\n"));
    Ok(())
}
