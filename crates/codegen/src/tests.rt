//! An image that was put together by hand.
ghost use Rattle.std.specs.Prelude.{IfOk};
ghost use Rattle.ir_code.specs.Lawful.{HasForm};

use crate::emit;
use ir_code::{Cell, Ir, Op};
use regions::Class;
use sqlite_items::Items;
use std::alloc::{AllocError, Global};
use std::test::Fail;

// A program that releases one byte.
fn release_one(alloc: Global) -> Result<Ir, AllocError>
    ensures { IfOk result HasForm }
{
    let cells = [Cell {
        class: Class::Verified,
        words: 1,
        first: Items::new(alloc),
    }];
    let ops = [
        Op::Const { to: 0, value: 0x48 },
        Op::Release { a: 0 },
        Op::Exit,
    ];
    Ok(Ir {
        cells: Items::from_vec(Vec::from_array(alloc, cells)?),
        ops: Items::from_slice(alloc, &ops)?,
        entry: 0,
    })
}

#[test]
fn makes_an_image(rt: HostRuntime) -> Result<(), Fail> {
    let ir = release_one(rt.alloc())?;
    let image = emit(rt.alloc(), &ir)?;
    assert_eq!(rt; image.layout.verified, 1);
    assert_eq!(rt; image.layout.code, 2);
    assert_eq!(rt; image.entry, 6);
    assert_eq!(rt; image.constants.as_slice().len(), 0);
    let words = [
        0x19a0_0000,
        0xa9ad_0048,
        0xd410_6800,
        0x8470_0000,
        0x7000_0006,
        0x7000_0001,
        0x1a00_1000,
        0x1a20_1001,
        0x1a40_1002,
        0x1a60_1003,
        0x1a80_1004,
        0x1aa0_1005,
        0x1ac0_1006,
        0x1ae0_2000,
        0x1b00_2001,
        0x1b20_0001,
        0x03ff_fff0,
        0x1500_0000,
        0x1500_0000,
        0x1500_0000,
        0x1500_0000,
        0x1500_0000,
        0x1500_0000,
        0x1500_0000,
        0x1500_0000,
        0x1500_0000,
        0x1500_0000,
        0x1500_0000,
        0x1500_0000,
        0x1500_0000,
        0x1500_0000,
        0x1500_0000,
    ];
    assert_eq!(rt; image.code.as_slice(), words.as_slice());
    Ok(())
}
