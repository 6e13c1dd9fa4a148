//! Each call with ample memory, and the limits with their numbers.
ghost use Rattle.std.specs.Prelude.{◌≡◌, ◌^◌, ◌<◌, true, [], ◌∷◌, IfOk, length};
ghost use Rattle.ir_code.specs.Lawful.{all_hold, is_data};

use ir_code::{Cell, Ir};
use region_plan::{PlanError, plan};
use regions::Class;
use sqlite_items::Items;
use std::alloc::{AllocError, Global};
use std::test::Fail;

// A cell without words to begin with.
fn cell(alloc: Global, class: Class, words: u32) -> Cell
    ensures { result ≡ record { class = class; words = words; first = [] } }
{
    Cell {
        class,
        words,
        first: Items::new(alloc),
    }
}

// A program without operations.
fn program(alloc: Global, cells: Vec<Cell>) -> Ir
    ensures { result.cells ≡ cells.items }
{
    Ir {
        cells: Items::from_vec(cells),
        ops: Items::new(alloc),
        entry: 0,
    }
}

// Two cells of each class, one among those of the others.
fn mixed(alloc: Global) -> Result<Ir, AllocError>
    ensures few { IfOk result (λ ir. length ir.cells < 2 ^ 28) }
    ensures data { IfOk result (λ ir. all_hold is_data ir.cells ≡ true) }
{
    let cells = [
        cell(alloc, Class::Verified, 3),
        cell(alloc, Class::Open, 2),
        cell(alloc, Class::Logged, 16),
        cell(alloc, Class::Private, 1),
        cell(alloc, Class::Constant, 17),
        cell(alloc, Class::Verified, 1),
        cell(alloc, Class::Open, 1),
        cell(alloc, Class::Logged, 1),
        cell(alloc, Class::Private, 4),
        cell(alloc, Class::Constant, 2),
    ];
    Ok(program(alloc, Vec::from_array(alloc, cells)?))
}

#[test]
fn lays_out_each_class_in_order(rt: HostRuntime) -> Result<(), Fail> {
    let ir = mixed(rt.alloc())?;
    let placement = plan(rt.alloc(), &ir, 2)?;
    let layout = placement.layout;
    assert_eq!(rt; layout.verified, 1);
    assert_eq!(rt; layout.private, 1);
    assert_eq!(rt; layout.constants, 2);
    assert_eq!(rt; layout.code, 2);
    assert_eq!(rt; layout.log, 2);
    assert_eq!(rt; layout.shared, 12);
    let homes = [
        0x1000_0000,
        0x8000,
        0x2000_0000,
        0x1000_0040,
        0x1000_0080,
        0x1000_000c,
        0x8008,
        0x2000_0040,
        0x1000_0044,
        0x1000_00c4,
    ];
    assert_eq!(rt; placement.homes.as_slice(), homes.as_slice());
    assert_eq!(rt; placement.homes.into_vec().len(), 10);
    Ok(())
}

// What is told of two cells, without a layout where they have one.
fn fault_of(
    alloc: Global,
    one: (Class, u32),
    other: (Class, u32),
    code_blocks: u32,
) -> Result<(), PlanError> {
    if one.0 == Class::Code || other.0 == Class::Code {
        return Ok(());
    }
    let cells = [cell(alloc, one.0, one.1), cell(alloc, other.0, other.1)];
    let ir = program(alloc, Vec::from_array(alloc, cells)?);
    plan(alloc, &ir, code_blocks)?;
    Ok(())
}

#[test]
fn tells_the_first_limit(rt: HostRuntime) {
    let (verified, logged, open) = (Class::Verified, Class::Logged, Class::Open);
    let tree_full = Err(PlanError::TreeFull { blocks: 6_562 });
    let log_full = Err(PlanError::LogFull { blocks: 1_025 });
    let rows = [
        ((verified, 104_960), (open, 0), 1, Ok(())),
        ((verified, 104_960), (open, 0), 2, tree_full),
        (
            (verified, 65_536),
            (verified, 65_536),
            1,
            Err(PlanError::TreeFull { blocks: 8_193 }),
        ),
        ((verified, 104_944), (Class::Private, 1), 1, Ok(())),
        (
            (Class::Constant, 104_945),
            (Class::Private, 1),
            1,
            tree_full,
        ),
        (
            (verified, 1),
            (open, 0),
            u32::MAX,
            Err(PlanError::TreeFull {
                blocks: 4_294_967_296,
            }),
        ),
        ((logged, 16_384), (open, 8_192), 1, Ok(())),
        ((logged, 16_385), (open, 8_193), 1, log_full),
        ((logged, 16_385), (verified, 104_961), 1, tree_full),
        (
            (logged, 16_384),
            (open, 8_193),
            1,
            Err(PlanError::OpenFull { bytes: 32_772 }),
        ),
        (
            (verified, u32::MAX),
            (verified, u32::MAX),
            0,
            Err(PlanError::TreeFull {
                blocks: 536_870_912,
            }),
        ),
    ];
    for (one, other, code_blocks, answer) in rows {
        assert_eq!(rt;
            fault_of(rt.alloc(), one, other, code_blocks),
            answer,
            "{one:?} {other:?} {code_blocks}"
        );
    }
}
