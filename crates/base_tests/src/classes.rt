//! The tables, typed in by hand, and the edges of each range.
ghost use Rattle.std.specs.Prelude.{◌≡◌, ◌≤◌};
ghost use Rattle.regions.specs.Blocks.{data_blocks};
ghost use Rattle.regions.specs.declared.layout.TheConstants.{MAX_DATA_BLOCKS};

use regions::{
    Access, Class, LOG_START, Layout, Mode, OPEN_END, SHARED_START, TREE_START, UNTRUSTED_START,
    class_of, height, may,
};

// A layout with code blocks alone.
fn code_alone(blocks: u32) -> Layout
    requires { blocks ≤ MAX_DATA_BLOCKS }
    ensures { data_blocks result ≡ blocks }
{
    Layout {
        verified: 0,
        private: 0,
        constants: 0,
        code: blocks,
        log: 0,
        shared: 0,
    }
}

// What a mode may do at a class, by the letters of the table.
fn rights(mode: Mode, class: Class) -> &'static str {
    match (
        may(mode, class, Access::Read),
        may(mode, class, Access::Write),
        may(mode, class, Access::Fetch),
    ) {
        (false, false, false) => "",
        (true, false, false) => "r",
        (false, false, true) => "f",
        (true, true, false) => "rw",
        (true, true, true) => "rwf",
        _ => "others",
    }
}

#[test]
fn gives_the_rights_of_the_table(rt: HostRuntime) {
    // A row for each mode: what it may do at each class.
    let rows = [
        (Mode::Std, ["rwf", "", "", "", "", ""]),
        (Mode::Te, ["rw", "rw", "", "r", "f", "rw"]),
        (Mode::Ptr, ["rw", "rw", "rw", "r", "f", "rw"]),
        (Mode::Ssp, ["rwf", "", "", "", "", ""]),
    ];
    for (mode, row) in rows {
        let found = [
            rights(mode, Class::Open),
            rights(mode, Class::Verified),
            rights(mode, Class::Private),
            rights(mode, Class::Constant),
            rights(mode, Class::Code),
            rights(mode, Class::Logged),
        ];
        assert_eq!(rt; found, row, "{mode:?}");
    }
}

#[test]
fn has_the_least_height(rt: HostRuntime) {
    let rows = [
        (0, 1),
        (1, 1),
        (3, 1),
        (4, 2),
        (9, 2),
        (10, 3),
        (27, 3),
        (28, 4),
        (2_187, 7),
        (2_188, 8),
        (6_561, 8),
    ];
    for (blocks, levels) in rows {
        assert!(rt; blocks <= 6_561);
        assert_eq!(rt; height(&code_alone(blocks)), levels, "{blocks} blocks");
    }
}

#[test]
fn gives_the_class_at_each_edge(rt: HostRuntime) {
    let layout = Layout {
        verified: 1,
        private: 2,
        constants: 3,
        code: 4,
        log: 5,
        shared: 12,
    };
    let rows = [
        (0, Some(Class::Open)),
        (UNTRUSTED_START, Some(Class::Open)),
        (SHARED_START, Some(Class::Open)),
        (OPEN_END - 1, Some(Class::Open)),
        (OPEN_END, None),
        (TREE_START - 1, None),
        (TREE_START, Some(Class::Verified)),
        (0x1000_003f, Some(Class::Verified)),
        (0x1000_0040, Some(Class::Private)),
        (0x1000_00bf, Some(Class::Private)),
        (0x1000_00c0, Some(Class::Constant)),
        (0x1000_017f, Some(Class::Constant)),
        (0x1000_0180, Some(Class::Code)),
        (0x1000_027f, Some(Class::Code)),
        (0x1000_0280, None),
        (LOG_START - 1, None),
        (LOG_START, Some(Class::Logged)),
        (0x2000_013f, Some(Class::Logged)),
        (0x2000_0140, None),
        (0xffff_ffff, None),
    ];
    for (at, class) in rows {
        assert_eq!(rt; class_of(&layout, at), class, "{at:08x}");
    }
}
