//! A full cache, and what it removes next.
use arrayvec::ArrayVec;
use line_cache::{Line, LineCache, Lines, Pins};
use std::test::Fail;

/// Inserts a block if it may be inserted.
fn inserted<L: Lines>(lines: &mut L, block: u32) -> bool {
    let pins = Pins {
        blocks: ArrayVec::new(),
    };
    if lines.holds(block) || lines.victim(block, &pins).is_some() {
        return false;
    }
    if block > 0 && !lines.holds((block - 1) / 3) {
        return false;
    }
    lines.insert(block, &[7; 64]);
    true
}

/// Touches a block if it is held.
fn touched<L: Lines>(lines: &mut L, block: u32) -> bool {
    if !lines.holds(block) {
        return false;
    }
    lines.touch(block);
    true
}

/// Writes the first byte of the line of a block if it is held.
fn written<L: Lines>(lines: &mut L, block: u32, byte: u8) -> bool {
    if !lines.holds(block) {
        return false;
    }
    lines.line_mut(block)[0] = byte;
    true
}

/// The first byte of the line of a block, and whether the line is dirty.
fn seen<L: Lines>(lines: &L, block: u32) -> Option<(u8, bool)> {
    if !lines.holds(block) {
        return None;
    }
    Some((lines.payload(block)[0], lines.dirty(block)))
}

/// Marks a block as clean if it is held.
fn cleaned<L: Lines>(lines: &mut L, block: u32) -> bool {
    if !lines.holds(block) {
        return false;
    }
    lines.clean(block);
    true
}

/// Removes what is to be removed, if there is no room.
fn removed<L: Lines>(lines: &mut L) -> Option<(u32, Line)> {
    let pins = Pins {
        blocks: ArrayVec::new(),
    };
    let block = lines.victim(128, &pins)?;
    Some((block, lines.remove(block)))
}

/// Whether the blocks of a range were all inserted.
fn filled<L: Lines>(lines: &mut L, blocks: u32) -> bool {
    let mut all = true;
    for block in 0..blocks {
        all = inserted(lines, block) && all;
    }
    all
}

/// Whether the blocks from one number to another were all touched.
fn all_touched<L: Lines>(lines: &mut L, from: u32, to: u32) -> bool {
    let mut all = true;
    for block in from..to {
        all = touched(lines, block) && all;
    }
    all
}

/// The number of the block that is removed, the first byte of its line, and whether that was dirty.
fn gone<L: Lines>(lines: &mut L) -> Option<(u32, u8, bool)> {
    let (block, line) = removed(lines)?;
    Some((block, line.payload[0], line.dirty))
}

#[test]
fn least_recently_used_goes_first(rt: HostRuntime) -> Result<(), Fail> {
    let mut cache = LineCache::new(rt.alloc())?;
    // A block whose parent is not held; all that there is room for; one more.
    let full = [
        inserted(&mut cache, 1),
        filled(&mut cache, 128),
        inserted(&mut cache, 128),
        touched(&mut cache, 128),
    ];
    assert_eq!(rt; full, [false, true, false, false]);
    let changed = [
        touched(&mut cache, 43),
        written(&mut cache, 44, 9),
        written(&mut cache, 45, 8),
        cleaned(&mut cache, 45),
    ];
    assert_eq!(rt; changed, [true; 4]);
    assert_eq!(rt;
        [seen(&cache, 44), seen(&cache, 45)],
        [Some((9, true)), Some((8, false))]
    );
    // The blocks 0 to 42 have children in the cache, and 43 to 45 were used after 46 and 47.
    for block in [46, 47] {
        assert_eq!(rt;
            [gone(&mut cache), gone(&mut cache)],
            [Some((block, 7, false)), None]
        );
        assert!(rt; inserted(&mut cache, block + 82));
    }
    assert!(rt; all_touched(&mut cache, 48, 130));
    assert_eq!(rt; gone(&mut cache), Some((43, 7, false)));
    assert!(rt; inserted(&mut cache, 43));
    assert_eq!(rt; gone(&mut cache), Some((44, 9, true)));
    Ok(())
}
