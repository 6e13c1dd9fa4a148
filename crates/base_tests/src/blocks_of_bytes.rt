//! Bytes that are put into a region and taken out again.
use raw_region::Region;
use std::test::Fail;

#[test]
fn one_byte_of_a_block(rt: HostRuntime) -> Result<(), Fail> {
    let mut region = Region::new(rt.alloc(), 72)?;
    assert_eq!(rt; region.len(), 72);
    region.put(71, 5);
    assert_eq!(rt; region.get(71), 5);
    assert_eq!(rt; region.get(0), 0);
    Ok(())
}

#[test]
fn pieces_between_other_bytes(rt: HostRuntime) -> Result<(), Fail> {
    let mut region = Region::new(rt.alloc(), 5)?;
    region.put(0, 9);
    region.copy_in(1, &[1, 2, 3]);
    let mut all = [7; 5];
    region.copy_out(0, &mut all);
    assert_eq!(rt; all, [9, 1, 2, 3, 0]);
    let mut last = [7; 2];
    region.copy_out(3, &mut last);
    assert_eq!(rt; last, [3, 0]);
    Ok(())
}

#[test]
fn no_bytes(rt: HostRuntime) -> Result<(), Fail> {
    let mut region = Region::new(rt.alloc(), 0)?;
    assert_eq!(rt; region.len(), 0);
    region.copy_in(0, &[]);
    region.copy_out(0, &mut []);
    Ok(())
}

#[test]
fn more_than_any_block(rt: HostRuntime) {
    for len in [isize::MAX as usize + 1, usize::MAX] {
        assert!(rt; Region::new(rt.alloc(), len).is_err(), "at {len}");
    }
}
