//! The counter of stamps, step by step.
use aegis_num::Stamps;

#[test]
fn gives_the_stamps_in_order(rt: HostRuntime) {
    let mut stamps = Stamps::new();
    assert_eq!(rt; stamps.last(), 0);
    assert_eq!(rt; stamps.fresh(), 1);
    assert_eq!(rt; stamps.fresh(), 2);
    assert_eq!(rt; stamps.last(), 2);
}
