//! The script of an adversary: what its lines say, and the first one that is faulty.
use adversary_script::{ScriptError, read_script};
use aegis_num::limits::{MAX_CHANGES, MAX_SCRIPT_BYTES};
use std::alloc::{AllocError, Global};
use std::process::Abort;
use std::test::Fail;

/// A script with each kind of change.
const SCRIPT: &str = "# all of them\r\n\nstart open 0xfFfF Aa\n\tstart code 70000003\r\n \t\n\
    start data 4294967295 070 0001\nat 0 node 2 0 ff\nat 7 save 15 text 3\n\
    suspend 0x0 back 0 log 1\nat 7\tcopy data 1\t data 2 ";

/// Its changes, in order.
const CHANGES: &str = "\
Change { when: Start, what: Open { at: 65535, bytes: Bytes { bytes: [170] } } }
Change { when: Start, what: Open { at: 8192, bytes: Bytes { bytes: [112, 0, 0, 3] } } }
Change { when: Start, what: Bytes { target: Data(4294967295), at: 70, bytes: Bytes { bytes: [0, 1] } } }
Change { when: At(0), what: Bytes { target: Node(2), at: 0, bytes: Bytes { bytes: [255] } } }
Change { when: At(7), what: Save { slot: 15, target: Text(3) } }
Change { when: Suspend(0), what: Back { slot: 0, target: Log(1) } }
Change { when: At(7), what: Copy { from: Data(1), to: Data(2) } }
";

/// Faulty scripts, each with its first fault.
const FAULTS: &str = "\n#\nstart=>Line { n: 3 };\
    start code=>Line { n: 1 };\
    start data 0 0=>Line { n: 1 };\
    start data 0 0 00 00=>Line { n: 1 };\
    start copy log 0 logs 0=>Line { n: 1 };\
    at open 0 00=>Line { n: 1 };\
    at x open x zz zz=>Line { n: 1 };\
    Start code 00=>Line { n: 1 };\
    # \x7f\nstart x=>Line { n: 1 };\
    \r\n#\r=>Line { n: 2 };\
    \r\r\n=>Line { n: 1 };\
    at -1 code 00=>Number { n: 1 };\
    at +1 code zz=>Number { n: 1 };\
    at 0x code 00=>Number { n: 1 };\
    at 0X1 code 00=>Number { n: 1 };\
    at 1a code 00=>Number { n: 1 };\
    at 0x100000000 code 00=>Number { n: 1 };\
    start open 65536 0=>Hex { n: 1 };\
    suspend 0 log 0 3 4=>Hex { n: 1 };\
    start open 65536 00=>Range { n: 1 };\
    start log 0 71 0000=>Range { n: 1 };\
    at 9 code 00\nat 4 back 16 log 0=>Range { n: 2 };\
    at 9 code 00\nstart code 00=>Order { n: 2 };\
    suspend 2 code 00\nat 0 code 00\nsuspend 1 code 00=>Order { n: 3 }";

#[test]
fn reads_each_change(rt: HostRuntime) -> Result<(), Fail> {
    assert!(rt; SCRIPT.len() as u64 <= MAX_SCRIPT_BYTES);
    let script = read_script(rt.alloc(), SCRIPT.as_bytes())?;
    for (change, told) in script.as_slice().iter().zip(CHANGES.lines()) {
        assert_eq!(rt; format!(in rt.alloc(); "{change:?}")?.as_str(), told);
    }
    assert_eq!(rt; script.changes.into_vec().len(), 7);
    Ok(())
}

/// The fault of a text, if it has one.
fn fault_of(rt: &impl Abort, alloc: Global, text: &[u8]) -> Option<ScriptError> {
    assert!(rt; text.len() as u64 <= MAX_SCRIPT_BYTES);
    read_script(alloc, text).err()
}

#[test]
fn tells_the_first_fault(rt: HostRuntime) -> Result<(), Fail> {
    for row in FAULTS.split(';') {
        let (text, told) = row.split_once("=>").ok_or("a fault")?;
        let fault = fault_of(&rt, rt.alloc(), text.as_bytes()).ok_or("no fault")?;
        assert_eq!(rt;
            format!(in rt.alloc(); "{fault:?}")?.as_str(),
            told,
            "{text}"
        );
    }
    Ok(())
}

/// A text of this many equal pieces.
fn repeated(alloc: Global, piece: &[u8], count: u32) -> Result<Vec<u8>, AllocError> {
    let mut text = Vec::new(alloc);
    for _ in 0..count {
        text.extend_from_slice(piece)?;
    }
    Ok(text)
}

#[test]
fn reads_the_most_changes(rt: HostRuntime) -> Result<(), Fail> {
    let line = b"at 5 open 0 000102030405060708090a0b0c0d0e0f\n";
    let mut text = repeated(rt.alloc(), line, MAX_CHANGES)?;
    text.extend_from_slice(b"\n#\n")?;
    assert_eq!(rt; fault_of(&rt, rt.alloc(), &text), None);
    text.extend_from_slice(b"at 5 save 0 log 0")?;
    let fault = fault_of(&rt, rt.alloc(), &text);
    assert_eq!(rt; fault, Some(ScriptError::TooMany { n: 4_099 }));
    Ok(())
}
