use crate::ends::TopEnd;
use crate::top::aegis;
use aegis_edge::{MemFolder, MemSink};
use c_meaning::MeanEnd;
use std::alloc::{AllocError, Global};
use std::test::Fail;

/// These words, each on its own.
fn words_of(alloc: Global, line: &str) -> Result<Vec<String>, AllocError> {
    let mut words = Vec::new(alloc);
    for word in line.split(' ') {
        words.push(String::from_str(alloc, word)?)?;
    }
    Ok(words)
}

const RUN: &str = "run hi none none 33554432 000102030405060708090a0b0c0d0e0f 0000000000000001";

/// What out and notes take of a run of a source that releases two bytes, where these calls of out fail.
fn sinks_of_run(alloc: Global, failing: &[(u64, u64)]) -> Result<(MemSink, MemSink), Fail> {
    let mut folder = MemFolder::new(alloc, &[])?;
    folder.add("hi", b"int main(void){release(72);release(105);return 0;}")?;
    folder.add("none", b"")?;
    let mut out = MemSink::with_room(alloc, 16, failing)?;
    let mut notes = MemSink::with_room(alloc, 80, &[])?;
    let words = words_of(alloc, RUN)?;
    aegis(alloc, words.as_slice(), &mut folder, &mut out, &mut notes);
    Ok((out, notes))
}

/// A run in memory with ample room, and one whose second byte is not taken.
#[test]
fn runs(rt: HostRuntime) -> Result<(), Fail> {
    let (out, notes) = sinks_of_run(rt.alloc(), &[])?;
    assert_eq!(rt; out.bytes(), b"Hi".as_slice());
    assert_eq!(rt; notes.bytes(), b"ended retired 31 events 0\n".as_slice());
    let (out, notes) = sinks_of_run(rt.alloc(), &[(1, 0)])?;
    assert_eq!(rt; out.bytes(), b"H".as_slice());
    assert_eq!(rt; notes.bytes(), b"write fault\n".as_slice());
    Ok(())
}

/// A meaning in memory with ample room.
#[test]
fn meaning(rt: HostRuntime) -> Result<(), Fail> {
    let alloc = rt.alloc();
    let mut folder = MemFolder::new(alloc, &[])?;
    folder.add(
        "count",
        b"int main(void){for(int i=input();i>=0;i=input())release(i);return 7;}",
    )?;
    folder.add("input", b"abc")?;
    let mut out = MemSink::with_room(alloc, 16, &[])?;
    let mut notes = MemSink::with_room(alloc, 80, &[])?;
    let words = words_of(alloc, "mean count input 2")?;
    let finish = aegis(alloc, words.as_slice(), &mut folder, &mut out, &mut notes);
    assert_eq!(rt; finish.end, TopEnd::Mean(MeanEnd::Turns));
    assert_eq!(rt; finish.status, 30);
    assert_eq!(rt; out.bytes(), b"ab".as_slice());
    assert_eq!(rt; notes.bytes(), b"turns\n".as_slice());
    Ok(())
}
