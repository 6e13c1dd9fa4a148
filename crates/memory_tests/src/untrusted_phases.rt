//! Phases on a plain memory, which holds the resume instruction where untrusted code starts.
ghost use Rattle.std.specs.Prelude.{◌≤◌};

use off_chip::{Event, Mark, OffChip, PlainDram, Who};
use regions::Layout;
use std::test::Fail;
use untrusted_run::{UntrustedEnd, run_untrusted};

// Puts words where untrusted code starts, and runs them.
fn run<M: OffChip>(memory: &mut M, words: &[u32; 4]) -> UntrustedEnd
    requires has_room { 32_768 ≤ M.room memory.old }
{
    memory.write_word(Who::Untrusted, 0x2000, words[0]);
    memory.write_word(Who::Untrusted, 0x2004, words[1]);
    memory.write_word(Who::Untrusted, 0x2008, words[2]);
    memory.write_word(Who::Untrusted, 0x200c, words[3]);
    run_untrusted(memory)
}

#[test]
fn runs_untrusted_code(rt: HostRuntime) -> Result<(), Fail> {
    let layout = Layout {
        verified: 0,
        private: 0,
        constants: 0,
        code: 1,
        log: 0,
        shared: 0,
    };
    let statics = vec![in rt.alloc(); 0; 64]?;
    let mut dram = PlainDram::new(rt.alloc(), &layout, statics.as_slice(), 32_768)?;
    assert_eq!(rt; run_untrusted(&mut dram), UntrustedEnd::Resumed);
    let trace = dram.into_trace();
    let fetch = Event::WordRead {
        by: Who::Untrusted,
        at: 0x2000,
        word: 0x7000_0003,
    };
    let retire = Event::Note(Mark::Retire(Who::Untrusted));
    assert_eq!(rt; trace.events(), &[fetch, retire][..]);

    // A loop, a store that is refused, and code that stores and resumes: l.j 0; l.movhi and l.sw; l.sw and resume.
    let codes = [
        ([0, 0, 0, 0], UntrustedEnd::Watchdog),
        ([0x1860_1000, 0xd403_0000, 0, 0], UntrustedEnd::Refused),
        ([0xd400_0000, 0x7000_0003, 0, 0], UntrustedEnd::Resumed),
    ];
    for (words, end) in codes {
        let mut dram = PlainDram::new(rt.alloc(), &layout, statics.as_slice(), 40_000)?;
        assert_eq!(rt; run(&mut dram, &words), end);
    }
    Ok(())
}
