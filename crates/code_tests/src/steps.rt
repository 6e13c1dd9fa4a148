//! One step for each row of the instruction table, on operands at the edges, and for each cause that stops a step.
use aegis_num::OutOfMemory;
use orbis_core::{Core, FlatMemory, Port, StepEnd, step};
use regions::{Layout, OPEN_END, TREE_START};
use std::alloc::Global;
use std::test::Fail;

const CODE: u32 = TREE_START + 64;

/// A line for each step: a name, the word, its address, the flag, and registers 3, 4 and 5; and what comes of it: how
/// the step ends, registers 3 and 9, the next address, and the flag. All numbers are hexadecimal.
const STEPS: &str = "\
l.movhi 1860ffff 10000040 0 0 0 0 = Next ffff0000 0 10000044 false
l.addi 9c64ffff 10000040 0 0 0 0 = Next ffffffff 0 10000044 false
l.addi 9c647fff 10000040 0 0 80000000 0 = Next 80007fff 0 10000044 false
l.andi a464ff00 10000040 0 0 fffff0f0 0 = Next f000 0 10000044 false
l.ori a864ffff 10000040 0 0 10000 0 = Next 1ffff 0 10000044 false
l.slli b864001f 10000040 0 0 3 0 = Next 80000000 0 10000044 false
l.srli b864005f 10000040 0 0 80000000 0 = Next 1 0 10000044 false
l.srai b864009f 10000040 0 0 80000000 0 = Next ffffffff 0 10000044 false
l.add e0642800 10000040 0 0 ffffffff 2 = Next 1 0 10000044 false
l.sub e0642802 10000040 0 0 0 1 = Next ffffffff 0 10000044 false
l.and e0642803 10000040 0 0 f0f0 ff00 = Next f000 0 10000044 false
l.or e0642804 10000040 0 0 f0f0 ff00 = Next fff0 0 10000044 false
l.xor e0642805 10000040 0 0 f0f0 ff00 = Next ff0 0 10000044 false
l.mul e0642b06 10000040 0 0 ffffffff ffffffff = Next 1 0 10000044 false
l.mul e0642b06 10000040 0 0 10000 10000 = Next 0 0 10000044 false
l.div e0642b09 10000040 0 0 80000000 ffffffff = Next 80000000 0 10000044 false
l.div e0642b09 10000040 0 0 fffffff9 2 = Next fffffffd 0 10000044 false
l.divu e0642b0a 10000040 0 0 fffffff9 2 = Next 7ffffffc 0 10000044 false
l.sll e0642808 10000040 0 0 1 3f = Next 80000000 0 10000044 false
l.srl e0642848 10000040 0 0 80000000 3f = Next 1 0 10000044 false
l.sra e0642888 10000040 0 0 fffffff9 21 = Next fffffffc 0 10000044 false
l.nop 1500ffff 10000040 0 0 1 2 = Next 0 0 10000044 false
l.sfeq e4042800 10000040 0 0 ffffffff 1 = Next 0 0 10000044 false
l.sfeq e4042800 10000040 0 0 1 ffffffff = Next 0 0 10000044 false
l.sfeq e4042800 10000040 0 0 7 7 = Next 0 0 10000044 true
l.sfne e4242800 10000040 0 0 ffffffff 1 = Next 0 0 10000044 true
l.sfne e4242800 10000040 0 0 1 ffffffff = Next 0 0 10000044 true
l.sfne e4242800 10000040 0 0 7 7 = Next 0 0 10000044 false
l.sfgtu e4442800 10000040 0 0 ffffffff 1 = Next 0 0 10000044 true
l.sfgtu e4442800 10000040 0 0 1 ffffffff = Next 0 0 10000044 false
l.sfgtu e4442800 10000040 0 0 7 7 = Next 0 0 10000044 false
l.sfgeu e4642800 10000040 0 0 ffffffff 1 = Next 0 0 10000044 true
l.sfgeu e4642800 10000040 0 0 1 ffffffff = Next 0 0 10000044 false
l.sfgeu e4642800 10000040 0 0 7 7 = Next 0 0 10000044 true
l.sfltu e4842800 10000040 0 0 ffffffff 1 = Next 0 0 10000044 false
l.sfltu e4842800 10000040 0 0 1 ffffffff = Next 0 0 10000044 true
l.sfltu e4842800 10000040 0 0 7 7 = Next 0 0 10000044 false
l.sfleu e4a42800 10000040 0 0 ffffffff 1 = Next 0 0 10000044 false
l.sfleu e4a42800 10000040 0 0 1 ffffffff = Next 0 0 10000044 true
l.sfleu e4a42800 10000040 0 0 7 7 = Next 0 0 10000044 true
l.sfgts e5442800 10000040 0 0 ffffffff 1 = Next 0 0 10000044 false
l.sfgts e5442800 10000040 0 0 1 ffffffff = Next 0 0 10000044 true
l.sfgts e5442800 10000040 0 0 7 7 = Next 0 0 10000044 false
l.sfges e5642800 10000040 0 0 ffffffff 1 = Next 0 0 10000044 false
l.sfges e5642800 10000040 0 0 1 ffffffff = Next 0 0 10000044 true
l.sfges e5642800 10000040 0 0 7 7 = Next 0 0 10000044 true
l.sflts e5842800 10000040 0 0 ffffffff 1 = Next 0 0 10000044 true
l.sflts e5842800 10000040 0 0 1 ffffffff = Next 0 0 10000044 false
l.sflts e5842800 10000040 0 0 7 7 = Next 0 0 10000044 false
l.sfles e5a42800 10000040 0 0 ffffffff 1 = Next 0 0 10000044 true
l.sfles e5a42800 10000040 0 0 1 ffffffff = Next 0 0 10000044 false
l.sfles e5a42800 10000040 0 0 7 7 = Next 0 0 10000044 true
l.j 03fffffe 10000040 0 0 1234 0 = Next 0 0 10000038 false
l.j 00000003 10000040 0 0 1234 0 = Next 0 0 1000004c false
l.jal 07fffffe 10000040 0 0 1234 0 = Next 0 10000044 10000038 false
l.jal 04000003 10000040 1 0 1234 0 = Next 0 10000044 1000004c true
l.bnf 0ffffffe 10000040 0 0 1234 0 = Next 0 0 10000038 false
l.bnf 0c000003 10000040 1 0 1234 0 = Next 0 0 10000044 true
l.bf 13fffffe 10000040 1 0 1234 0 = Next 0 0 10000038 true
l.bf 10000003 10000040 0 0 1234 0 = Next 0 0 10000044 false
l.jr 44002000 10000040 0 0 1234 0 = Next 0 0 1234 false
l.cust1 70000000 10000040 0 8182 0 0 = Enter 8182 0 10000044 false
l.cust1 70000001 10000040 0 8182 0 0 = Exit 8182 0 10000044 false
l.cust1 70000002 10000040 0 8182 0 0 = Suspend 8182 0 10000044 false
l.cust1 70000003 10000040 0 8182 0 0 = Resume 8182 0 10000044 false
l.cust1 70000004 10000040 0 8182 0 0 = Private(true) 8182 0 10000044 false
l.cust1 70000005 10000040 0 8182 0 0 = Private(false) 8182 0 10000044 false
l.cust1 70000006 10000040 0 8182 0 0 = Released(130) 8182 0 10000044 false
l.cust1 70000007 10000040 0 8182 0 0 = Input 8182 0 10000044 false
l.cust1 70000008 10000040 0 8182 0 0 = Check 8182 0 10000044 false
l.cust1 70000009 10000040 0 8182 0 0 = Index(33154) 8182 0 10000044 false
l.cust1 7000000a 10000040 0 8182 0 0 = Divide(33154) 8182 0 10000044 false
fetch 00000000 1000003c 0 0 0 0 = Stopped(Refused(Rights)) 0 0 1000003c false
fetch 15000000 10000080 0 0 0 0 = Stopped(Refused(Rights)) 0 0 10000080 false
fetch 15000000 10000042 0 0 0 0 = Stopped(Refused(Misaligned)) 0 0 10000042 false
none 15010000 10000040 0 0 0 0 = Stopped(Refused(Illegal)) 0 0 10000040 false
none 7000000b 10000040 0 0 0 0 = Stopped(Refused(Illegal)) 0 0 10000040 false
none 70000026 10000040 0 0 0 0 = Stopped(Refused(Illegal)) 0 0 10000040 false
l.div e0642b09 10000040 0 0 7 0 = Stopped(Refused(Divide)) 0 0 10000040 false
l.divu e0642b0a 10000040 0 0 0 0 = Stopped(Refused(Divide)) 0 0 10000040 false
l.lwz 84640000 10000040 0 0 10000040 0 = Stopped(Refused(Rights)) 0 0 10000040 false
l.lwz 84640000 10000040 0 0 10000041 0 = Stopped(Refused(Rights)) 0 0 10000040 false
l.lwz 84640000 10000040 0 0 10000002 0 = Stopped(Refused(Misaligned)) 0 0 10000040 false
l.lbz 8c640000 10000040 0 0 10000 0 = Stopped(Refused(Rights)) 0 0 10000040 false
l.sw d4042800 10000040 0 0 10000080 0 = Stopped(Refused(Rights)) 0 0 10000040 false
l.sw d4042800 10000040 0 0 ffff 0 = Stopped(Refused(Misaligned)) 0 0 10000040 false
l.sb d8042800 10000040 0 0 10000040 0 = Stopped(Refused(Rights)) 0 0 10000040 false
";

/// A memory of one verified block, and one code block that begins with these words.
fn memory_of(alloc: Global, words: [u32; 4]) -> Result<FlatMemory, OutOfMemory> {
    let layout = Layout {
        verified: 1,
        private: 0,
        constants: 0,
        code: 1,
        log: 0,
        shared: 0,
    };
    let mut statics = [0; 64];
    for (place, word) in words.iter().enumerate() {
        statics[4 * place..4 * place + 4].copy_from_slice(&word.to_be_bytes());
    }
    FlatMemory::new(alloc, &layout, &statics)
}

/// Puts a number into a register below 32, by l.movhi and l.ori.
fn set_register(
    alloc: Global,
    core: &mut Core,
    register: u32,
    value: u32,
) -> Result<(), OutOfMemory> {
    let high = 0x1800_0000 | register << 21 | value >> 16;
    let low = 0xa800_0000 | register << 21 | register << 16 | value & 0xffff;
    let mut mem = memory_of(alloc, [high, low, 0, 0])?;
    core.pc = CODE;
    for _ in 0..2 {
        let mut port = Port {
            input: b"",
            next: 0,
        };
        step(core, &mut mem, &mut port);
    }
    Ok(())
}

/// The next number of a line.
fn number(line: &mut &str) -> Result<u32, Fail> {
    let (word, rest) = line.split_once(' ').ok_or("a number")?;
    *line = rest;
    Ok(u32::from_str_radix(word, 16)?)
}

/// What comes of the step of a line, in the words of the lines.
fn outcome(alloc: Global, line: &str) -> Result<String, Fail> {
    let (_name, mut rest) = line.split_once(' ').ok_or("a name")?;
    let word = number(&mut rest)?;
    let mut mem = memory_of(alloc, [word, 0, 0, 0])?;
    let pc = number(&mut rest)?;
    let mut core = Core::new(pc);
    core.flag = number(&mut rest)? > 0;
    for register in 3..6 {
        set_register(alloc, &mut core, register, number(&mut rest)?)?;
    }
    core.pc = pc;
    let mut port = Port {
        input: b"",
        next: 0,
    };
    let end = step(&mut core, &mut mem, &mut port);
    let (third, ninth) = (core.register(3), core.register(9));
    Ok(format!(in alloc; "{end:?} {third:x} {ninth:x} {:x} {}", core.pc, core.flag)?)
}

#[test]
fn does_each_row(rt: HostRuntime) -> Result<(), Fail> {
    for line in STEPS.lines() {
        let (given, told) = line.split_once('=').ok_or("a line")?;
        assert_eq!(rt;
            outcome(rt.alloc(), given)?.as_str(),
            told.trim(),
            "{given}"
        );
    }
    Ok(())
}

/// What register 3 is after three steps: a word is stored at an address, one of its bytes is changed, and there is a load.
fn loaded(alloc: Global, at: u32, load: u32) -> Result<u32, OutOfMemory> {
    // l.sw -4(r4),r5; l.sb -3(r4),r6; the load
    let mut mem = memory_of(alloc, [0xd7e4_2ffc, 0xdbe4_37fd, load, 0])?;
    let mut core = Core::new(CODE);
    set_register(alloc, &mut core, 4, at)?;
    set_register(alloc, &mut core, 5, 0x8083_8281)?;
    set_register(alloc, &mut core, 6, 0x1234_56fe)?;
    core.pc = CODE;
    for _ in 0..3 {
        let mut port = Port {
            input: b"",
            next: 0,
        };
        step(&mut core, &mut mem, &mut port);
    }
    Ok(core.register(3))
}

#[test]
fn loads_and_stores(rt: HostRuntime) -> Result<(), Fail> {
    // Of a verified address and of an open one: l.lwz -4(r4); l.lbz -4(r4); l.lbz -1(r4).
    let rows = [
        (0x8464_fffc, 0x80fe_8281),
        (0x8c64_fffc, 0x80),
        (0x8c64_ffff, 0x81),
    ];
    for (load, result) in rows {
        assert_eq!(rt;
            loaded(rt.alloc(), TREE_START + 4, load)?,
            result,
            "{load:08x}"
        );
        assert_eq!(rt; loaded(rt.alloc(), OPEN_END, load)?, result, "{load:08x}");
    }
    Ok(())
}

#[test]
fn reads_the_port(rt: HostRuntime) -> Result<(), Fail> {
    let input = 0x7000_0007;
    // The last word would write register 0, which stays zero.
    let mut mem = memory_of(rt.alloc(), [input, input, 0x1800_0001, 0])?;
    let mut core = Core::new(CODE);
    let mut port = Port {
        input: b"\xfe",
        next: 0,
    };
    assert_eq!(rt; step(&mut core, &mut mem, &mut port), StepEnd::Input);
    assert_eq!(rt; core.register(11), 0xfe);
    assert_eq!(rt; port.next, 1);
    assert_eq!(rt; step(&mut core, &mut mem, &mut port), StepEnd::Input);
    assert_eq!(rt; core.register(11), u32::MAX);
    assert_eq!(rt; port.next, 1);
    assert_eq!(rt; step(&mut core, &mut mem, &mut port), StepEnd::Next);
    assert_eq!(rt; core.register(0), 0);
    Ok(())
}
