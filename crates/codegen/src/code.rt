//! Code as it is written, instruction after instruction.
ghost use Rattle.std.specs.Prelude.{◌≡◌, ◌<◌, ◌≤◌, ◌+◌, ◌^◌, ◌++◌, [], ◌∷◌, map, Some, OnOk};
ghost use Rattle.orbis_word.specs.Reading.{instruction_in};
ghost use Rattle.orbis_word.specs.Table.{IsInRange};
ghost use Rattle.orbis_word.specs.declared.Instr.TheVariants.{J as Jump};
ghost use Rattle.codegen.specs.OpInstructions.{base, distance, fill, flagged, indexed, keep, lower, number, read_into, start_code, trapped, upper};

use crate::sites::distance;
use aegis_num::OutOfMemory;
use orbis_word::{Instr, encode};
use std::alloc::Global;
use std::marker::Model;

/// Words of code, which contracts see as the instructions that they are.
#[derive(Drop)]
pub struct Code {
    words: Vec<u32>,
}

impl Model for Code {
    ghost use Rattle.std.specs.Prelude.{List, Option, map};
    ghost use Rattle.orbis_word.specs.declared.Instr.{Instr as SomeInstr};
    ghost use Rattle.orbis_word.specs.Reading.{instruction_in};

    ghost Value = { List (Option SomeInstr) };

    ghost view = { λ code. map instruction_in code.words.items };
}

/// The upper part of an address, for an instruction that has the lower one with a sign.
fn upper(address: u32) -> u16
    requires { address < 2 ^ 31 }
    ensures { result ≡ upper address }
{
    ((address + 0x8000) / 0x1_0000) as u16
}

/// The lower part of an address, with a sign.
pub fn lower(address: u32) -> i16
    ensures { result ≡ lower address }
{
    ((address % 0x1_0000) as u16).cast_signed()
}

/// The register that has the upper part of an address.
fn base(address: u32) -> u8
    requires { address < 2 ^ 31 }
    ensures base { result ≡ base address }
    ensures register { result < 32 }
{
    let part = upper(address);
    if part < 0x1000 {
        25
    } else if part < 0x2000 {
        16 + (part % 8) as u8
    } else {
        23 + (part % 2) as u8
    }
}

impl Code {
    /// No code.
    pub fn new(alloc: Global) -> Code
        ensures { result ≡ [] }
    {
        Code {
            words: Vec::new(alloc),
        }
    }

    /// The words.
    pub fn into_words(self) -> Vec<u32>
        ensures { map instruction_in result.items ≡ self }
    {
        self.words
    }

    /// Puts an instruction at the end.
    pub fn push(&mut self, instruction: Instr) -> Result<(), OutOfMemory>
        requires { IsInRange instruction }
        ensures { OnOk result (self.new ≡ self.old ++ Some instruction ∷ []) }
    {
        self.words.push(encode(instruction))?;
        Ok(())
    }

    /// Register `d` gets the word at an address.
    pub fn fetch(&mut self, d: u8, address: u32) -> Result<(), OutOfMemory>
        requires register { d < 32 }
        requires low { address < 2 ^ 31 }
        ensures { OnOk result (self.new ≡ self.old ++ map Some (read_into d address [])) }
    {
        let i = lower(address);
        let a = base(address);
        self.push(Instr::Lwz { d, i, a })
    }

    /// The word of register `b` is put at an address.
    pub fn keep(&mut self, address: u32, b: u8) -> Result<(), OutOfMemory>
        requires register { b < 32 }
        requires low { address < 2 ^ 31 }
        ensures { OnOk result (self.new ≡ self.old ++ map Some (keep address b [])) }
    {
        let i = lower(address);
        let a = base(address);
        self.push(Instr::Sw { i, a, b })
    }

    /// Register `d` gets a word.
    pub fn number(&mut self, d: u8, word: u32) -> Result<(), OutOfMemory>
        requires { d < 32 }
        ensures { OnOk result (self.new ≡ self.old ++ map Some (number d word [])) }
    {
        let k = (word / 0x1_0000) as u16;
        self.push(Instr::Movhi { d, k })?;
        let k = (word % 0x1_0000) as u16;
        self.push(Instr::Ori { d, a: d, k })
    }

    /// Register 12 gets the upper part of an address and four times register 13.
    pub fn indexed(&mut self, address: u32) -> Result<(), OutOfMemory>
        requires { address < 2 ^ 31 }
        ensures { OnOk result (self.new ≡ self.old ++ map Some (indexed address [])) }
    {
        self.push(Instr::Slli { d: 13, a: 13, l: 2 })?;
        let a = base(address);
        self.push(Instr::Add { d: 12, a, b: 13 })
    }

    /// Register 13 gets 1 where the flag is set, and else 0.
    pub fn flagged(&mut self) -> Result<(), OutOfMemory>
        ensures { OnOk result (self.new ≡ self.old ++ map Some (flagged [])) }
    {
        self.push(Instr::Addi { d: 13, a: 0, i: 1 })?;
        self.push(Instr::Bf { n: 2 })?;
        self.push(Instr::Addi { d: 13, a: 0, i: 0 })
    }

    /// Where the flag is not set the run ends by a trap, at this token.
    pub fn trapped(&mut self, trap: u8, token: u32) -> Result<(), OutOfMemory>
        requires { trap ≤ 10 }
        ensures { OnOk result (self.new ≡ self.old ++ map Some (trapped trap token)) }
    {
        self.push(Instr::Bf { n: 4 })?;
        self.number(3, token)?;
        self.push(Instr::Cust1 { f: trap })
    }

    /// A jump from one instruction to another, by their numbers.
    pub fn jump(&mut self, from: u32, to: u32) -> Result<(), OutOfMemory>
        requires from { from < 2 ^ 25 }
        requires to { to < 2 ^ 25 }
        ensures { OnOk result (self.new ≡ self.old ++ Some (Jump (distance from to)) ∷ []) }
    {
        let n = distance(from, to);
        self.push(Instr::J { n })
    }

    /// So many registers from one on get upper parts, from this one on.
    fn fill(&mut self, d: u8, part: u16, count: u8) -> Result<(), OutOfMemory>
        requires registers { d + count ≤ 32 }
        requires parts { part + count ≤ 2 ^ 16 }
        ensures { OnOk result (self.new ≡ self.old ++ map Some (fill d part count [])) }
    {
        for i in 0..count {
            let k = part + i as u16;
            self.push(Instr::Movhi { d: d + i, k })?;
        }
        Ok(())
    }

    /// The start: the upper parts come into their registers, and the run goes on at an instruction. The first instruction
    /// of these has this number.
    pub fn start(&mut self, number: u32, entry: u32) -> Result<(), OutOfMemory>
        requires near { number + 10 < 2 ^ 25 }
        requires entry { entry < 2 ^ 25 }
        ensures { OnOk result (self.new ≡ self.old ++ map Some (start_code number entry)) }
    {
        self.fill(16, 0x1000, 7)?;
        self.fill(23, 0x2000, 2)?;
        self.fill(25, 1, 1)?;
        self.jump(number + 10, entry)
    }
}
