//! The instructions of each operation.
ghost use Rattle.std.specs.Prelude.{◌≡◌, ◌<◌, ◌^◌, ◌+◌, ◌++◌, [], ◌∷◌, map, Some, OnOk};
ghost use Rattle.orbis_word.specs.Table.{IsInRange};
ghost use Rattle.orbis_word.specs.declared.Instr.TheVariants.{Mul as Times, Sub as Minus};
ghost use Rattle.ir_code.specs.declared.Op.TheVariants as op;
ghost use Rattle.codegen.specs.OpInstructions.{flagged, instructions_of, on_one, on_two};
ghost use Rattle.codegen.specs.Numbers.{sites_in, AreLow, HasSlots};

use crate::code::{Code, lower};
use crate::sites::{Sites, distance};
use aegis_num::{BinaryOp, OutOfMemory, UnaryOp};
use ir_code::Op;
use orbis_word::Instr;

impl Code {
    /// An operator on register 13.
    pub fn on_one(&mut self, operator: UnaryOp) -> Result<(), OutOfMemory>
        ensures { OnOk result (self.new ≡ self.old ++ map Some (on_one operator [])) }
    {
        let (d, a, b) = (13, 0, 13);
        match operator {
            UnaryOp::Neg => self.push(Instr::Sub { d, a, b }),
            UnaryOp::Inv => {
                self.push(Instr::Addi { d: 14, a, i: -1 })?;
                self.push(Instr::Sub { d, a: 14, b })
            }
            UnaryOp::Not => self.comparison(Instr::Sfeq { a: 13, b: 0 }),
        }
    }

    /// An instruction that sets the flag, which register 13 then gets.
    pub fn comparison(&mut self, test: Instr) -> Result<(), OutOfMemory>
        requires { IsInRange test }
        ensures { OnOk result (self.new ≡ self.old ++ Some test ∷ map Some (flagged [])) }
    {
        self.push(test)?;
        self.flagged()
    }

    /// The remainder of registers 13 and 14, with an instruction that puts their quotient in register 15.
    pub fn remainder(&mut self, quotient: Instr) -> Result<(), OutOfMemory>
        requires { IsInRange quotient }
        ensures { OnOk result (self.new ≡ self.old
            ++ map Some (quotient ∷ Times 15 15 14 ∷ Minus 13 13 15 ∷ [])) }
    {
        self.push(quotient)?;
        let (d, a, b) = (15, 15, 14);
        self.push(Instr::Mul { d, a, b })?;
        let (d, a, b) = (13, 13, 15);
        self.push(Instr::Sub { d, a, b })
    }

    /// An operator on registers 13 and 14.
    pub fn on_two(&mut self, operator: BinaryOp) -> Result<(), OutOfMemory>
        ensures { OnOk result (self.new ≡ self.old ++ map Some (on_two operator [])) }
    {
        let (d, a, b) = (13, 13, 14);
        match operator {
            BinaryOp::Add => self.push(Instr::Add { d, a, b }),
            BinaryOp::Sub => self.push(Instr::Sub { d, a, b }),
            BinaryOp::Mul => self.push(Instr::Mul { d, a, b }),
            BinaryOp::DivS => self.push(Instr::Div { d, a, b }),
            BinaryOp::DivU => self.push(Instr::Divu { d, a, b }),
            BinaryOp::RemS => self.remainder(Instr::Div { d: 15, a, b }),
            BinaryOp::RemU => self.remainder(Instr::Divu { d: 15, a, b }),
            BinaryOp::And => self.push(Instr::And { d, a, b }),
            BinaryOp::Or => self.push(Instr::Or { d, a, b }),
            BinaryOp::Xor => self.push(Instr::Xor { d, a, b }),
            BinaryOp::Shl => self.push(Instr::Sll { d, a, b }),
            BinaryOp::ShrS => self.push(Instr::Sra { d, a, b }),
            BinaryOp::ShrU => self.push(Instr::Srl { d, a, b }),
            BinaryOp::Eq => self.comparison(Instr::Sfeq { a, b }),
            BinaryOp::Ne => self.comparison(Instr::Sfne { a, b }),
            BinaryOp::LtS => self.comparison(Instr::Sflts { a, b }),
            BinaryOp::LtU => self.comparison(Instr::Sfltu { a, b }),
            BinaryOp::LeS => self.comparison(Instr::Sfles { a, b }),
            BinaryOp::LeU => self.comparison(Instr::Sfleu { a, b }),
            BinaryOp::GtS => self.comparison(Instr::Sfgts { a, b }),
            BinaryOp::GtU => self.comparison(Instr::Sfgtu { a, b }),
            BinaryOp::GeS => self.comparison(Instr::Sfges { a, b }),
            BinaryOp::GeU => self.comparison(Instr::Sfgeu { a, b }),
        }
    }

    /// `Op::Unary`.
    fn unary(
        &mut self,
        sites: &Sites,
        operator: UnaryOp,
        to: u32,
        a: u32,
    ) -> Result<(), OutOfMemory>
        requires { AreLow sites.now.homes.now sites.now.labels.now }
        ensures { OnOk result (self.new ≡ self.old ++ map Some (instructions_of
            (sites_in sites.now.homes.now sites.now.labels.now) 0 (op.Unary operator to a))) }
    {
        self.fetch(13, sites.home(a))?;
        self.on_one(operator)?;
        self.keep(sites.home(to), 13)
    }

    /// `Op::Binary`.
    fn binary(
        &mut self,
        sites: &Sites,
        operator: BinaryOp,
        to: u32,
        a: u32,
        b: u32,
    ) -> Result<(), OutOfMemory>
        requires { AreLow sites.now.homes.now sites.now.labels.now }
        ensures { OnOk result (self.new ≡ self.old ++ map Some (instructions_of
            (sites_in sites.now.homes.now sites.now.labels.now) 0 (op.Binary operator to a b))) }
    {
        self.fetch(13, sites.home(a))?;
        self.fetch(14, sites.home(b))?;
        self.on_two(operator)?;
        self.keep(sites.home(to), 13)
    }

    /// `Op::Test`.
    fn test(&mut self, sites: &Sites, a: u32, length: u32, token: u32) -> Result<(), OutOfMemory>
        requires { AreLow sites.now.homes.now sites.now.labels.now }
        ensures { OnOk result (self.new ≡ self.old ++ map Some (instructions_of
            (sites_in sites.now.homes.now sites.now.labels.now) 0 (op.Test a length token))) }
    {
        self.fetch(13, sites.home(a))?;
        self.number(14, length)?;
        self.push(Instr::Sfltu { a: 13, b: 14 })?;
        self.trapped(9, token)
    }

    /// `Op::NonZero`.
    fn nonzero(&mut self, sites: &Sites, a: u32, token: u32) -> Result<(), OutOfMemory>
        requires { AreLow sites.now.homes.now sites.now.labels.now }
        ensures { OnOk result (self.new ≡ self.old ++ map Some (instructions_of
            (sites_in sites.now.homes.now sites.now.labels.now) 0 (op.NonZero a token))) }
    {
        self.fetch(13, sites.home(a))?;
        self.push(Instr::Sfne { a: 13, b: 0 })?;
        self.trapped(10, token)
    }

    /// `Op::Load`.
    fn load(&mut self, sites: &Sites, to: u32, array: u32, index: u32) -> Result<(), OutOfMemory>
        requires { AreLow sites.now.homes.now sites.now.labels.now }
        ensures { OnOk result (self.new ≡ self.old ++ map Some (instructions_of
            (sites_in sites.now.homes.now sites.now.labels.now) 0 (op.Load to array index))) }
    {
        let start = sites.home(array);
        self.fetch(13, sites.home(index))?;
        self.indexed(start)?;
        let i = lower(start);
        self.push(Instr::Lwz { d: 13, i, a: 12 })?;
        self.keep(sites.home(to), 13)
    }

    /// `Op::Store`.
    fn store(&mut self, sites: &Sites, array: u32, index: u32, from: u32) -> Result<(), OutOfMemory>
        requires { AreLow sites.now.homes.now sites.now.labels.now }
        ensures { OnOk result (self.new ≡ self.old ++ map Some (instructions_of
            (sites_in sites.now.homes.now sites.now.labels.now) 0 (op.Store array index from))) }
    {
        let start = sites.home(array);
        self.fetch(13, sites.home(index))?;
        self.fetch(14, sites.home(from))?;
        self.indexed(start)?;
        let i = lower(start);
        self.push(Instr::Sw { i, a: 12, b: 14 })
    }

    /// `Op::JumpZero`, the first instruction having this number.
    fn jump_zero(&mut self, sites: &Sites, number: u32, a: u32, l: u32) -> Result<(), OutOfMemory>
        requires low { AreLow sites.now.homes.now sites.now.labels.now }
        requires near { number + 3 < 2 ^ 25 }
        ensures { OnOk result (self.new ≡ self.old ++ map Some (instructions_of
            (sites_in sites.now.homes.now sites.now.labels.now) number (op.JumpZero a l))) }
    {
        self.fetch(13, sites.home(a))?;
        self.push(Instr::Sfeq { a: 13, b: 0 })?;
        let n = distance(number + 2, sites.label(l));
        self.push(Instr::Bf { n })
    }

    /// `Op::Return`.
    fn going_back(&mut self, sites: &Sites, cell: u32) -> Result<(), OutOfMemory>
        requires { AreLow sites.now.homes.now sites.now.labels.now }
        ensures { OnOk result (self.new ≡ self.old ++ map Some (instructions_of
            (sites_in sites.now.homes.now sites.now.labels.now) 0 (op.Return cell))) }
    {
        self.fetch(9, sites.home(cell))?;
        self.push(Instr::Jr { b: 9 })
    }

    /// The instructions of an operation, the first of which has this number.
    pub fn operation(&mut self, sites: &Sites, number: u32, o: Op) -> Result<(), OutOfMemory>
        requires low { AreLow sites.now.homes.now sites.now.labels.now }
        requires near { number + 3 < 2 ^ 25 }
        requires slots { HasSlots o }
        ensures { OnOk result (self.new ≡ self.old ++ map Some (instructions_of
            (sites_in sites.now.homes.now sites.now.labels.now) number o)) }
    {
        match o {
            Op::Const { to, value } => {
                self.number(13, value)?;
                self.keep(sites.home(to), 13)
            }
            Op::Copy { to, from } => {
                self.fetch(13, sites.home(from))?;
                self.keep(sites.home(to), 13)
            }
            Op::Unary { op, to, a } => self.unary(sites, op, to, a),
            Op::Binary { op, to, a, b } => self.binary(sites, op, to, a, b),
            Op::Test { a, length, token } => self.test(sites, a, length, token),
            Op::NonZero { a, token } => self.nonzero(sites, a, token),
            Op::Load { to, array, index } => self.load(sites, to, array, index),
            Op::Store { array, index, from } => self.store(sites, array, index, from),
            Op::Label(_) => Ok(()),
            Op::Jump(l) => self.jump(number, sites.label(l)),
            Op::JumpZero { a, l } => self.jump_zero(sites, number, a, l),
            Op::Arg { slot, from } => self.fetch(3 + slot as u8, sites.home(from)),
            Op::Param { to, slot } => self.keep(sites.home(to), 3 + slot as u8),
            Op::Call(l) => {
                let n = distance(number, sites.label(l));
                self.push(Instr::Jal { n })
            }
            Op::SaveLink(cell) => self.keep(sites.home(cell), 9),
            Op::Return(cell) => self.going_back(sites, cell),
            Op::SetResult { from } => self.fetch(11, sites.home(from)),
            Op::Result { to } => self.keep(sites.home(to), 11),
            Op::Input { to } => {
                self.push(Instr::Cust1 { f: 7 })?;
                self.keep(sites.home(to), 11)
            }
            Op::Release { a } => {
                self.fetch(3, sites.home(a))?;
                self.push(Instr::Cust1 { f: 6 })
            }
            Op::Check => self.push(Instr::Cust1 { f: 8 }),
            Op::Suspend => self.push(Instr::Cust1 { f: 2 }),
            Op::SetMode(true) => self.push(Instr::Cust1 { f: 4 }),
            Op::SetMode(false) => self.push(Instr::Cust1 { f: 5 }),
            Op::Exit => self.push(Instr::Cust1 { f: 1 }),
        }
    }
}
