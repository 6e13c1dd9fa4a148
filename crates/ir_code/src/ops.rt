//! The operations of flat code.
ghost use Rattle.std.specs.Prelude.{◌≡◌};
ghost use Rattle.ir_code.specs.OpTable.{weight_of};

use aegis_num::{BinaryOp, UnaryOp};

/// An operation. Cells, labels and slots are numbers; a cell that is not an array has one word. An operand is called by what
/// is done with it: `to` is written, and the others are read.
#[derive(Clone, Copy, Debug, PartialEq, Eq)]
pub enum Op {
    /// A word is put into a cell.
    Const {
        /// The cell.
        to: u32,
        /// The word.
        value: u32,
    },
    /// A cell's word is put into another cell.
    Copy {
        /// The cell that gets it.
        to: u32,
        /// The cell that has it.
        from: u32,
    },
    /// An operator of one operand.
    Unary {
        /// The operator.
        op: UnaryOp,
        /// The cell that gets the value.
        to: u32,
        /// The operand.
        a: u32,
    },
    /// An operator of two operands. One that divides is reached with no zero divisor.
    Binary {
        /// The operator.
        op: BinaryOp,
        /// The cell that gets the value.
        to: u32,
        /// The operand before the sign.
        a: u32,
        /// The operand after it.
        b: u32,
    },
    /// The run ends where an index is not below a length.
    Test {
        /// The index.
        a: u32,
        /// The length.
        length: u32,
        /// The token at which the run ends.
        token: u32,
    },
    /// The run ends where a divisor is zero.
    NonZero {
        /// The divisor.
        a: u32,
        /// The token at which the run ends.
        token: u32,
    },
    /// An element of an array is put into a cell. It is reached with an index in range.
    Load {
        /// The cell that gets the element.
        to: u32,
        /// The array.
        array: u32,
        /// The index.
        index: u32,
    },
    /// A cell's word is put into an element of an array. It is reached with an index in range.
    Store {
        /// The array.
        array: u32,
        /// The index.
        index: u32,
        /// The cell that has the word.
        from: u32,
    },
    /// A place to which other operations go, by its number.
    Label(u32),
    /// The run goes to a label.
    Jump(u32),
    /// The run goes to a label where a cell's word is zero.
    JumpZero {
        /// The cell.
        a: u32,
        /// The label.
        l: u32,
    },
    /// An argument is handed over in a slot.
    Arg {
        /// The slot, from 0 to 5.
        slot: u32,
        /// The cell that has the argument.
        from: u32,
    },
    /// A parameter is taken out of a slot.
    Param {
        /// The cell that gets it.
        to: u32,
        /// The slot, from 0 to 5.
        slot: u32,
    },
    /// The run goes to a label, and leaves a link: the place after this one.
    Call(u32),
    /// The link that a call left is put into a cell.
    SaveLink(u32),
    /// The run goes to the link that a cell holds.
    Return(u32),
    /// The result of a call is handed over.
    SetResult {
        /// The cell that has it.
        from: u32,
    },
    /// The result of a call is taken.
    Result {
        /// The cell that gets it.
        to: u32,
    },
    /// The next byte of the input is put into a cell, or -1 after the last one.
    Input {
        /// The cell that gets it.
        to: u32,
    },
    /// The low eight bits of a cell's word are released.
    Release {
        /// The cell.
        a: u32,
    },
    /// The log is checked.
    Check,
    /// Untrusted code runs.
    Suspend,
    /// The private mode is entered or left.
    SetMode(bool),
    /// The program ends.
    Exit,
}

impl Op {
    /// The weight of the operation: at most so many instruction words are made of it, and run for it.
    pub fn weight(self) -> u32
        ensures { result ≡ weight_of self }
    {
        match self {
            Op::Label(_) => 0,
            Op::Jump(_) | Op::Call(_) | Op::Check | Op::Suspend | Op::SetMode(_) | Op::Exit => 1,
            Op::Arg { .. }
            | Op::Param { .. }
            | Op::SaveLink(_)
            | Op::SetResult { .. }
            | Op::Result { .. } => 2,
            Op::Return(_) | Op::Input { .. } | Op::Release { .. } => 3,
            Op::Const { .. } | Op::Copy { .. } | Op::JumpZero { .. } => 4,
            Op::Unary { .. } | Op::NonZero { .. } => 8,
            Op::Test { .. } | Op::Load { .. } | Op::Store { .. } => 10,
            Op::Binary { .. } => 12,
        }
    }
}
