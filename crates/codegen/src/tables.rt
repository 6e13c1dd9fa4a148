//! How many instructions operations become, and which numbers the instructions at labels have.
ghost use Rattle.std.specs.Prelude.{◌≡◌, ◌<◌, ◌≤◌, ◌*◌, ◌^◌, ℕ, length, nat_eq, IfOk};
ghost use Rattle.std.specs.HashMap.{get};
ghost use Rattle.ir_code.specs.declared.Op.TheVariants.{Binary, Unary};
ghost use Rattle.codegen.specs.ImageCode.{code_size, size_of};
ghost use Rattle.codegen.specs.Numbers.{label_number};

use crate::sites::LabelTable;
use aegis_num::{BinaryOp, OutOfMemory, UnaryOp};
use ir_code::Op;
use std::alloc::Global;
use std::collections::HashMap;

/// How many instructions an operator of one operand becomes, with those that fetch and keep.
fn size_of_unary(operator: UnaryOp) -> u32
    ensures size { (to a : ℕ) → result ≡ size_of (Unary operator to a) }
    ensures small { result ≤ 8 }
{
    match operator {
        UnaryOp::Neg => 3,
        UnaryOp::Inv => 4,
        UnaryOp::Not => 6,
    }
}

/// How many instructions an operator of two operands becomes, with those that fetch and keep.
fn size_of_binary(operator: BinaryOp) -> u32
    ensures size { (to a b : ℕ) → result ≡ size_of (Binary operator to a b) }
    ensures small { result ≤ 8 }
{
    match operator {
        BinaryOp::RemS | BinaryOp::RemU => 6,
        BinaryOp::Eq
        | BinaryOp::Ne
        | BinaryOp::LtS
        | BinaryOp::LtU
        | BinaryOp::LeS
        | BinaryOp::LeU
        | BinaryOp::GtS
        | BinaryOp::GtU
        | BinaryOp::GeS
        | BinaryOp::GeU => 7,
        _ => 4,
    }
}

/// How many instructions an operation becomes.
pub fn size_of(o: Op) -> u32
    ensures size { result ≡ size_of o }
    ensures small { result ≤ 8 }
{
    match o {
        Op::Label(_) => 0,
        Op::Jump(_)
        | Op::Arg { .. }
        | Op::Param { .. }
        | Op::Call(_)
        | Op::SaveLink(_)
        | Op::SetResult { .. }
        | Op::Result { .. }
        | Op::Check
        | Op::Suspend
        | Op::SetMode(_)
        | Op::Exit => 1,
        Op::Copy { .. } | Op::Return(_) | Op::Input { .. } | Op::Release { .. } => 2,
        Op::Const { .. } | Op::JumpZero { .. } => 3,
        Op::Load { .. } | Op::Store { .. } => 5,
        Op::NonZero { .. } => 6,
        Op::Test { .. } => 8,
        Op::Unary { op, .. } => size_of_unary(op),
        Op::Binary { op, .. } => size_of_binary(op),
    }
}

/// How many instructions operations become.
pub fn code_size(ops: &[Op]) -> u32
    requires { length ops.now < 2 ^ 28 }
    ensures size { result ≡ code_size ops.now }
    ensures small { result ≤ 8 * length ops.now }
{
    let mut size = 0;
    for o in ops {
        size += size_of(*o);
    }
    size
}

/// The numbers of the instructions at labels, where the operations become so many. Of labels of one number the first one counts.
pub fn labels_of(alloc: Global, ops: &[Op], size: u32) -> Result<LabelTable, OutOfMemory>
    requires { size ≡ code_size ops.now }
    ensures { IfOk result (λ table. (l : ℕ) → get nat_eq table.numbers l
        ≡ label_number 0 ops.now l) }
{
    let mut numbers = HashMap::new(alloc);
    let mut number = size;
    let mut place = ops.len();
    while place > 0 {
        place -= 1;
        number -= size_of(ops[place]);
        if let Op::Label(label) = ops[place] {
            numbers.insert(label, number)?;
        }
    }
    Ok(LabelTable { numbers })
}
