//! The weights, typed in by hand.
use aegis_num::{BinaryOp, UnaryOp};
use ir_code::Op;

#[test]
fn weighs_each_operation(rt: HostRuntime) {
    let (to, from, a, b, l) = (1, 2, 3, 4, 5);
    let unary = Op::Unary {
        op: UnaryOp::Neg,
        to,
        a,
    };
    let binary = Op::Binary {
        op: BinaryOp::DivS,
        to,
        a,
        b,
    };
    let rows = [
        (Op::Const { to, value: 7 }, 4),
        (Op::Copy { to, from }, 4),
        (unary, 8),
        (binary, 12),
        (
            Op::Test {
                a,
                length: 2,
                token: 9,
            },
            10,
        ),
        (Op::NonZero { a, token: 9 }, 8),
        (
            Op::Load {
                to,
                array: 0,
                index: a,
            },
            10,
        ),
        (
            Op::Store {
                array: 0,
                index: a,
                from,
            },
            10,
        ),
        (Op::Label(l), 0),
        (Op::Jump(l), 1),
        (Op::JumpZero { a, l }, 4),
        (Op::Arg { slot: 0, from }, 2),
        (Op::Param { to, slot: 0 }, 2),
        (Op::Call(l), 1),
        (Op::SaveLink(a), 2),
        (Op::Return(a), 3),
        (Op::SetResult { from }, 2),
        (Op::Result { to }, 2),
        (Op::Input { to }, 3),
        (Op::Release { a }, 3),
        (Op::Check, 1),
        (Op::Suspend, 1),
        (Op::SetMode(true), 1),
        (Op::Exit, 1),
    ];
    for (op, weight) in rows {
        assert_eq!(rt; op.weight(), weight, "{op:?}");
    }
}
