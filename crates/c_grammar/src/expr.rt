//! Expressions (ISO/IEC 9899, section 6.5).
use aegis_num::Name;
use c_token::Sign;
use sqlite_items::{Boxed, Items};

/// An expression. A token number counts the tokens of the text from 0.
#[derive(Debug, Drop)]
pub enum Expr {
    /// A number.
    Number {
        /// From 0 to 4294967295.
        value: u32,
        /// Whether it has the suffix `u`, or is above 2147483647.
        unsigned: bool,
        /// The number's own token.
        token: u32,
    },
    /// A name that stands alone.
    Name {
        /// The name.
        name: Name,
        /// The token of the name.
        token: u32,
    },
    /// An element of an array, as `name[index]`.
    Index {
        /// The name of the array.
        name: Name,
        /// What stands between the brackets.
        index: Boxed<Expr>,
        /// The token of the sign `[`.
        token: u32,
    },
    /// A call, as `name(a, b)`.
    Call {
        /// The name of the function.
        name: Name,
        /// The arguments, in order.
        arguments: Items<Expr>,
        /// The token of the name.
        token: u32,
    },
    /// `input()`
    Input {
        /// The token of the word.
        token: u32,
    },
    /// An expression between parentheses.
    Paren {
        /// What stands between them.
        inner: Boxed<Expr>,
        /// The token of the sign `(`.
        token: u32,
    },
    /// An operator of one operand: `-`, `~` or `!`.
    Unary {
        /// The operator.
        op: Sign,
        /// The operand.
        inner: Boxed<Expr>,
        /// The token of the operator.
        token: u32,
    },
    /// An operator of two operands.
    Binary {
        /// The operator.
        op: Sign,
        /// The operand before it.
        left: Boxed<Expr>,
        /// The operand after it.
        right: Boxed<Expr>,
        /// The token of the operator.
        token: u32,
    },
}
