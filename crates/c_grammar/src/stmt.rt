//! Statements (ISO/IEC 9899, section 6.8).
use crate::expr::Expr;
use aegis_num::Name;
use sqlite_items::{Boxed, Items};

/// A statement, a local, or a simple part of the head of a `for`. A token number counts the tokens of the
/// text from 0.
#[derive(Debug, Drop)]
pub enum Stmt {
    /// Locals and statements between braces.
    Block {
        /// They, in order.
        body: Items<Stmt>,
        /// The token of the sign `{`.
        token: u32,
    },
    /// A sign `;` alone.
    Empty {
        /// The token of the sign.
        token: u32,
    },
    /// The declaration of a local, as `int name = value`.
    Local {
        /// Whether its type is `unsigned`, and not `int`.
        unsigned: bool,
        /// The name.
        name: Name,
        /// What stands after the sign `=`, if it does.
        value: Option<Expr>,
        /// The token of the name.
        token: u32,
    },
    /// An assignment, as `name = value` or `name[index] = value`.
    Assign {
        /// The name that is assigned to.
        name: Name,
        /// What stands between the brackets, if they do.
        index: Option<Expr>,
        /// What stands after the sign `=`.
        value: Expr,
        /// The token of the name.
        token: u32,
    },
    /// A call that stands as a statement, as `name(a, b)`.
    Call {
        /// The name of the function.
        name: Name,
        /// The arguments, in order.
        arguments: Items<Expr>,
        /// The token of the name.
        token: u32,
    },
    /// `release(value)`
    Release {
        /// What is released.
        value: Expr,
        /// The token of the word.
        token: u32,
    },
    /// `check()`
    Check {
        /// The token of the word.
        token: u32,
    },
    /// `return` or `return value`
    Return {
        /// What is returned, if anything.
        value: Option<Expr>,
        /// The token of the word.
        token: u32,
    },
    /// `break`
    Break {
        /// The token of the word.
        token: u32,
    },
    /// `continue`
    Continue {
        /// The token of the word.
        token: u32,
    },
    /// `if (test) body` or `if (test) body else other`
    If {
        /// The condition.
        test: Expr,
        /// What is done where it holds.
        body: Boxed<Stmt>,
        /// What stands after `else`, if it does.
        other: Option<Boxed<Stmt>>,
        /// The token of the word `if`.
        token: u32,
    },
    /// `while (test) body`
    While {
        /// The condition.
        test: Expr,
        /// What is repeated.
        body: Boxed<Stmt>,
        /// The token of the word.
        token: u32,
    },
    /// `for (first; test; step) body`
    For {
        /// A local, or a simple part, if one stands first.
        first: Option<Boxed<Stmt>>,
        /// The condition, if one stands there.
        test: Option<Expr>,
        /// A simple part after the condition, if one stands there.
        step: Option<Boxed<Stmt>>,
        /// What is repeated.
        body: Boxed<Stmt>,
        /// The token of the word.
        token: u32,
    },
}
