//! Parts of programs that are read on the way to their trees.
use aegis_num::Name;
use c_grammar::{Expr, Stmt, Value};
use sqlite_items::{Boxed, Items};

/// A name, with its token.
#[derive(Clone, Copy)]
pub struct Named {
    pub name: Name,
    pub token: u32,
}

/// A number, with its token.
#[derive(Clone, Copy)]
pub struct Numeral {
    pub value: u32,
    pub unsigned: bool,
    pub token: u32,
}

/// What a token begins that is no operator.
#[derive(Clone, Copy)]
pub enum Operand {
    Number,
    Name,
    Input,
    Paren,
    Other,
}

/// A part of an expression, with how many operators of two operands stand in the whole one up to its end.
#[derive(Drop)]
pub struct Grown {
    pub tree: Expr,
    pub used: u32,
}

/// What stands between brackets, with the token of the first.
#[derive(Drop)]
pub struct Bracketed {
    pub index: Expr,
    pub token: u32,
}

/// What a token begins in a block.
#[derive(Clone, Copy)]
pub enum Start {
    Local,
    Block,
    Empty,
    /// A statement that a `;` ends.
    Plain,
    If,
    While,
    For,
    Other,
}

/// Which statement of those that a `;` ends a token begins.
#[derive(Clone, Copy)]
pub enum Plain {
    Named,
    Release,
    Check,
    Return,
    Break,
    Continue,
    Other,
}

/// What stands between the parentheses of a `for`.
#[derive(Drop)]
pub struct LoopHead {
    pub first: Option<Boxed<Stmt>>,
    pub test: Option<Expr>,
    pub step: Option<Boxed<Stmt>>,
}

/// Locals and statements between braces, with the token of the first brace.
#[derive(Drop)]
pub struct Braces {
    pub body: Items<Stmt>,
    pub token: u32,
}

/// What a token begins at the top of a program.
#[derive(Clone, Copy)]
pub enum Heading {
    Verified,
    Shared,
    Logged,
    Private,
    Constant,
    Untrusted,
    Void,
    Type,
    Other,
}

/// The values of a constant, and whether they stand between braces.
#[derive(Drop)]
pub struct Given {
    pub values: Items<Value>,
    pub braces: bool,
}
