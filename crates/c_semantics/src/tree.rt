//! Programs whose names are resolved: a variable is named by the token of its declaration, a function by its number among
//! the functions of the source, from 0, and each operator has the types of its operands. Parentheses are gone.
use aegis_num::{BinaryOp, UnaryOp};
use regions::Class;
use sqlite_items::{Boxed, Items};

/// A variable or an array.
#[derive(Clone, Copy, Debug)]
pub struct Variable {
    /// The token of its declaration, counted from 0.
    pub token: u32,
    /// How it is kept, if it is global. A local or a parameter has no class.
    pub class: Option<Class>,
}

/// An expression.
#[derive(Drop)]
pub enum Expr {
    /// A number.
    Number {
        /// From 0 to 4294967295.
        value: u32,
    },
    /// A variable that is no array.
    Scalar {
        /// The variable.
        variable: Variable,
    },
    /// An element of an array.
    Indexed {
        /// The token of the sign `[`.
        at: u32,
        /// The array.
        array: Variable,
        /// How many elements it has.
        length: u32,
        /// What stands between the brackets.
        index: Boxed<Expr>,
    },
    /// A call of a function for its value.
    Called {
        /// The number of the function.
        function: usize,
        /// The arguments, in order.
        arguments: Items<Expr>,
    },
    /// `input()`
    Input,
    /// An operator of one operand.
    Unary {
        /// The operator.
        op: UnaryOp,
        /// The operand.
        inner: Boxed<Expr>,
    },
    /// An operator of two operands.
    Binary {
        /// The token of the operator.
        at: u32,
        /// The operator.
        op: BinaryOp,
        /// The operand before it.
        left: Boxed<Expr>,
        /// The operand after it.
        right: Boxed<Expr>,
    },
    /// `left && right`
    Both {
        /// The operand before the sign.
        left: Boxed<Expr>,
        /// The operand after it.
        right: Boxed<Expr>,
    },
    /// `left || right`
    Either {
        /// The operand before the sign.
        left: Boxed<Expr>,
        /// The operand after it.
        right: Boxed<Expr>,
    },
}

/// A statement.
#[derive(Drop)]
pub enum Stmt {
    /// Nothing is done.
    Empty,
    /// Statements one after the other.
    Block {
        /// The statements, in order.
        body: Items<Stmt>,
    },
    /// The declaration of a local, which gets its value, or zero.
    Local {
        /// The local.
        variable: Variable,
        /// Its value, if one stands there.
        value: Option<Expr>,
    },
    /// An assignment to a variable that is no array.
    Assign {
        /// The variable.
        variable: Variable,
        /// Its new value.
        value: Expr,
    },
    /// An assignment to an element of an array.
    Store {
        /// The token of the sign `[`.
        at: u32,
        /// The array.
        array: Variable,
        /// How many elements it has.
        length: u32,
        /// What stands between the brackets.
        index: Expr,
        /// The new value.
        value: Expr,
    },
    /// A call of a function, whose value is dropped.
    Call {
        /// The number of the function.
        function: usize,
        /// The arguments, in order.
        arguments: Items<Expr>,
    },
    /// A call of untrusted code.
    Suspend,
    /// The low eight bits of a value are released.
    Release {
        /// The value.
        value: Expr,
    },
    /// A check.
    Check,
    /// The end of a function.
    Return {
        /// Its value, if one stands there.
        value: Option<Expr>,
    },
    /// The end of a loop.
    Break,
    /// The end of a turn of a loop.
    Continue,
    /// A choice.
    If {
        /// The condition.
        test: Expr,
        /// What is done where it holds.
        body: Boxed<Stmt>,
        /// What is done where it does not, if anything.
        other: Option<Boxed<Stmt>>,
    },
    /// A loop.
    While {
        /// The condition of each turn.
        test: Expr,
        /// A turn.
        body: Boxed<Stmt>,
    },
    /// A loop with a statement before it and a step after each turn.
    For {
        /// What is done before it, if anything.
        first: Option<Boxed<Stmt>>,
        /// The condition of each turn, if one stands there.
        test: Option<Expr>,
        /// What is done after each turn, if anything.
        step: Option<Boxed<Stmt>>,
        /// A turn.
        body: Boxed<Stmt>,
    },
}

/// A function.
#[derive(Drop)]
pub struct Function {
    /// Whether it is private.
    pub private: bool,
    /// The parameters, in order.
    pub parameters: Items<Variable>,
    /// The body.
    pub body: Items<Stmt>,
}

/// A global variable, array or constant.
#[derive(Drop)]
pub struct Object {
    /// The variable.
    pub variable: Variable,
    /// How many elements it has, if it is an array.
    pub length: Option<u32>,
    /// The words that it starts with. Those that are missing are zero.
    pub first: Items<u32>,
}

/// A program.
#[derive(Drop)]
pub struct Program {
    /// The global variables, arrays and constants, in order.
    pub objects: Items<Object>,
    /// The functions, in order. A function calls those before it.
    pub functions: Items<Function>,
    /// The number of the function that a run starts with.
    pub main: usize,
}
