//! The places of a program at which a typing rule may be broken.
use c_grammar::Kind3;
use c_scopes::Binding;

/// The typing rules. Of several that are broken at one token the first here is answered.
#[derive(Clone, Copy, Debug, PartialEq, Eq)]
pub enum Rule {
    /// A name is known where it is used.
    Unknown,
    /// A scope declares a name once.
    Twice,
    /// No function calls itself.
    Recursive,
    /// Constants are not assigned to, and private objects stay within private functions.
    Class,
    /// Names are used as what they are; values, `return`, `break` and `continue` fit where they stand.
    Shape,
    /// A call has as many arguments as the function has parameters.
    Arity,
    /// An array has 1 to 65,536 elements.
    TooLong,
    /// There are at most 1,024 global names, 256 locals of a function and 6 parameters.
    TooMany,
}

/// How a name is used.
#[derive(Clone, Copy, Debug, PartialEq, Eq)]
pub enum How {
    /// Its value, as `name`.
    Value,
    /// The value of an element, as `name[index]`.
    Element,
    /// It is assigned to, as `name = value`.
    Assign,
    /// An element is assigned to, as `name[index] = value`.
    AssignElement,
    /// It is called, and no value is wanted.
    Call {
        /// How many arguments the call has.
        arguments: usize,
    },
    /// It is called for its value.
    CallValue {
        /// How many arguments the call has.
        arguments: usize,
    },
}

/// The function that a place stands in.
#[derive(Clone, Copy, Debug, PartialEq, Eq)]
pub struct Home {
    /// Whether it is private.
    pub private: bool,
    /// What it answers.
    pub result: Kind3,
    /// The token of its name.
    pub token: u32,
}

/// A place at which a rule may be broken. `token` is the token that such a violation is told by.
#[derive(Clone, Copy, Debug)]
pub enum Site {
    /// A name is used.
    Use {
        /// How.
        how: How,
        /// What it is bound to, if it is known there.
        means: Option<Binding>,
        /// The function that it stands in.
        home: Home,
        /// The token of the name.
        token: u32,
    },
    /// A local is declared.
    Local {
        /// Whether its scope has declared the name already.
        again: bool,
        /// The token of the name.
        token: u32,
    },
    /// A parameter is declared.
    Parameter {
        /// How many parameters stand before it.
        number: usize,
        /// Whether an earlier one has the name.
        again: bool,
        /// The token of the name.
        token: u32,
    },
    /// `return` stands here.
    Return {
        /// What its function answers.
        result: Kind3,
        /// Whether a value is returned.
        value: bool,
        /// The token of the word.
        token: u32,
    },
    /// `break` or `continue` stands here.
    Jump {
        /// Whether it is inside a loop.
        in_loop: bool,
        /// The token of the word.
        token: u32,
    },
    /// A global name is declared.
    Global {
        /// How many global names stand before it.
        number: usize,
        /// Whether an earlier one is the same.
        again: bool,
        /// The token of the name.
        token: u32,
    },
    /// The length of an array is given.
    Length {
        /// The length.
        length: u32,
        /// The token of the number.
        token: u32,
    },
    /// A constant is given its values.
    Constant {
        /// How many elements it has, if it is an array.
        length: Option<u32>,
        /// How many values stand there.
        values: usize,
        /// Whether they stand between braces.
        braces: bool,
        /// The token of the constant's name.
        token: u32,
    },
}
