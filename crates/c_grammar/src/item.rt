//! Programs, and what they declare (ISO/IEC 9899, section 6.9).
use crate::stmt::Stmt;
use aegis_num::Name;
use sqlite_items::Items;

/// A program.
#[derive(Debug, Drop)]
pub struct Program {
    /// What it declares, in order.
    pub items: Items<Item>,
}

/// A declaration at the top of a program. A token number counts the tokens of the text from 0.
#[derive(Debug, Drop)]
pub enum Item {
    /// A global variable or array, as `__private int name[4];`.
    Object {
        /// How it is kept.
        class: Storage,
        /// Whether its type is `unsigned`, and not `int`.
        unsigned: bool,
        /// The name.
        name: Name,
        /// What stands between the brackets, if they do.
        length: Option<u32>,
        /// The token of the name.
        token: u32,
    },
    /// A constant or an array of constants, as `const int name[2] = {1, -2};`.
    Constant {
        /// Whether its type is `unsigned`, and not `int`.
        unsigned: bool,
        /// The name.
        name: Name,
        /// What stands between the brackets, if they do.
        length: Option<u32>,
        /// The values, in order.
        values: Items<Value>,
        /// Whether the values stand between braces.
        braces: bool,
        /// The token of the name.
        token: u32,
    },
    /// A function of the untrusted code, as `__untrusted void name(void);`.
    Untrusted {
        /// The name.
        name: Name,
        /// The token of the name.
        token: u32,
    },
    /// A function, as `int name(int a) { return a; }`.
    Function {
        /// Whether the word `__private` stands before it.
        private: bool,
        /// What it answers.
        result: Kind3,
        /// The name.
        name: Name,
        /// The parameters, in order.
        params: Items<Parameter>,
        /// The locals and statements of its block, in order.
        body: Items<Stmt>,
        /// The token of the name.
        token: u32,
    },
}

/// How an object is kept: the word before its type.
#[derive(Clone, Copy, Debug, PartialEq, Eq)]
pub enum Storage {
    /// `__verified`, or no word.
    Verified,
    /// `__private`
    Private,
    /// `__shared`
    Shared,
    /// `__logged`
    Logged,
}

/// What a function answers.
#[derive(Clone, Copy, Debug, PartialEq, Eq)]
pub enum Kind3 {
    /// `int`
    Int,
    /// `unsigned`
    Unsigned,
    /// `void`: nothing.
    Void,
}

/// A parameter of a function.
#[derive(Clone, Copy, Debug)]
pub struct Parameter {
    /// Whether its type is `unsigned`, and not `int`.
    pub unsigned: bool,
    /// The name.
    pub name: Name,
    /// The token of the name.
    pub token: u32,
}

/// A value of a constant.
#[derive(Clone, Copy, Debug, PartialEq, Eq)]
pub struct Value {
    /// Whether the sign `-` stands before the number.
    pub negative: bool,
    /// The number, from 0 to 4294967295.
    pub value: u32,
    /// Whether the number has the suffix `u`, or is above 2147483647.
    pub unsigned: bool,
}
