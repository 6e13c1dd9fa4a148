//! What names are declared as (ISO/IEC 9899, section 6.2.1).
use aegis_num::Name;
use c_grammar::Kind3;
use regions::Class;

/// What a name stands for.
#[derive(Clone, Copy, Debug)]
pub enum Entity {
    /// A local or a parameter of a function.
    Local {
        /// Whether its type is `unsigned`, and not `int`.
        unsigned: bool,
    },
    /// A global variable or constant.
    Object {
        /// How it is kept.
        class: Class,
        /// Whether its type is `unsigned`, and not `int`.
        unsigned: bool,
        /// How many elements it has, if it is an array.
        length: Option<u32>,
    },
    /// A function.
    Function {
        /// What it answers.
        result: Kind3,
        /// Whether it is untrusted code.
        untrusted: bool,
        /// How many parameters it has.
        parameters: usize,
    },
}

/// What a name is bound to by its declaration.
#[derive(Clone, Copy, Debug)]
pub struct Binding {
    /// The token of the declared name, counted from 0: no two declarations of a program have the same.
    pub token: u32,
    /// What it stands for.
    pub entity: Entity,
}

/// The declaration of a name.
#[derive(Clone, Copy, Debug)]
pub struct Declaration {
    /// The name.
    pub name: Name,
    /// What it is bound to.
    pub binding: Binding,
}
