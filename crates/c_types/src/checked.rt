//! Programs that keep the typing rules.
ghost use Rattle.std.specs.Prelude.{◌≡◌};

use aegis_num::Name;
use c_grammar::{Kind3, Program};
use regions::Class;
use std::marker::Model;

/// A global variable or constant.
#[derive(Clone, Copy, Debug)]
pub struct Object {
    /// Its name.
    pub name: Name,
    /// How it is kept.
    pub class: Class,
    /// Whether its type is `unsigned`, and not `int`.
    pub unsigned: bool,
    /// How many elements it has, 1 to 65,536, if it is an array.
    pub length: Option<u32>,
}

/// A function.
#[derive(Clone, Copy, Debug)]
pub struct Function {
    /// Its name.
    pub name: Name,
    /// Whether it is private.
    pub private: bool,
    /// Whether it is untrusted code.
    pub untrusted: bool,
    /// What it answers.
    pub result: Kind3,
    /// How many parameters it has, at most 6.
    pub parameters: u32,
}

/// Objects in a row. They are made from a `Vec` and give it back.
#[derive(Debug, Drop)]
pub struct Objects {
    objects: Vec<Object>,
}

impl Model for Objects {
    ghost use Rattle.std.specs.Prelude.{List};
    ghost use Rattle.c_types.specs.declared.checked.Object.{Object};

    ghost Value = { List Object };

    ghost view = { λ objects. objects.objects.items };
}

impl Objects {
    /// The objects of a `Vec`.
    pub fn new(objects: Vec<Object>) -> Objects
        ensures { result ≡ objects.items }
    {
        Objects { objects }
    }

    /// The objects, in order.
    pub fn as_slice(&self) -> &[Object]
        ensures { result.now ≡ self.now }
    {
        self.objects.as_slice()
    }

    /// The `Vec` of the objects.
    pub fn into_vec(self) -> Vec<Object>
        ensures { result.items ≡ self }
    {
        self.objects
    }
}

/// Functions in a row. They are made from a `Vec` and give it back.
#[derive(Debug, Drop)]
pub struct Functions {
    functions: Vec<Function>,
}

impl Model for Functions {
    ghost use Rattle.std.specs.Prelude.{List};
    ghost use Rattle.c_types.specs.declared.checked.Function.{Function};

    ghost Value = { List Function };

    ghost view = { λ functions. functions.functions.items };
}

impl Functions {
    /// The functions of a `Vec`.
    pub fn new(functions: Vec<Function>) -> Functions
        ensures { result ≡ functions.items }
    {
        Functions { functions }
    }

    /// The functions, in order.
    pub fn as_slice(&self) -> &[Function]
        ensures { result.now ≡ self.now }
    {
        self.functions.as_slice()
    }

    /// The `Vec` of the functions.
    pub fn into_vec(self) -> Vec<Function>
        ensures { result.items ≡ self }
    {
        self.functions
    }
}

/// A program that keeps the typing rules and has a `main`, with its objects and its functions. Contracts see it as
/// the program.
#[derive(Debug, Drop)]
pub struct Checked {
    /// The program.
    pub program: Program,
    /// Its global variables and constants, in order.
    pub objects: Objects,
    /// Its functions, in order.
    pub functions: Functions,
}

impl Model for Checked {
    ghost use Rattle.std.specs.Prelude.{◌≡◌};
    ghost use Rattle.std.specs.Coded.{codes};
    ghost use Rattle.c_grammar.specs.declared.item.Program.{Program};
    ghost use Rattle.c_grammar.specs.contracts.stmt.Stmt as statement;

    ghost Value = { Program };

    ghost coded = { Prim.hlevel (codes, statement.the_row.coded) };

    ghost use Rattle.c_types.specs.Checked.{IsReadProgram, IsTyped, listed_objects, listed_functions};

    ghost view = { λ checked. checked.program };

    ghost invariant = { λ checked. record {
      read : IsReadProgram checked.program;
      typed : IsTyped checked.program;
      objects : checked.objects ≡ listed_objects checked.program.items;
      functions : checked.functions ≡ listed_functions checked.program.items;
    } };
}

impl Checked {
    ghost use Rattle.std.specs.Prelude.{◌≡◌};
    ghost use Rattle.c_types.specs.Checked.{IsReadProgram, IsTyped, listed_objects, listed_functions};

    /// The program. It was read from tokens, keeps the typing rules, and has a function `main` that answers int, takes nothing and is not
    /// private.
    pub fn program(&self) -> &Program
        ensures program { result.now ≡ self.now }
        ensures read { IsReadProgram self.now }
        ensures typed { IsTyped self.now }
    {
        &self.program
    }

    /// The global variables and constants, in the order of the source.
    pub fn objects(&self) -> &[Object]
        ensures { result.now ≡ listed_objects self.now.items }
    {
        self.objects.as_slice()
    }

    /// The functions, in the order of the source.
    pub fn functions(&self) -> &[Function]
        ensures { result.now ≡ listed_functions self.now.items }
    {
        self.functions.as_slice()
    }
}
