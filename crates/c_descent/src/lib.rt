//! A parser of the source language on lists of tokens, by recursive descent, and its laws: it reads just the programs
//! of the grammar, and stops where no program goes on.
#![tactic(auto)]

mod parts;

pub use parts::{
    Braces, Bracketed, Given, Grown, Heading, LoopHead, Named, Numeral, Operand, Plain, Start,
};
