//! Laws of checked programs with their names resolved.
ghost use Rattle.c_meaning.specs.FunctionNumbers.{FunctionsListed, MainIsFound, NumbersCount, NumbersLead, ObjectsListed};
ghost use Rattle.c_meaning.specs.Mentions.{NamesAgree};
ghost use Rattle.c_meaning.specs.OperatorDepth.{OperatorsNest};
ghost use Rattle.c_meaning.specs.SourceActs.{ActsAgree};
ghost use Rattle.c_meaning.specs.SourceNodes.{NodesAgree};
ghost use Rattle.c_meaning.specs.TestTokens.{TestsStand};
ghost use Rattle.c_resolver.specs.Resolving.{plain_program};
ghost use Rattle.c_semantics.specs.ProgramShape.{IsShaped};

use c_types::Checked;

/// The names of a program are resolved as the rules of scope bind them (ISO/IEC 9899, section 6.2.1): the resolved program
/// mentions, in the order of the source, the declaration, class and length that each use is bound to at its site, calls of
/// untrusted code, and the locals and parameters that are declared. It has the releases and the checks of the source, in their order.
pub fn names_are_those_of_the_scopes(p: &Checked)
    ensures names { NamesAgree p.now }
    ensures acts { ActsAgree p.now }
{
    p.program();
}

/// The number of a function leads to its own parameters and body, and counts the functions that are listed before it
/// without the untrusted code. A run starts with the `main` of the typing rules.
pub fn numbers_lead_to_their_functions(p: &Checked)
    ensures numbers { NumbersLead p.now }
    ensures count { NumbersCount p.now }
    ensures main { MainIsFound p.now }
{
    p.program();
}

/// The resolved program has the objects and the functions that are listed, without the untrusted code.
pub fn resolved_as_listed(p: &Checked)
    ensures functions { FunctionsListed p.now }
    ensures objects { ObjectsListed p.now }
{}

/// The shape of a resolved program. No token declares two variables. Each occurrence of a variable agrees with its declaration in class
/// and length: a local or a parameter is one of its own function, a private object is named in private functions alone, and no
/// constant is assigned to. A call goes to a function before its own, with as many arguments as that one has parameters, at most 6.
/// At most 64 statements, loops among them, and levels of an expression stand inside one another; each `break` and `continue`
/// stands inside a loop, and no loop stands in the first part or the step of a `for`. An array has 1 to 65,536 elements, and an
/// object starts with no more words than it has. A run starts with a function that takes nothing and is not private.
///
/// Tests of indices stand at the tokens of their signs `[`, and operators at those of theirs. The resolved program has as many nodes as
/// the source. At most 4,096 operators of two operands stand inside one another.
pub fn resolved_is_well_shaped(p: &Checked)
    ensures shape { IsShaped (plain_program p.now) }
    ensures tests { TestsStand p.now }
    ensures nodes { NodesAgree p.now }
    ensures operators { OperatorsNest p.now }
{
    p.program();
}
