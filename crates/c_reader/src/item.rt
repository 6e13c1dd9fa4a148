//! Items, and whole programs.
ghost use Rattle.std.specs.Prelude.{◌≡◌, [], OnOk};
ghost use Rattle.c_descent.proofs.StatementParser.{statement};
ghost use Rattle.c_descent.proofs.ProgramParser.{heading_of, heading_at, optional_length, object_rest, object, value_with, negative_value, value, one_value, braced_values, values, constant_rest, constant, no_parameters, untrusted, one_parameter, void_list, parameter_list, parameters, function_rest, void_function, storage_of, result_kind, typed_rest, typed_item, declared, private_item, item_inside, items, program};
ghost use Rattle.c_parser.specs.CursorAnswers.{Matches, TakesSome, LeavesUpTo};

use crate::list::{Part, separated};
use aegis_num::limits::{MAX_BINARY_OPERATORS, MAX_NESTING};
use c_descent::{Braces, Given, Heading, Named};
use c_grammar::{Item, Kind3, Parameter, Program, Storage, Value};
use c_parser::{Cursor, Fault, braced, type_name};
use c_token::{Kind, Sign, Word};
use sqlite_items::Items;
use std::alloc::Global;

/// What a token begins at the top of a program.
fn heading_of(kind: Option<Kind>) -> Heading
    ensures { result ≡ heading_of kind }
{
    match kind {
        Some(Kind::Word(word)) => match word {
            Word::Verified => Heading::Verified,
            Word::Shared => Heading::Shared,
            Word::Logged => Heading::Logged,
            Word::Private => Heading::Private,
            Word::Const => Heading::Constant,
            Word::Untrusted => Heading::Untrusted,
            Word::Void => Heading::Void,
            Word::Int | Word::Unsigned => Heading::Type,
            _ => Heading::Other,
        },
        _ => Heading::Other,
    }
}

/// What the first token begins at the top of a program.
#[tactic(auto, unfolding(c_descent::proofs::ProgramParser::heading_at))]
fn heading_at(cursor: &Cursor<'_>) -> Heading
    ensures { result ≡ heading_at cursor.now }
{
    heading_of(cursor.first_kind())
}

/// `[ length ]`, if it stands there.
#[tactic(auto, unfolding(c_descent::proofs::ProgramParser::optional_length))]
fn optional_length(cursor: &mut Cursor<'_>) -> Result<Option<u32>, Fault>
    ensures reads { Matches result cursor.new (optional_length cursor.old) }
    ensures takes { LeavesUpTo result cursor.old cursor.new }
{
    if cursor.is_at_sign(Sign::LeftBracket) {
        cursor.sign(Sign::LeftBracket)?;
        let found = cursor.number()?;
        cursor.sign(Sign::RightBracket)?;
        return Ok(Some(found.value));
    }
    Ok(None)
}

/// What stands after the name of an object.
#[tactic(auto, unfolding(c_descent::proofs::ProgramParser::object_rest))]
fn object_rest(
    cursor: &mut Cursor<'_>,
    class: Storage,
    unsigned: bool,
    found: Named,
) -> Result<Item, Fault>
    ensures reads { Matches result cursor.new (object_rest class unsigned found cursor.old) }
    ensures takes { TakesSome result cursor.old cursor.new }
{
    let length = optional_length(cursor)?;
    cursor.sign(Sign::Semicolon)?;
    Ok(Item::Object {
        class,
        unsigned,
        name: found.name,
        length,
        token: found.token,
    })
}

/// A word of storage, and the object after it.
#[tactic(auto, unfolding(c_descent::proofs::ProgramParser::object))]
fn object(cursor: &mut Cursor<'_>, word: Word, class: Storage) -> Result<Item, Fault>
    ensures reads { Matches result cursor.new (object word class cursor.old) }
    ensures takes { TakesSome result cursor.old cursor.new }
{
    cursor.word(word)?;
    let unsigned = type_name(cursor)?;
    let found = cursor.name()?;
    object_rest(cursor, class, unsigned, found)
}

/// A number, of this sign.
#[tactic(auto, unfolding(c_descent::proofs::ProgramParser::value_with))]
fn value_with(cursor: &mut Cursor<'_>, negative: bool) -> Result<Value, Fault>
    ensures reads { Matches result cursor.new (value_with negative cursor.old) }
    ensures takes { TakesSome result cursor.old cursor.new }
{
    let found = cursor.number()?;
    Ok(Value {
        negative,
        value: found.value,
        unsigned: found.unsigned,
    })
}

/// `-` and a number.
#[tactic(auto, unfolding(c_descent::proofs::ProgramParser::negative_value))]
fn negative_value(cursor: &mut Cursor<'_>) -> Result<Value, Fault>
    ensures reads { Matches result cursor.new (negative_value cursor.old) }
    ensures takes { TakesSome result cursor.old cursor.new }
{
    cursor.sign(Sign::Minus)?;
    value_with(cursor, true)
}

/// A value of a constant.
impl Part for Value {
    ghost parser = { value };

    #[tactic(auto, unfolding(c_descent::proofs::ProgramParser::value))]
    fn read(cursor: &mut Cursor<'_>) -> Result<Value, Fault> {
        if cursor.is_at_sign(Sign::Minus) {
            negative_value(cursor)
        } else {
            value_with(cursor, false)
        }
    }
}

/// A value alone.
#[tactic(auto, unfolding(c_descent::proofs::ProgramParser::one_value))]
fn one_value(alloc: Global, cursor: &mut Cursor<'_>) -> Result<Given, Fault>
    ensures reads { Matches result cursor.new (one_value cursor.old) }
    ensures takes { TakesSome result cursor.old cursor.new }
{
    let only = Value::read(cursor)?;
    let mut values = Items::new(alloc);
    values.push(only)?;
    Ok(Given {
        values,
        braces: false,
    })
}

/// Values between braces.
#[tactic(auto, unfolding(c_descent::proofs::ProgramParser::braced_values))]
fn braced_values(alloc: Global, cursor: &mut Cursor<'_>) -> Result<Given, Fault>
    ensures reads { Matches result cursor.new (braced_values cursor.old) }
    ensures takes { TakesSome result cursor.old cursor.new }
{
    cursor.sign(Sign::LeftBrace)?;
    let values: Items<Value> = separated(alloc, cursor)?;
    cursor.sign(Sign::RightBrace)?;
    Ok(Given {
        values,
        braces: true,
    })
}

/// What a constant is given.
#[tactic(auto, unfolding(c_descent::proofs::ProgramParser::values))]
fn values(alloc: Global, cursor: &mut Cursor<'_>) -> Result<Given, Fault>
    ensures reads { Matches result cursor.new (values cursor.old) }
    ensures takes { TakesSome result cursor.old cursor.new }
{
    if cursor.is_at_sign(Sign::LeftBrace) {
        braced_values(alloc, cursor)
    } else {
        one_value(alloc, cursor)
    }
}

/// What stands after the name of a constant.
#[tactic(auto, unfolding(c_descent::proofs::ProgramParser::constant_rest))]
fn constant_rest(
    alloc: Global,
    cursor: &mut Cursor<'_>,
    unsigned: bool,
    found: Named,
) -> Result<Item, Fault>
    ensures reads { Matches result cursor.new (constant_rest unsigned found cursor.old) }
    ensures takes { TakesSome result cursor.old cursor.new }
{
    let length = optional_length(cursor)?;
    cursor.sign(Sign::Assign)?;
    let given = values(alloc, cursor)?;
    cursor.sign(Sign::Semicolon)?;
    Ok(Item::Constant {
        unsigned,
        name: found.name,
        length,
        values: given.values,
        braces: given.braces,
        token: found.token,
    })
}

/// A constant.
#[tactic(auto, unfolding(c_descent::proofs::ProgramParser::constant))]
fn constant(alloc: Global, cursor: &mut Cursor<'_>) -> Result<Item, Fault>
    ensures reads { Matches result cursor.new (constant cursor.old) }
    ensures takes { TakesSome result cursor.old cursor.new }
{
    cursor.word(Word::Const)?;
    let unsigned = type_name(cursor)?;
    let found = cursor.name()?;
    constant_rest(alloc, cursor, unsigned, found)
}

/// `( void ) ;`
#[tactic(auto, unfolding(c_descent::proofs::ProgramParser::no_parameters))]
fn no_parameters(cursor: &mut Cursor<'_>) -> Result<u32, Fault>
    ensures reads { Matches result cursor.new (no_parameters cursor.old) }
    ensures takes { TakesSome result cursor.old cursor.new }
{
    cursor.sign(Sign::LeftParenthesis)?;
    cursor.word(Word::Void)?;
    cursor.sign(Sign::RightParenthesis)?;
    cursor.sign(Sign::Semicolon)
}

/// A function of the untrusted code.
#[tactic(auto, unfolding(c_descent::proofs::ProgramParser::untrusted))]
fn untrusted(cursor: &mut Cursor<'_>) -> Result<Item, Fault>
    ensures reads { Matches result cursor.new (untrusted cursor.old) }
    ensures takes { TakesSome result cursor.old cursor.new }
{
    cursor.word(Word::Untrusted)?;
    cursor.word(Word::Void)?;
    let found = cursor.name()?;
    no_parameters(cursor)?;
    Ok(Item::Untrusted {
        name: found.name,
        token: found.token,
    })
}

/// A parameter.
impl Part for Parameter {
    ghost parser = { one_parameter };

    #[tactic(auto, unfolding(c_descent::proofs::ProgramParser::one_parameter))]
    fn read(cursor: &mut Cursor<'_>) -> Result<Parameter, Fault> {
        let unsigned = type_name(cursor)?;
        let found = cursor.name()?;
        Ok(Parameter {
            unsigned,
            name: found.name,
            token: found.token,
        })
    }
}

/// The word `void` in the place of parameters.
#[tactic(auto, unfolding(c_descent::proofs::ProgramParser::void_list))]
fn void_list(alloc: Global, cursor: &mut Cursor<'_>) -> Result<Items<Parameter>, Fault>
    ensures reads { Matches result cursor.new (void_list cursor.old) }
    ensures takes { TakesSome result cursor.old cursor.new }
{
    cursor.word(Word::Void)?;
    Ok(Items::new(alloc))
}

/// Parameters, `void` or nothing, up to `)`, which is left.
#[tactic(auto, unfolding(c_descent::proofs::ProgramParser::parameter_list))]
fn listed(alloc: Global, cursor: &mut Cursor<'_>) -> Result<Items<Parameter>, Fault>
    ensures reads { Matches result cursor.new (parameter_list cursor.old) }
    ensures takes { LeavesUpTo result cursor.old cursor.new }
{
    if cursor.is_at_sign(Sign::RightParenthesis) {
        return Ok(Items::new(alloc));
    }
    if cursor.is_at_word(Word::Void) {
        return void_list(alloc, cursor);
    }
    separated(alloc, cursor)
}

/// `(`, parameters and `)`.
#[tactic(auto, unfolding(c_descent::proofs::ProgramParser::parameters))]
fn parameters(alloc: Global, cursor: &mut Cursor<'_>) -> Result<Items<Parameter>, Fault>
    ensures reads { Matches result cursor.new (parameters cursor.old) }
    ensures takes { TakesSome result cursor.old cursor.new }
{
    cursor.sign(Sign::LeftParenthesis)?;
    let parameters = listed(alloc, cursor)?;
    cursor.sign(Sign::RightParenthesis)?;
    Ok(parameters)
}

/// What stands after the name of a function.
#[tactic(auto, unfolding(c_descent::proofs::ProgramParser::function_rest))]
fn function_rest(
    alloc: Global,
    cursor: &mut Cursor<'_>,
    private: bool,
    answers: Kind3,
    found: Named,
) -> Result<Item, Fault>
    ensures reads { Matches result cursor.new
        (function_rest MAX_BINARY_OPERATORS MAX_NESTING private answers found cursor.old) }
    ensures takes { TakesSome result cursor.old cursor.new }
{
    let params = parameters(alloc, cursor)?;
    let Braces { body, token: _ } = braced(alloc, cursor, MAX_NESTING)?;
    Ok(Item::Function {
        private,
        result: answers,
        name: found.name,
        params,
        body,
        token: found.token,
    })
}

/// A function that answers nothing.
#[tactic(auto, unfolding(c_descent::proofs::ProgramParser::void_function))]
fn void_function(alloc: Global, cursor: &mut Cursor<'_>, private: bool) -> Result<Item, Fault>
    ensures reads { Matches result cursor.new
        (void_function MAX_BINARY_OPERATORS MAX_NESTING private cursor.old) }
    ensures takes { TakesSome result cursor.old cursor.new }
{
    cursor.word(Word::Void)?;
    let found = cursor.name()?;
    function_rest(alloc, cursor, private, Kind3::Void, found)
}

/// How an object is kept: the word `__private` stands before it, or none.
fn storage_of(private: bool) -> Storage
    ensures { result ≡ storage_of private }
{
    if private {
        Storage::Private
    } else {
        Storage::Verified
    }
}

/// What a function answers whose type is no `void`.
fn result_of(unsigned: bool) -> Kind3
    ensures { result ≡ result_kind unsigned }
{
    if unsigned {
        Kind3::Unsigned
    } else {
        Kind3::Int
    }
}

/// What stands after a type and a name: a function's parameters, or the rest of an object.
#[tactic(auto, unfolding(c_descent::proofs::ProgramParser::typed_rest))]
fn typed_rest(
    alloc: Global,
    cursor: &mut Cursor<'_>,
    private: bool,
    unsigned: bool,
    found: Named,
) -> Result<Item, Fault>
    ensures reads { Matches result cursor.new
        (typed_rest MAX_BINARY_OPERATORS MAX_NESTING private unsigned found cursor.old) }
    ensures takes { TakesSome result cursor.old cursor.new }
{
    if cursor.is_at_sign(Sign::LeftParenthesis) {
        let answers = result_of(unsigned);
        return function_rest(alloc, cursor, private, answers, found);
    }
    let class = storage_of(private);
    object_rest(cursor, class, unsigned, found)
}

/// A type, and the function or the object after it.
#[tactic(auto, unfolding(c_descent::proofs::ProgramParser::typed_item))]
fn typed(alloc: Global, cursor: &mut Cursor<'_>, private: bool) -> Result<Item, Fault>
    ensures reads { Matches result cursor.new
        (typed_item MAX_BINARY_OPERATORS MAX_NESTING private cursor.old) }
    ensures takes { TakesSome result cursor.old cursor.new }
{
    let unsigned = type_name(cursor)?;
    let found = cursor.name()?;
    typed_rest(alloc, cursor, private, unsigned, found)
}

/// A function, or an object after no word of storage or `__private`.
#[tactic(auto, unfolding(c_descent::proofs::ProgramParser::declared))]
fn declared(alloc: Global, cursor: &mut Cursor<'_>, private: bool) -> Result<Item, Fault>
    ensures reads { Matches result cursor.new
        (declared MAX_BINARY_OPERATORS MAX_NESTING private cursor.old) }
    ensures takes { TakesSome result cursor.old cursor.new }
{
    if cursor.is_at_word(Word::Void) {
        void_function(alloc, cursor, private)
    } else {
        typed(alloc, cursor, private)
    }
}

/// `__private`, and the function or the object after it.
#[tactic(auto, unfolding(c_descent::proofs::ProgramParser::private_item))]
fn private_item(alloc: Global, cursor: &mut Cursor<'_>) -> Result<Item, Fault>
    ensures reads { Matches result cursor.new
        (private_item MAX_BINARY_OPERATORS MAX_NESTING cursor.old) }
    ensures takes { TakesSome result cursor.old cursor.new }
{
    cursor.word(Word::Private)?;
    declared(alloc, cursor, true)
}

/// An item.
#[tactic(auto, unfolding(c_descent::proofs::ProgramParser::item_inside))]
fn item_inside(alloc: Global, cursor: &mut Cursor<'_>) -> Result<Item, Fault>
    ensures reads { Matches result cursor.new
        (item_inside MAX_BINARY_OPERATORS MAX_NESTING cursor.old) }
    ensures takes { TakesSome result cursor.old cursor.new }
{
    match heading_at(cursor) {
        Heading::Verified => object(cursor, Word::Verified, Storage::Verified),
        Heading::Shared => object(cursor, Word::Shared, Storage::Shared),
        Heading::Logged => object(cursor, Word::Logged, Storage::Logged),
        Heading::Private => private_item(alloc, cursor),
        Heading::Constant => constant(alloc, cursor),
        Heading::Untrusted => untrusted(cursor),
        Heading::Void => void_function(alloc, cursor, false),
        Heading::Type => typed(alloc, cursor, false),
        Heading::Other => Err(Fault::Expected),
    }
}

/// Items up to the end.
fn items(alloc: Global, cursor: &mut Cursor<'_>) -> Result<Items<Item>, Fault>
    ensures reads { Matches result cursor.new
        (items MAX_BINARY_OPERATORS MAX_NESTING cursor.old) }
    ensures all { OnOk result (cursor.new ≡ []) }
{
    let mut items = Items::new(alloc);
    'each: while cursor.is_left() {
        let item = item_inside(alloc, cursor)?;
        items.push(item)?;
    }
    Ok(items)
}

/// A whole program.
#[tactic(auto, unfolding(c_descent::proofs::ProgramParser::program))]
pub fn program(alloc: Global, cursor: &mut Cursor<'_>) -> Result<Program, Fault>
    ensures reads { Matches result cursor.new
        (program MAX_BINARY_OPERATORS MAX_NESTING cursor.old) }
    ensures all { OnOk result (cursor.new ≡ []) }
{
    let items = items(alloc, cursor)?;
    Ok(Program { items })
}
