//! Programs, evaluated by their structure.
ghost use Rattle.std.specs.Prelude.{◌≡◌, not, ◌==◌, OnOk, OnErr};
ghost use Rattle.std.specs.Option.{option_copied};
ghost use Rattle.aegis_num.specs.Operators.{truth};
ghost use Rattle.c_semantics.specs.States as states;
ghost use Rattle.c_semantics.specs.ResolvedTree as tree;
ghost use Rattle.c_semantics.specs.Meaning.{value, values, meaning, loop, value_or_zero, condition, result_of, given};
ghost use Rattle.c_semantics.specs.ResolvedViews.{expr_of, exprs_of, stmt_of, stmts_of, branch_of, part_of};
ghost use Rattle.c_evaluator.specs.Calls.{callable, one_turn};
ghost use Rattle.c_evaluator.specs.MachineStates.{bare, seen, flow_of, Does, DoesWords, DoesFlow, DoesTurn};

use crate::fault::{Fault, Stopped};
use crate::flow::{Flow, Turn};
use crate::machine::Machine;
use crate::nesting::{OPEN_CALL, OPEN_FOR, OPEN_OPERATOR, OPEN_PART};
use aegis_num::{BinaryOp, UnaryOp};
use c_semantics::{Expr, Function, Stmt, Variable};
use sqlite_items::{Boxed, at};

/// The value of an expression, where these functions can be called. `room` is how much may still be nested. The two most
/// frequent forms are told apart first, since they need no frame.
#[cycle(run)]
pub fn value_of(
    machine: &mut Machine,
    functions: &[Function],
    e: &Expr,
    room: u32,
) -> Result<u32, Stopped>
    ensures does { Does (value bare (callable functions.now) (expr_of e.now) (seen machine.old)) result machine.new }
{
    match e {
        Expr::Number { value } => Ok(*value),
        Expr::Scalar { variable } => Ok(machine.read(variable.token, 0)),
        _ => value_of_form(machine, functions, e, room),
    }
}

/// The value of an expression by its form, that of the two most frequent ones too.
#[cycle(run)]
#[inline(never)]
fn value_of_form(
    machine: &mut Machine,
    functions: &[Function],
    e: &Expr,
    room: u32,
) -> Result<u32, Stopped>
    ensures does { Does (value bare (callable functions.now) (expr_of e.now) (seen machine.old)) result machine.new }
{
    match e {
        Expr::Number { value } => Ok(*value),
        Expr::Scalar { variable } => Ok(machine.read(variable.token, 0)),
        Expr::Indexed {
            at,
            array,
            length,
            index,
        } => element(machine, functions, *at, array, *length, index.get(), room),
        Expr::Called {
            function,
            arguments,
        } => call_for_value(machine, functions, *function, arguments.as_slice(), room),
        Expr::Input => Ok(machine.take_input()),
        Expr::Unary { op, inner } => unary(machine, functions, *op, inner.get(), room),
        Expr::Binary {
            at,
            op,
            left,
            right,
        } => binary(machine, functions, *at, *op, left.get(), right.get(), room),
        Expr::Both { left, right } => both(machine, functions, left.get(), right.get(), room),
        Expr::Either { left, right } => either(machine, functions, left.get(), right.get(), room),
    }
}

/// The word of an element of an array.
#[cycle(run)]
#[inline(never)]
fn element(
    machine: &mut Machine,
    functions: &[Function],
    at: u32,
    array: &Variable,
    length: u32,
    index: &Expr,
    room: u32,
) -> Result<u32, Stopped>
    ensures does { Does (value bare (callable functions.now) (tree.Indexed at array.now length (expr_of index.now)) (seen machine.old)) result machine.new }
{
    if room < OPEN_PART {
        return Err(machine.stop(Fault::OutOfMemory));
    }
    let inside = room - OPEN_PART;
    let index = value_of(machine, functions, index, inside)?;
    let index = machine.within(at, length, index)?;
    Ok(machine.read(array.token, index))
}

/// The value of a call, with its arguments. Up to two of them take no allocation.
#[cycle(run)]
#[inline(never)]
fn call_for_value(
    machine: &mut Machine,
    functions: &[Function],
    number: usize,
    arguments: &[Expr],
    room: u32,
) -> Result<u32, Stopped>
    ensures does { Does (value bare (callable functions.now) (tree.Called number (exprs_of arguments.now)) (seen machine.old)) result machine.new }
{
    if room < OPEN_CALL {
        return Err(machine.stop(Fault::OutOfMemory));
    }
    let inside = room - OPEN_CALL;
    match arguments {
        [] => call(machine, functions, number, &[], inside),
        [only] => {
            let word = value_of(machine, functions, only, inside)?;
            call(machine, functions, number, &[word], inside)
        }
        [one, other] => {
            let first = value_of(machine, functions, one, inside)?;
            let second = value_of(machine, functions, other, inside)?;
            call(machine, functions, number, &[first, second], inside)
        }
        _ => {
            let words = values_of(machine, functions, arguments, inside)?;
            call(machine, functions, number, words.as_slice(), inside)
        }
    }
}

/// The value of an operator of one operand.
#[cycle(run)]
fn unary(
    machine: &mut Machine,
    functions: &[Function],
    op: UnaryOp,
    inner: &Expr,
    room: u32,
) -> Result<u32, Stopped>
    ensures does { Does (value bare (callable functions.now) (tree.Unary op (expr_of inner.now)) (seen machine.old)) result machine.new }
{
    if room < OPEN_OPERATOR {
        return Err(machine.stop(Fault::OutOfMemory));
    }
    let inside = room - OPEN_OPERATOR;
    let word = value_of(machine, functions, inner, inside)?;
    Ok(op.apply(word))
}

/// The value of an operator of two operands.
#[cycle(run)]
fn binary(
    machine: &mut Machine,
    functions: &[Function],
    at: u32,
    op: BinaryOp,
    left: &Expr,
    right: &Expr,
    room: u32,
) -> Result<u32, Stopped>
    ensures does { Does (value bare (callable functions.now) (tree.Binary at op (expr_of left.now) (expr_of right.now)) (seen machine.old)) result machine.new }
{
    if room < OPEN_OPERATOR {
        return Err(machine.stop(Fault::OutOfMemory));
    }
    let inside = room - OPEN_OPERATOR;
    let first = value_of(machine, functions, left, inside)?;
    let second = value_of(machine, functions, right, inside)?;
    applied(machine, at, op, first, second)
}

/// The value of `&&`.
#[cycle(run)]
#[inline(never)]
fn both(
    machine: &mut Machine,
    functions: &[Function],
    left: &Expr,
    right: &Expr,
    room: u32,
) -> Result<u32, Stopped>
    ensures does { Does (value bare (callable functions.now) (tree.Both (expr_of left.now) (expr_of right.now)) (seen machine.old)) result machine.new }
{
    if room < OPEN_PART {
        return Err(machine.stop(Fault::OutOfMemory));
    }
    let inside = room - OPEN_PART;
    let word = value_of(machine, functions, left, inside)?;
    if word == 0 {
        return Ok(0);
    }
    let word = value_of(machine, functions, right, inside)?;
    Ok(truth_of(word))
}

/// The value of `||`.
#[cycle(run)]
#[inline(never)]
fn either(
    machine: &mut Machine,
    functions: &[Function],
    left: &Expr,
    right: &Expr,
    room: u32,
) -> Result<u32, Stopped>
    ensures does { Does (value bare (callable functions.now) (tree.Either (expr_of left.now) (expr_of right.now)) (seen machine.old)) result machine.new }
{
    if room < OPEN_PART {
        return Err(machine.stop(Fault::OutOfMemory));
    }
    let inside = room - OPEN_PART;
    let word = value_of(machine, functions, left, inside)?;
    if word != 0 {
        return Ok(1);
    }
    let word = value_of(machine, functions, right, inside)?;
    Ok(truth_of(word))
}

/// The values of expressions, in order.
#[cycle(run)]
fn values_of(
    machine: &mut Machine,
    functions: &[Function],
    es: &[Expr],
    room: u32,
) -> Result<Vec<u32>, Stopped>
    ensures does { DoesWords (values bare (callable functions.now) (exprs_of es.now) (seen machine.old)) result machine.new }
{
    let mut words = Vec::new(machine.alloc());
    for e in es {
        let word = value_of(machine, functions, e, room)?;
        if words.push(word).is_err() {
            return Err(machine.stop(Fault::OutOfMemory));
        }
    }
    Ok(words)
}

/// The value of a call of a function, by its number. A function that is not there does nothing, and its value is zero.
#[cycle(run)]
pub fn call(
    machine: &mut Machine,
    functions: &[Function],
    number: usize,
    words: &[u32],
    room: u32,
) -> Result<u32, Stopped>
    ensures does { Does (callable functions.now number words.now (seen machine.old)) result machine.new }
{
    match at(functions, number) {
        None => Ok(0),
        Some(function) => {
            give(machine, function.parameters.as_slice(), words)?;
            let flow = statements(
                machine,
                &functions[..number],
                function.body.as_slice(),
                room,
            )?;
            Ok(result_of(flow, machine.returned()))
        }
    }
}

/// What statements do, one after the other.
#[cycle(run)]
fn statements(
    machine: &mut Machine,
    functions: &[Function],
    ss: &[Stmt],
    room: u32,
) -> Result<Flow, Stopped>
    ensures does { DoesFlow (meaning bare (callable functions.now) (stmts_of ss.now) (seen machine.old)) result machine.new }
{
    for s in ss {
        let flow = statement(machine, functions, s, room)?;
        if flow != Flow::Completed {
            return Ok(flow);
        }
    }
    Ok(Flow::Completed)
}

/// What a statement does.
#[cycle(run)]
fn statement(
    machine: &mut Machine,
    functions: &[Function],
    s: &Stmt,
    room: u32,
) -> Result<Flow, Stopped>
    ensures does { DoesFlow (meaning bare (callable functions.now) (stmt_of s.now) (seen machine.old)) result machine.new }
{
    match s {
        Stmt::Empty | Stmt::Suspend | Stmt::Check => Ok(Flow::Completed),
        Stmt::Block { body } => block(machine, functions, body.as_slice(), room),
        Stmt::Local { variable, value } => local(machine, functions, variable, value, room),
        Stmt::Assign { variable, value } => assign(machine, functions, variable, value, room),
        Stmt::Store {
            at,
            array,
            length,
            index,
            value,
        } => store(machine, functions, *at, array, *length, index, value, room),
        Stmt::Call {
            function,
            arguments,
        } => call_alone(machine, functions, *function, arguments.as_slice(), room),
        Stmt::Release { value } => release(machine, functions, value, room),
        Stmt::Return { value } => leave(machine, functions, value, room),
        Stmt::Break => Ok(Flow::Broke),
        Stmt::Continue => Ok(Flow::Continued),
        Stmt::If { test, body, other } => choice(machine, functions, test, body.get(), other, room),
        Stmt::While { test, body } => {
            repeat(machine, functions, Some(test), &None, body.get(), room)
        }
        Stmt::For {
            first,
            test,
            step,
            body,
        } => for_loop(
            machine,
            functions,
            first,
            test.as_ref(),
            step,
            body.get(),
            room,
        ),
    }
}

/// What a block does.
#[cycle(run)]
fn block(
    machine: &mut Machine,
    functions: &[Function],
    body: &[Stmt],
    room: u32,
) -> Result<Flow, Stopped>
    ensures does { DoesFlow (meaning bare (callable functions.now) (tree.Block (stmts_of body.now)) (seen machine.old)) result machine.new }
{
    if room < OPEN_PART {
        return Err(machine.stop(Fault::OutOfMemory));
    }
    let inside = room - OPEN_PART;
    statements(machine, functions, body, inside)
}

/// What the declaration of a local does.
#[cycle(run)]
#[inline(never)]
fn local(
    machine: &mut Machine,
    functions: &[Function],
    variable: &Variable,
    value: &Option<Expr>,
    room: u32,
) -> Result<Flow, Stopped>
    ensures does { DoesFlow (meaning bare (callable functions.now) (tree.Local variable.now (part_of value.now)) (seen machine.old)) result machine.new }
{
    let word = value_or_zero(machine, functions, value, room)?;
    machine.write(variable, 0, word)?;
    Ok(Flow::Completed)
}

/// What an assignment to a variable that is no array does.
#[cycle(run)]
#[inline(never)]
fn assign(
    machine: &mut Machine,
    functions: &[Function],
    variable: &Variable,
    value: &Expr,
    room: u32,
) -> Result<Flow, Stopped>
    ensures does { DoesFlow (meaning bare (callable functions.now) (tree.Assign variable.now (expr_of value.now)) (seen machine.old)) result machine.new }
{
    let word = value_of(machine, functions, value, room)?;
    machine.write(variable, 0, word)?;
    Ok(Flow::Completed)
}

/// What an assignment to an element of an array does.
#[cycle(run)]
#[inline(never)]
fn store(
    machine: &mut Machine,
    functions: &[Function],
    at: u32,
    array: &Variable,
    length: u32,
    index: &Expr,
    value: &Expr,
    room: u32,
) -> Result<Flow, Stopped>
    ensures does { DoesFlow (meaning bare (callable functions.now) (tree.Store at array.now length (expr_of index.now) (expr_of value.now)) (seen machine.old)) result machine.new }
{
    let index = value_of(machine, functions, index, room)?;
    let place = machine.within(at, length, index)?;
    let stored = value_of(machine, functions, value, room)?;
    machine.write(array, place, stored)?;
    Ok(Flow::Completed)
}

/// What a call does whose value is dropped.
#[cycle(run)]
#[inline(never)]
fn call_alone(
    machine: &mut Machine,
    functions: &[Function],
    number: usize,
    arguments: &[Expr],
    room: u32,
) -> Result<Flow, Stopped>
    ensures does { DoesFlow (meaning bare (callable functions.now) (tree.Call number (exprs_of arguments.now)) (seen machine.old)) result machine.new }
{
    call_for_value(machine, functions, number, arguments, room)?;
    Ok(Flow::Completed)
}

/// What a release does.
#[cycle(run)]
#[inline(never)]
fn release(
    machine: &mut Machine,
    functions: &[Function],
    value: &Expr,
    room: u32,
) -> Result<Flow, Stopped>
    ensures does { DoesFlow (meaning bare (callable functions.now) (tree.Release (expr_of value.now)) (seen machine.old)) result machine.new }
{
    let word = value_of(machine, functions, value, room)?;
    machine.release(word)?;
    Ok(Flow::Completed)
}

/// What `return` does.
#[cycle(run)]
#[inline(never)]
fn leave(
    machine: &mut Machine,
    functions: &[Function],
    value: &Option<Expr>,
    room: u32,
) -> Result<Flow, Stopped>
    ensures does { DoesFlow (meaning bare (callable functions.now) (tree.Return (part_of value.now)) (seen machine.old)) result machine.new }
{
    let word = value_or_zero(machine, functions, value, room)?;
    machine.give_back(word);
    Ok(Flow::Returned)
}

/// What `if` does.
#[cycle(run)]
#[inline(never)]
fn choice(
    machine: &mut Machine,
    functions: &[Function],
    test: &Expr,
    body: &Stmt,
    other: &Option<Boxed<Stmt>>,
    room: u32,
) -> Result<Flow, Stopped>
    ensures does { DoesFlow (meaning bare (callable functions.now) (tree.If (expr_of test.now) (stmt_of body.now) (branch_of other.now)) (seen machine.old)) result machine.new }
{
    if room < OPEN_PART {
        return Err(machine.stop(Fault::OutOfMemory));
    }
    let inside = room - OPEN_PART;
    let word = value_of(machine, functions, test, inside)?;
    if word == 0 {
        return branch(machine, functions, other, inside);
    }
    statement(machine, functions, body, inside)
}

/// What `for` does.
#[cycle(run)]
#[inline(never)]
fn for_loop(
    machine: &mut Machine,
    functions: &[Function],
    first: &Option<Boxed<Stmt>>,
    test: Option<&Expr>,
    step: &Option<Boxed<Stmt>>,
    body: &Stmt,
    room: u32,
) -> Result<Flow, Stopped>
    ensures does { DoesFlow (meaning bare (callable functions.now) (tree.For (branch_of first.now) (part_of (option_copied test.entry)) (branch_of step.now) (stmt_of body.now)) (seen machine.old)) result machine.new }
{
    if room < OPEN_FOR {
        return Err(machine.stop(Fault::OutOfMemory));
    }
    let inside = room - OPEN_FOR;
    branch(machine, functions, first, inside)?;
    repeat(machine, functions, test, step, body, inside)
}

/// The value of an expression, or zero where none stands.
#[cycle(run)]
fn value_or_zero(
    machine: &mut Machine,
    functions: &[Function],
    e: &Option<Expr>,
    room: u32,
) -> Result<u32, Stopped>
    ensures does { Does (value_or_zero bare (callable functions.now) (part_of e.now) (seen machine.old)) result machine.new }
{
    match e {
        None => Ok(0),
        Some(e) => value_of(machine, functions, e, room),
    }
}

/// What a statement does, if one stands there.
#[cycle(run)]
fn branch(
    machine: &mut Machine,
    functions: &[Function],
    s: &Option<Boxed<Stmt>>,
    room: u32,
) -> Result<Flow, Stopped>
    ensures does { DoesFlow (meaning bare (callable functions.now) (branch_of s.now) (seen machine.old)) result machine.new }
{
    match s {
        None => Ok(Flow::Completed),
        Some(s) => statement(machine, functions, s.get(), room),
    }
}

/// A loop: turn after turn, until one leaves it or is one too many.
#[cycle(run)]
fn repeat(
    machine: &mut Machine,
    functions: &[Function],
    test: Option<&Expr>,
    step: &Option<Boxed<Stmt>>,
    body: &Stmt,
    room: u32,
) -> Result<Flow, Stopped>
    ensures does { DoesFlow (loop (one_turn functions.now (option_copied test.entry) step.now body.now) (seen machine.old)) result machine.new }
{
    if room < OPEN_PART {
        return Err(machine.stop(Fault::OutOfMemory));
    }
    let inside = room - OPEN_PART;
    let mut rounds = machine.turns();
    loop {
        match turn(machine, functions, test, step, body, inside)? {
            Turn::Again => {}
            Turn::Leaves(flow) => return Ok(flow),
        }
        if rounds == 0 {
            return Err(machine.stop(Fault::Turns));
        }
        rounds -= 1;
    }
}

/// A turn of a loop: its condition, the body, and the step.
#[cycle(run)]
fn turn(
    machine: &mut Machine,
    functions: &[Function],
    test: Option<&Expr>,
    step: &Option<Boxed<Stmt>>,
    body: &Stmt,
    room: u32,
) -> Result<Turn, Stopped>
    ensures does { DoesTurn (one_turn functions.now (option_copied test.entry) step.now body.now (seen machine.old)) result machine.new }
{
    let word = match test {
        None => 1,
        Some(test) => value_of(machine, functions, test, room)?,
    };
    if word == 0 {
        return Ok(Turn::Leaves(Flow::Completed));
    }
    machine.begin_turn()?;
    match statement(machine, functions, body, room)? {
        Flow::Broke => Ok(Turn::Leaves(Flow::Completed)),
        Flow::Returned => Ok(Turn::Leaves(Flow::Returned)),
        Flow::Completed | Flow::Continued => {
            branch(machine, functions, step, room)?;
            Ok(Turn::Again)
        }
    }
}

/// The value of an operator of two operands, where it has one.
fn applied(
    machine: &mut Machine,
    at: u32,
    op: BinaryOp,
    left: u32,
    right: u32,
) -> Result<u32, Stopped>
    ensures does { Does (states.applied at op left right (seen machine.old)) result machine.new }
{
    if op.traps(right) {
        return Err(machine.stop(Fault::Divide { at }));
    }
    Ok(op.apply(left, right))
}

/// 1 for a word other than zero.
fn truth_of(word: u32) -> u32
    ensures { result ≡ truth (not (word == 0)) }
{
    if word == 0 { 0 } else { 1 }
}

/// The value of a call, which was left so: what was returned, or zero.
fn result_of(flow: Flow, returned: u32) -> u32
    ensures { result ≡ result_of (flow_of returned flow) }
{
    match flow {
        Flow::Returned => returned,
        _ => 0,
    }
}

/// The parameters get the arguments.
fn give(machine: &mut Machine, parameters: &[Variable], words: &[u32]) -> Result<(), Stopped>
    ensures given { OnOk result (seen machine.new ≡ given bare parameters.now words.now (seen machine.old)) }
    ensures err { OnErr result (machine.new.fault ≡ Fault.OutOfMemory) }
{
    for i in 0..parameters.len().min(words.len()) {
        machine.write(&parameters[i], 0, words[i])?;
    }
    Ok(())
}
