//! The sites of statements.
ghost use Rattle.std.specs.Prelude.{◌≡◌, [], ◌∷◌, ◌++◌, length, OnOk, is_some};
ghost use Rattle.c_types.specs.declared.site.Site.TheVariants as site;
ghost use Rattle.c_scopes.specs.Scopes.{is_again};
ghost use Rattle.c_types.specs.Sites.{use_of, assign, inner_scope, looped, place_after, stmt_sites, part_sites, expr_sites};
ghost use Rattle.c_types.specs.Verdicts.{note, noted};
ghost use Rattle.c_types.specs.Walks.{place_of, declared_in, branch_sites, body_sites, list_sites};

use crate::expressions::{expression, expressions, part, used};
use crate::site::{Home, How, Site};
use crate::verdict::Verdict;
use aegis_num::{Name, OutOfMemory};
use c_grammar::{Expr, Stmt};
use c_scopes::{Names, local};
use sqlite_items::Boxed;

/// Where a statement stands.
#[derive(Clone, Copy)]
pub struct Context {
    /// How many declarations were known where its scope began.
    pub start: usize,
    /// The function.
    pub home: Home,
    /// Whether it is inside a loop.
    pub in_loop: bool,
}

/// How a name is used that is assigned to.
fn assigned(index: &Option<Expr>) -> How
    ensures { result ≡ assign index.now }
{
    match index {
        None => How::Assign,
        Some(_) => How::AssignElement,
    }
}

/// Goes past an assignment.
#[tactic(auto, using(crate::proofs::Noted::noted_append))]
fn assignment(
    names: &Names,
    home: Home,
    name: &Name,
    index: &Option<Expr>,
    value: &Expr,
    token: u32,
    verdict: &mut Verdict,
)
    ensures { verdict.new ≡ noted verdict.old
        (use_of (assign index.now) names.now home name.now token ∷
        (part_sites index.now names.now home ++ expr_sites value.now names.now home)) }
{
    used(names, home, assigned(index), name, token, verdict);
    part(names, home, index, verdict);
    expression(names, home, value, verdict);
}

/// Goes past the declaration of a local, which is not known in its own value.
fn declaration(
    names: &Names,
    context: Context,
    name: &Name,
    value: &Option<Expr>,
    token: u32,
    verdict: &mut Verdict,
)
    ensures { verdict.new ≡ noted verdict.old
        (site.Local (is_again (place_of names.now context).scope name.now) token
        ∷ part_sites value.now names.now context.home) }
{
    let again = names.is_declared_from(context.start, name);
    verdict.note(Site::Local { again, token });
    part(names, context.home, value, verdict);
}

/// Goes past a call that stands as a statement.
fn call(
    names: &Names,
    home: Home,
    name: &Name,
    arguments: &[Expr],
    token: u32,
    verdict: &mut Verdict,
)
    ensures { verdict.new ≡ noted verdict.old
        (use_of (How.Call (length arguments.now)) names.now home name.now token
        ∷ list_sites arguments.now names.now home) }
{
    let how = How::Call {
        arguments: arguments.len(),
    };
    used(names, home, how, name, token, verdict);
    expressions(names, home, arguments, verdict);
}

/// Goes past a `return`.
fn returned(names: &Names, home: Home, value: &Option<Expr>, token: u32, verdict: &mut Verdict)
    ensures { verdict.new ≡ noted verdict.old (site.Return home.result (is_some value.now) token
        ∷ part_sites value.now names.now home) }
{
    verdict.note(Site::Return {
        result: home.result,
        value: value.is_some(),
        token,
    });
    part(names, home, value, verdict);
}

/// Goes past a `break` or `continue`.
fn jump(in_loop: bool, token: u32, verdict: &mut Verdict)
    ensures { verdict.new ≡ noted verdict.old (site.Jump in_loop token ∷ []) }
{
    verdict.note(Site::Jump { in_loop, token });
}

/// Goes past the sites of a statement, and declares what it declares in its scope.
#[tactic(auto, using(crate::proofs::Equations::stmt_forms, crate::proofs::Noted::noted_append))]
#[cycle(statement)]
fn statement(
    names: &mut Names,
    context: Context,
    s: &Stmt,
    verdict: &mut Verdict,
) -> Result<(), OutOfMemory>
    ensures declared { OnOk result (names.new ≡ names.old ++ (stmt_sites s.now).declared) }
    ensures sites { OnOk result (verdict.new ≡ noted verdict.old
        ((stmt_sites s.now).sites (place_of names.old context))) }
{
    let home = context.home;
    match s {
        Stmt::Empty { .. } | Stmt::Check { .. } => Ok(()),
        Stmt::Local {
            unsigned,
            name,
            value,
            token,
        } => {
            let at = *token;
            declaration(names, context, name, value, at, verdict);
            names.declare(local(*unsigned, name, at))?;
            Ok(())
        }
        Stmt::Assign {
            name,
            index,
            value,
            token,
        } => {
            assignment(names, home, name, index, value, *token, verdict);
            Ok(())
        }
        Stmt::Call {
            name,
            arguments,
            token,
        } => {
            call(names, home, name, arguments.as_slice(), *token, verdict);
            Ok(())
        }
        Stmt::Release { value, .. } => {
            expression(names, home, value, verdict);
            Ok(())
        }
        Stmt::Return { value, token } => {
            returned(names, home, value, *token, verdict);
            Ok(())
        }
        Stmt::Break { token } | Stmt::Continue { token } => {
            jump(context.in_loop, *token, verdict);
            Ok(())
        }
        Stmt::Block { body, .. } => {
            let inner = Context {
                start: names.len(),
                ..context
            };
            statements(names, inner, body.as_slice(), verdict)?;
            names.forget(inner.start)?;
            Ok(())
        }
        Stmt::If {
            test,
            body,
            other,
            ..
        } => {
            expression(names, home, test, verdict);
            inside(names, context, body.get(), verdict)?;
            branch_inside(names, context, other, verdict)?;
            Ok(())
        }
        Stmt::While { test, body, .. } => {
            expression(names, home, test, verdict);
            repeated(names, context, body.get(), verdict)?;
            Ok(())
        }
        Stmt::For {
            first,
            test,
            step,
            body,
            ..
        } => {
            let around = Context {
                start: names.len(),
                ..context
            };
            branch(names, around, first, verdict)?;
            part(names, home, test, verdict);
            branch_inside(names, around, step, verdict)?;
            repeated(names, around, body.get(), verdict)?;
            names.forget(around.start)?;
            Ok(())
        }
    }
}

/// Goes past what a loop repeats.
#[cycle(statement)]
fn repeated(
    names: &mut Names,
    context: Context,
    body: &Stmt,
    verdict: &mut Verdict,
) -> Result<(), OutOfMemory>
    ensures declared { OnOk result (names.new ≡ names.old) }
    ensures sites { OnOk result (verdict.new ≡ noted verdict.old
        ((stmt_sites body.now).sites (looped (place_of names.old context)))) }
{
    let looped = Context {
        in_loop: true,
        ..context
    };
    inside(names, looped, body, verdict)?;
    Ok(())
}

/// Goes past the sites of statements, one after the other.
#[cycle(statement)]
pub fn statements(
    names: &mut Names,
    context: Context,
    all: &[Stmt],
    verdict: &mut Verdict,
) -> Result<(), OutOfMemory>
    ensures declared { OnOk result (names.new ≡ names.old ++ declared_in all.now) }
    ensures sites { OnOk result (verdict.new ≡ noted verdict.old
        (body_sites all.now (place_of names.old context))) }
{
    for s in all {
        statement(names, context, s, verdict)?;
    }
    Ok(())
}

/// Goes past the sites of a statement that is a scope of its own.
#[cycle(statement)]
fn inside(
    names: &mut Names,
    context: Context,
    s: &Stmt,
    verdict: &mut Verdict,
) -> Result<(), OutOfMemory>
    ensures declared { OnOk result (names.new ≡ names.old) }
    ensures sites { OnOk result (verdict.new ≡ noted verdict.old
        ((stmt_sites s.now).sites (inner_scope (place_of names.old context)))) }
{
    let start = names.len();
    statement(names, Context { start, ..context }, s, verdict)?;
    names.forget(start)?;
    Ok(())
}

/// Goes past the sites of a statement in a scope of its own, if it is there.
#[cycle(statement)]
fn branch_inside(
    names: &mut Names,
    context: Context,
    s: &Option<Boxed<Stmt>>,
    verdict: &mut Verdict,
) -> Result<(), OutOfMemory>
    ensures declared { OnOk result (names.new ≡ names.old) }
    ensures sites { OnOk result (verdict.new ≡ noted verdict.old
        ((branch_sites s.now).sites (inner_scope (place_of names.old context)))) }
{
    match s {
        None => Ok(()),
        Some(s) => {
            inside(names, context, s.get(), verdict)?;
            Ok(())
        }
    }
}

/// Goes past the sites of a statement that need not be there.
#[cycle(statement)]
fn branch(
    names: &mut Names,
    context: Context,
    s: &Option<Boxed<Stmt>>,
    verdict: &mut Verdict,
) -> Result<(), OutOfMemory>
    ensures declared { OnOk result (names.new ≡ names.old ++ (branch_sites s.now).declared) }
    ensures sites { OnOk result (verdict.new ≡ noted verdict.old
        ((branch_sites s.now).sites (place_of names.old context))) }
{
    match s {
        None => Ok(()),
        Some(s) => {
            statement(names, context, s.get(), verdict)?;
            Ok(())
        }
    }
}
