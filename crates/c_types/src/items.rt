//! The sites of items.
ghost use Rattle.std.specs.Prelude.{◌≡◌, ◌+◌, ◌<◌, ◌^◌, [], ◌∷◌, ◌++◌, All, OnOk};
ghost use Rattle.c_scopes.specs.Declarations.{token_of, declaration_of, parameters_of};
ghost use Rattle.c_types.specs.Sites.{length_sites, parameter_sites, function_sites, inner_sites, global_sites};
ghost use Rattle.c_types.specs.Verdicts.{noted, afresh};
ghost use Rattle.c_types.specs.Walks.{place_of, declared_in, items_noted, HasRoom};

use crate::site::{Home, Site};
use crate::statements::{Context, statements};
use crate::verdict::Verdict;
use aegis_num::OutOfMemory;
use c_grammar::{Item, Parameter, Stmt};
use c_scopes::{Names, declaration_of, local, name_of, token_of};

/// Goes past the length of an array.
fn length(length: Option<u32>, token: u32, verdict: &mut Verdict)
    requires { token + 2 < 2 ^ 32 }
    ensures { verdict.new ≡ noted verdict.old (length_sites length token) }
{
    match length {
        None => {}
        Some(length) => verdict.note(Site::Length {
            length,
            token: token + 2,
        }),
    }
}

/// Declares parameters, and goes past their sites.
fn parameters(
    names: &mut Names,
    context: Context,
    all: &[Parameter],
    verdict: &mut Verdict,
) -> Result<(), OutOfMemory>
    ensures declared { OnOk result (names.new ≡ names.old ++ parameters_of all.now) }
    ensures sites { OnOk result (verdict.new ≡ noted verdict.old
        (parameter_sites 0 all.now (place_of names.old context))) }
{
    for (number, p) in all.iter().enumerate() {
        let again = names.is_declared_from(context.start, &p.name);
        verdict.note(Site::Parameter {
            number,
            again,
            token: p.token,
        });
        names.declare(local(p.unsigned, &p.name, p.token))?;
    }
    Ok(())
}

/// Goes past the parameters and the body of a function.
#[tactic(auto, using(crate::proofs::Noted::noted_append))]
fn function(
    names: &mut Names,
    context: Context,
    params: &[Parameter],
    body: &[Stmt],
    verdict: &mut Verdict,
) -> Result<(), OutOfMemory>
    ensures declared { OnOk result (names.new ≡ names.old
        ++ parameters_of params.now ++ declared_in body.now) }
    ensures sites { OnOk result (verdict.new ≡ noted verdict.old
        (function_sites params.now body.now (place_of names.old context))) }
{
    parameters(names, context, params, verdict)?;
    statements(names, context, body, verdict)?;
    Ok(())
}

/// Goes past the sites of an item besides its name.
fn inner(names: &mut Names, item: &Item, verdict: &mut Verdict) -> Result<(), OutOfMemory>
    requires { HasRoom item.now }
    ensures declared { OnOk result (names.new ≡ names.old) }
    ensures sites { OnOk result (verdict.new ≡ noted verdict.old (inner_sites names.old item.now)) }
{
    match item {
        Item::Object {
            length: given,
            token,
            ..
        } => {
            length(*given, *token, verdict);
            Ok(())
        }
        Item::Constant {
            length: given,
            values,
            braces,
            token,
            ..
        } => {
            verdict.note(Site::Constant {
                length: *given,
                values: values.len(),
                braces: *braces,
                token: *token,
            });
            length(*given, *token, verdict);
            Ok(())
        }
        Item::Untrusted { .. } => Ok(()),
        Item::Function {
            private,
            result,
            params,
            body,
            token,
            ..
        } => {
            let context = Context {
                start: names.len(),
                home: Home {
                    private: *private,
                    result: *result,
                    token: *token,
                },
                in_loop: false,
            };
            function(names, context, params.as_slice(), body.as_slice(), verdict)?;
            names.forget(context.start)?;
            Ok(())
        }
    }
}

/// Declares an item that has so many before it, and goes past its sites.
fn global(
    names: &mut Names,
    number: usize,
    item: &Item,
    verdict: &mut Verdict,
) -> Result<(), OutOfMemory>
    requires { HasRoom item.now }
    ensures declared { OnOk result (names.new ≡ names.old ++ declaration_of item.now ∷ []) }
    ensures sites { OnOk result (verdict.new ≡ noted (afresh verdict.old)
        (global_sites number names.old item.now)) }
{
    verdict.begin();
    let again = names.is_declared_from(0, name_of(item));
    verdict.note(Site::Global {
        number,
        again,
        token: token_of(item),
    });
    names.declare(declaration_of(item))?;
    inner(names, item, verdict)?;
    Ok(())
}

/// Declares items, and goes past their sites.
pub fn globals(names: &mut Names, all: &[Item], verdict: &mut Verdict) -> Result<(), OutOfMemory>
    requires { All HasRoom all.now }
    ensures { OnOk result (verdict.new ≡ items_noted 0 names.old all.now verdict.old) }
{
    for (number, item) in all.iter().enumerate() {
        global(names, number, item, verdict)?;
    }
    Ok(())
}
