//! The sites of expressions.
ghost use Rattle.std.specs.Prelude.{◌≡◌};
ghost use Rattle.c_types.specs.Sites.{use_of, expr_sites, part_sites};
ghost use Rattle.c_types.specs.Walks.{list_sites};
ghost use Rattle.c_types.specs.Verdicts.{note, noted};

use crate::site::{Home, How, Site};
use crate::verdict::Verdict;
use aegis_num::Name;
use c_grammar::Expr;
use c_scopes::Names;

/// Goes past the use of a name.
pub fn used(names: &Names, home: Home, how: How, name: &Name, token: u32, verdict: &mut Verdict)
    ensures { verdict.new ≡ note verdict.old (use_of how names.now home name.now token) }
{
    let means = names.binding(name);
    verdict.note(Site::Use {
        how,
        means,
        home,
        token,
    });
}

/// Goes past the sites of an expression.
#[cycle(expression)]
#[tactic(auto, using(crate::proofs::Equations::expr_forms, crate::proofs::Noted::noted_append))]
pub fn expression(names: &Names, home: Home, e: &Expr, verdict: &mut Verdict)
    ensures { verdict.new ≡ noted verdict.old (expr_sites e.now names.now home) }
{
    match e {
        Expr::Number { .. } | Expr::Input { .. } => {}
        Expr::Name { name, token } => used(names, home, How::Value, name, *token, verdict),
        Expr::Index { name, index, token } => {
            let at = token.saturating_sub(1);
            used(names, home, How::Element, name, at, verdict);
            expression(names, home, index.get(), verdict);
        }
        Expr::Call {
            name,
            arguments,
            token,
        } => {
            let how = How::CallValue {
                arguments: arguments.len(),
            };
            used(names, home, how, name, *token, verdict);
            expressions(names, home, arguments.as_slice(), verdict);
        }
        Expr::Paren { inner, .. } | Expr::Unary { inner, .. } => {
            expression(names, home, inner.get(), verdict);
        }
        Expr::Binary { left, right, .. } => {
            expression(names, home, left.get(), verdict);
            expression(names, home, right.get(), verdict);
        }
    }
}

/// Goes past the sites of expressions, one after the other.
#[cycle(expression)]
#[tactic(auto, using(crate::proofs::Noted::noted_append))]
pub fn expressions(names: &Names, home: Home, all: &[Expr], verdict: &mut Verdict)
    ensures { verdict.new ≡ noted verdict.old (list_sites all.now names.now home) }
{
    for e in all {
        expression(names, home, e, verdict);
    }
}

/// Goes past the sites of an expression that need not be there.
pub fn part(names: &Names, home: Home, e: &Option<Expr>, verdict: &mut Verdict)
    ensures { verdict.new ≡ noted verdict.old (part_sites e.now names.now home) }
{
    match e {
        None => {}
        Some(e) => expression(names, home, e, verdict),
    }
}
