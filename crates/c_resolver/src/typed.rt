//! Expressions with their types.
ghost use Rattle.std.specs.Prelude.{◌≡◌};
ghost use Rattle.c_resolver.specs.Resolving.{nothing, variable_of};
ghost use Rattle.c_resolver.specs.ResolvingViews.{typed_of};

use c_semantics::{Expr, Variable};
use regions::Class;

/// An expression, and whether its type is `unsigned`, and not `int`.
#[derive(Drop)]
pub struct Typed {
    /// Whether its type is `unsigned`.
    pub unsigned: bool,
    /// The expression.
    pub expr: Expr,
}

/// What no program without violations has.
pub fn nothing() -> Typed
    ensures { typed_of result ≡ nothing }
{
    Typed {
        unsigned: false,
        expr: Expr::Number { value: 0 },
    }
}

/// A variable by the token of its declaration, with its class where it is global.
pub fn variable(token: u32, class: Option<Class>) -> Variable
    ensures { result ≡ variable_of token class }
{
    Variable { token, class }
}
