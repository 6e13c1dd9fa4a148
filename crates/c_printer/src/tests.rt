ghost use Rattle.std.specs.Prelude.{◌≡◌, false, IfOk};
ghost use Rattle.c_grammar.specs.declared.expr.Expr.TheVariants.{Number};
ghost use Rattle.c_grammar.proofs.Worked.{hi_program};

use crate::print_program;
use aegis_num::Name;
use c_grammar::{Expr, Item, Kind3, Program, Stmt};
use sqlite_items::Items;
use std::alloc::{AllocError, Global};
use std::test::Fail;

/// A number, at this token.
fn number(value: u32, token: u32) -> Expr
    ensures { result ≡ Number value false token }
{
    Expr::Number {
        value,
        unsigned: false,
        token,
    }
}

/// `int main(void){release(72);release(105);return 0;}`
fn worked(alloc: Global, main: Name) -> Result<Program, AllocError>
    ensures { IfOk result (λ program. program ≡ hi_program main) }
{
    let mut body = Items::new(alloc);
    body.push(Stmt::Release {
        value: number(72, 8),
        token: 6,
    })?;
    body.push(Stmt::Release {
        value: number(105, 13),
        token: 11,
    })?;
    body.push(Stmt::Return {
        value: Some(number(0, 17)),
        token: 16,
    })?;
    let mut items = Items::new(alloc);
    items.push(Item::Function {
        private: false,
        result: Kind3::Int,
        name: main,
        params: Items::new(alloc),
        body,
        token: 1,
    })?;
    Ok(Program { items })
}

#[test]
fn prints_a_program(rt: HostRuntime) -> Result<(), Fail> {
    let program = worked(rt.alloc(), Name::new(b"main"))?;
    let text = print_program(rt.alloc(), &program)?;
    let printed = "int main ( void ) { release ( 72 ) ; release ( 105 ) ; return 0 ; }";
    assert!(rt; text.as_slice() == printed.as_bytes());
    Ok(())
}
