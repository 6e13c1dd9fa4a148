//! Expressions as texts.
ghost use Rattle.std.specs.Prelude.{◌≡◌, ◌++◌, OnOk};
ghost use Rattle.c_printer.specs.PrintedTokens.{expr_kinds, arguments_kinds};
ghost use Rattle.c_printer.specs.PrintedParts.{spaced_tokens};

use crate::printing::Printer;
use c_grammar::Expr;
use c_token::{Sign, Word};
use std::alloc::AllocError;

impl Printer {
    /// An expression.
    #[cycle(expressions)]
    pub fn expr(&mut self, expr: &Expr) -> Result<(), AllocError>
        ensures { OnOk result (self.new.text.items
            ≡ self.old.text.items ++ spaced_tokens (expr_kinds expr.now)) }
    {
        match expr {
            Expr::Number {
                value,
                unsigned,
                ..
            } => self.number(*value, *unsigned),
            Expr::Name { name, .. } => self.name(name),
            Expr::Index { name, index, .. } => {
                self.name(name)?;
                self.sign(Sign::LeftBracket)?;
                self.expr(index.get())?;
                self.sign(Sign::RightBracket)
            }
            Expr::Call {
                name,
                arguments,
                ..
            } => {
                self.name(name)?;
                self.arguments(arguments.as_slice())
            }
            Expr::Input { .. } => {
                self.word(Word::Input)?;
                self.sign(Sign::LeftParenthesis)?;
                self.sign(Sign::RightParenthesis)
            }
            Expr::Paren { inner, .. } => {
                self.sign(Sign::LeftParenthesis)?;
                self.expr(inner.get())?;
                self.sign(Sign::RightParenthesis)
            }
            Expr::Unary { op, inner, .. } => {
                self.sign(*op)?;
                self.expr(inner.get())
            }
            Expr::Binary {
                op,
                left,
                right,
                ..
            } => {
                self.expr(left.get())?;
                self.sign(*op)?;
                self.expr(right.get())
            }
        }
    }

    /// The arguments of a call, between parentheses.
    #[cycle(expressions)]
    pub fn arguments(&mut self, arguments: &[Expr]) -> Result<(), AllocError>
        ensures { OnOk result (self.new.text.items
            ≡ self.old.text.items ++ spaced_tokens (arguments_kinds arguments.now)) }
    {
        self.sign(Sign::LeftParenthesis)?;
        for (i, argument) in arguments.iter().enumerate() {
            self.comma_before(i)?;
            self.expr(argument)?;
        }
        self.sign(Sign::RightParenthesis)
    }
}
