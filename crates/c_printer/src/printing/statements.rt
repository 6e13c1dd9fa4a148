//! Statements as texts.
ghost use Rattle.std.specs.Prelude.{◌≡◌, ◌++◌, ◌∷◌, OnOk, map, option_map};
ghost use Rattle.c_token.specs.declared.Kind.TheVariants as kinds;
ghost use Rattle.c_token.specs.declared.Word.TheVariants as words;
ghost use Rattle.c_token.specs.declared.Sign.TheVariants as signs;
ghost use Rattle.c_printer.specs.PrintedTokens.{in_code, in_head, stmt_kinds, expr_kinds, type_kind, arguments_kinds, initial_kinds, maybe_kinds, subscript_kinds, block_kinds, head_kinds, else_kinds};
ghost use Rattle.c_printer.specs.PrintedParts.{spaced_tokens, no_arguments, between, head_begin_kinds, head_end_kinds};

use crate::printing::Printer;
use aegis_num::Name;
use c_grammar::{Expr, Stmt};
use c_token::{Sign, Word};
use sqlite_items::Boxed;
use std::alloc::AllocError;

impl Printer {
    /// A statement.
    #[cycle(statements)]
    fn statement(&mut self, stmt: &Stmt) -> Result<(), AllocError>
        ensures { OnOk result (self.new.text.items
            ≡ self.old.text.items ++ spaced_tokens (stmt_kinds stmt.now in_code)) }
    {
        match stmt {
            Stmt::Block { body, .. } => self.block(body.as_slice()),
            Stmt::Empty { .. } => self.sign(Sign::Semicolon),
            Stmt::Local {
                unsigned,
                name,
                value,
                ..
            } => {
                self.local(*unsigned, name, value)?;
                self.sign(Sign::Semicolon)
            }
            Stmt::Assign {
                name,
                index,
                value,
                ..
            } => {
                self.assign(name, index, value)?;
                self.sign(Sign::Semicolon)
            }
            Stmt::Call {
                name,
                arguments,
                ..
            } => {
                self.name(name)?;
                self.arguments(arguments.as_slice())?;
                self.sign(Sign::Semicolon)
            }
            Stmt::Release { value, .. } => {
                self.tested(Word::Release, value)?;
                self.sign(Sign::Semicolon)
            }
            Stmt::Check { .. } => {
                self.check()?;
                self.sign(Sign::Semicolon)
            }
            Stmt::Return { value, .. } => {
                self.word(Word::Return)?;
                self.maybe(value)?;
                self.sign(Sign::Semicolon)
            }
            Stmt::Break { .. } => {
                self.word(Word::Break)?;
                self.sign(Sign::Semicolon)
            }
            Stmt::Continue { .. } => {
                self.word(Word::Continue)?;
                self.sign(Sign::Semicolon)
            }
            Stmt::If {
                test,
                body,
                other,
                ..
            } => {
                self.tested(Word::If, test)?;
                self.statement(body.get())?;
                self.alternative(other)
            }
            Stmt::While { test, body, .. } => {
                self.tested(Word::While, test)?;
                self.statement(body.get())
            }
            Stmt::For {
                first,
                test,
                step,
                body,
                ..
            } => {
                self.head_begin(first)?;
                self.head_end(test, step)?;
                self.statement(body.get())
            }
        }
    }

    /// Locals and statements between braces.
    #[cycle(statements)]
    pub fn block(&mut self, body: &[Stmt]) -> Result<(), AllocError>
        ensures { OnOk result (self.new.text.items
            ≡ self.old.text.items ++ spaced_tokens (block_kinds body.now)) }
    {
        self.sign(Sign::LeftBrace)?;
        for stmt in body {
            self.statement(stmt)?;
        }
        self.sign(Sign::RightBrace)
    }

    /// `else` and a statement, where it stands.
    #[cycle(statements)]
    fn alternative(&mut self, other: &Option<Boxed<Stmt>>) -> Result<(), AllocError>
        ensures { OnOk result (self.new.text.items ≡ self.old.text.items
            ++ spaced_tokens (else_kinds (option_map stmt_kinds other.now))) }
    {
        match other {
            Some(other) => {
                self.word(Word::Else)?;
                self.statement(other.get())
            }
            None => Ok(()),
        }
    }

    /// The head of a `for` up to its first sign `;`.
    #[cycle(statements)]
    fn head_begin(&mut self, first: &Option<Boxed<Stmt>>) -> Result<(), AllocError>
        ensures { OnOk result (self.new.text.items ≡ self.old.text.items
            ++ spaced_tokens (head_begin_kinds (head_kinds (option_map stmt_kinds first.now)))) }
    {
        self.word(Word::For)?;
        self.sign(Sign::LeftParenthesis)?;
        self.head_part(first)?;
        self.sign(Sign::Semicolon)
    }

    /// The head of a `for` after its first sign `;`.
    #[cycle(statements)]
    fn head_end(
        &mut self,
        test: &Option<Expr>,
        step: &Option<Boxed<Stmt>>,
    ) -> Result<(), AllocError>
        ensures { OnOk result (self.new.text.items ≡ self.old.text.items ++ spaced_tokens
            (head_end_kinds test.now (head_kinds (option_map stmt_kinds step.now)))) }
    {
        self.maybe(test)?;
        self.sign(Sign::Semicolon)?;
        self.head_part(step)?;
        self.sign(Sign::RightParenthesis)
    }

    /// A part of the head of a `for`, where it stands. It has no sign `;` of its own.
    #[cycle(statements)]
    fn head_part(&mut self, part: &Option<Boxed<Stmt>>) -> Result<(), AllocError>
        ensures { OnOk result (self.new.text.items ≡ self.old.text.items
            ++ spaced_tokens (head_kinds (option_map stmt_kinds part.now))) }
    {
        match part {
            Some(part) => self.simple(part.get()),
            None => Ok(()),
        }
    }

    /// A statement in the head of a `for`.
    #[cycle(statements)]
    fn simple(&mut self, stmt: &Stmt) -> Result<(), AllocError>
        ensures { OnOk result (self.new.text.items
            ≡ self.old.text.items ++ spaced_tokens (stmt_kinds stmt.now in_head)) }
    {
        match stmt {
            Stmt::Local {
                unsigned,
                name,
                value,
                ..
            } => self.local(*unsigned, name, value),
            Stmt::Assign {
                name,
                index,
                value,
                ..
            } => self.assign(name, index, value),
            Stmt::Call {
                name,
                arguments,
                ..
            } => {
                self.name(name)?;
                self.arguments(arguments.as_slice())
            }
            Stmt::Release { value, .. } => self.tested(Word::Release, value),
            Stmt::Check { .. } => self.check(),
            // No other statement stands in a head.
            _ => self.statement(stmt),
        }
    }

    /// A local.
    fn local(&mut self, unsigned: bool, name: &Name, value: &Option<Expr>) -> Result<(), AllocError>
        ensures { OnOk result (self.new.text.items ≡ self.old.text.items
            ++ spaced_tokens (type_kind unsigned ∷ kinds.Name name.now ∷ initial_kinds value.now)) }
    {
        self.type_word(unsigned)?;
        self.name(name)?;
        if let Some(value) = value {
            self.sign(Sign::Assign)?;
            return self.expr(value);
        }
        Ok(())
    }

    /// An assignment.
    fn assign(&mut self, name: &Name, index: &Option<Expr>, value: &Expr) -> Result<(), AllocError>
        ensures { OnOk result (self.new.text.items ≡ self.old.text.items
            ++ spaced_tokens (kinds.Name name.now ∷ (subscript_kinds index.now
            ++ kinds.Sign signs.Assign ∷ expr_kinds value.now))) }
    {
        self.name(name)?;
        self.subscript(index)?;
        self.sign(Sign::Assign)?;
        self.expr(value)
    }

    /// An index between brackets, where it stands.
    fn subscript(&mut self, index: &Option<Expr>) -> Result<(), AllocError>
        ensures { OnOk result (self.new.text.items
            ≡ self.old.text.items ++ spaced_tokens (subscript_kinds index.now)) }
    {
        match index {
            Some(index) => {
                self.sign(Sign::LeftBracket)?;
                self.expr(index)?;
                self.sign(Sign::RightBracket)
            }
            None => Ok(()),
        }
    }

    /// `check()`
    fn check(&mut self) -> Result<(), AllocError>
        ensures { OnOk result (self.new.text.items ≡ self.old.text.items
            ++ spaced_tokens (kinds.Word words.Check ∷ no_arguments)) }
    {
        self.word(Word::Check)?;
        self.sign(Sign::LeftParenthesis)?;
        self.sign(Sign::RightParenthesis)
    }

    /// A word and an expression between parentheses.
    fn tested(&mut self, word: Word, value: &Expr) -> Result<(), AllocError>
        ensures { OnOk result (self.new.text.items ≡ self.old.text.items
            ++ spaced_tokens (kinds.Word word ∷ between (expr_kinds value.now))) }
    {
        self.word(word)?;
        self.sign(Sign::LeftParenthesis)?;
        self.expr(value)?;
        self.sign(Sign::RightParenthesis)
    }

    /// An expression, where it stands.
    fn maybe(&mut self, value: &Option<Expr>) -> Result<(), AllocError>
        ensures { OnOk result (self.new.text.items
            ≡ self.old.text.items ++ spaced_tokens (maybe_kinds value.now)) }
    {
        match value {
            Some(value) => self.expr(value),
            None => Ok(()),
        }
    }
}
