//! Declarations as texts.
ghost use Rattle.std.specs.Prelude.{◌≡◌, ◌++◌, ◌∷◌, [], OnOk, map, if◌then◌else◌};
ghost use Rattle.c_token.specs.declared.Kind.TheVariants as kinds;
ghost use Rattle.c_token.specs.declared.Word.TheVariants as words;
ghost use Rattle.c_token.specs.declared.Sign.TheVariants as signs;
ghost use Rattle.c_printer.specs.PrintedTokens.{items_kinds, item_kinds, storage_kinds, length_kinds, value_kinds, values_kinds, answer_kind, parameter_kinds, parameters_kinds, with_commas};
ghost use Rattle.c_printer.specs.PrintedParts.{spaced_token, spaced_tokens, untrusted_kinds};

use crate::printing::Printer;
use aegis_num::Name;
use c_grammar::{Item, Kind3, Parameter, Storage, Value};
use c_token::{Sign, Word};
use std::alloc::AllocError;

/// The greatest value of a number without the suffix `u`.
const MAX_INT: u32 = 2_147_483_647;

impl Printer {
    /// Declarations, one after another.
    pub fn items(&mut self, items: &[Item]) -> Result<(), AllocError>
        ensures { OnOk result (self.new.text.items
            ≡ self.old.text.items ++ spaced_tokens (items_kinds items.now)) }
    {
        for item in items {
            self.item(item)?;
        }
        Ok(())
    }

    /// A declaration.
    fn item(&mut self, item: &Item) -> Result<(), AllocError>
        ensures { OnOk result (self.new.text.items
            ≡ self.old.text.items ++ spaced_tokens (item_kinds item.now)) }
    {
        match item {
            Item::Object {
                class,
                unsigned,
                name,
                length,
                ..
            } => {
                self.storage(*class)?;
                self.type_word(*unsigned)?;
                self.name(name)?;
                self.length(*length)?;
                self.sign(Sign::Semicolon)
            }
            Item::Constant {
                unsigned,
                name,
                length,
                values,
                braces,
                ..
            } => {
                self.word(Word::Const)?;
                self.type_word(*unsigned)?;
                self.name(name)?;
                self.length(*length)?;
                self.sign(Sign::Assign)?;
                self.values(values.as_slice(), *braces)?;
                self.sign(Sign::Semicolon)
            }
            Item::Untrusted { name, .. } => self.untrusted(name),
            Item::Function {
                private,
                result,
                name,
                params,
                body,
                ..
            } => {
                self.private(*private)?;
                self.answer(*result)?;
                self.name(name)?;
                self.parameters(params.as_slice())?;
                self.block(body.as_slice())
            }
        }
    }

    /// The word of a class, left out where it may be.
    fn storage(&mut self, class: Storage) -> Result<(), AllocError>
        ensures { OnOk result (self.new.text.items
            ≡ self.old.text.items ++ spaced_tokens (storage_kinds class)) }
    {
        match class {
            Storage::Verified => Ok(()),
            Storage::Private => self.word(Word::Private),
            Storage::Shared => self.word(Word::Shared),
            Storage::Logged => self.word(Word::Logged),
        }
    }

    /// The length of an array between brackets, where it stands.
    fn length(&mut self, length: Option<u32>) -> Result<(), AllocError>
        ensures { OnOk result (self.new.text.items
            ≡ self.old.text.items ++ spaced_tokens (length_kinds length)) }
    {
        match length {
            Some(length) => {
                self.sign(Sign::LeftBracket)?;
                self.number(length, length > MAX_INT)?;
                self.sign(Sign::RightBracket)
            }
            None => Ok(()),
        }
    }

    /// The values of a constant, between braces or not.
    fn values(&mut self, values: &[Value], braces: bool) -> Result<(), AllocError>
        ensures { OnOk result (self.new.text.items
            ≡ self.old.text.items ++ spaced_tokens (values_kinds braces values.now)) }
    {
        if braces {
            self.sign(Sign::LeftBrace)?;
            self.listed_values(values)?;
            return self.sign(Sign::RightBrace);
        }
        self.listed_values(values)
    }

    /// Values with a sign `,` between two.
    fn listed_values(&mut self, values: &[Value]) -> Result<(), AllocError>
        ensures { OnOk result (self.new.text.items ≡ self.old.text.items
            ++ spaced_tokens (with_commas (map value_kinds values.now))) }
    {
        for (i, value) in values.iter().enumerate() {
            self.comma_before(i)?;
            self.value(*value)?;
        }
        Ok(())
    }

    /// A value of a constant.
    fn value(&mut self, value: Value) -> Result<(), AllocError>
        ensures { OnOk result (self.new.text.items
            ≡ self.old.text.items ++ spaced_tokens (value_kinds value)) }
    {
        if value.negative {
            self.sign(Sign::Minus)?;
            return self.number(value.value, value.unsigned);
        }
        self.number(value.value, value.unsigned)
    }

    /// A function of the untrusted code.
    fn untrusted(&mut self, name: &Name) -> Result<(), AllocError>
        ensures { OnOk result (self.new.text.items
            ≡ self.old.text.items ++ spaced_tokens (untrusted_kinds name.now)) }
    {
        self.word(Word::Untrusted)?;
        self.word(Word::Void)?;
        self.name(name)?;
        self.no_parameters()?;
        self.sign(Sign::Semicolon)
    }

    /// `(void)`
    fn no_parameters(&mut self) -> Result<(), AllocError>
        ensures { OnOk result (self.new.text.items
            ≡ self.old.text.items ++ spaced_tokens (parameters_kinds [])) }
    {
        self.sign(Sign::LeftParenthesis)?;
        self.word(Word::Void)?;
        self.sign(Sign::RightParenthesis)
    }

    /// The word `__private` before a function, where it stands.
    fn private(&mut self, private: bool) -> Result<(), AllocError>
        ensures { OnOk result (self.new.text.items ≡ self.old.text.items
            ++ spaced_tokens (if private then kinds.Word words.Private ∷ [] else [])) }
    {
        if private {
            return self.word(Word::Private);
        }
        Ok(())
    }

    /// What a function answers.
    fn answer(&mut self, answer: Kind3) -> Result<(), AllocError>
        ensures { OnOk result (self.new.text.items
            ≡ self.old.text.items ++ spaced_token (answer_kind answer)) }
    {
        match answer {
            Kind3::Int => self.word(Word::Int),
            Kind3::Unsigned => self.word(Word::Unsigned),
            Kind3::Void => self.word(Word::Void),
        }
    }

    /// The parameters of a function between parentheses.
    fn parameters(&mut self, parameters: &[Parameter]) -> Result<(), AllocError>
        ensures { OnOk result (self.new.text.items
            ≡ self.old.text.items ++ spaced_tokens (parameters_kinds parameters.now)) }
    {
        if parameters.is_empty() {
            return self.no_parameters();
        }
        self.sign(Sign::LeftParenthesis)?;
        self.listed_parameters(parameters)?;
        self.sign(Sign::RightParenthesis)
    }

    /// Parameters with a sign `,` between two.
    fn listed_parameters(&mut self, parameters: &[Parameter]) -> Result<(), AllocError>
        ensures { OnOk result (self.new.text.items ≡ self.old.text.items
            ++ spaced_tokens (with_commas (map parameter_kinds parameters.now))) }
    {
        for (i, parameter) in parameters.iter().enumerate() {
            self.comma_before(i)?;
            self.type_word(parameter.unsigned)?;
            self.name(&parameter.name)?;
        }
        Ok(())
    }
}
