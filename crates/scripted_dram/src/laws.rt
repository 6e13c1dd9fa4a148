//! What follows of the definitions alone. Each function's contract is a law, and its body is empty.
ghost use Rattle.std.specs.Prelude.{◌≡◌};
ghost use Rattle.scripted_dram.specs.EmptyScript.{PlainUnderEmptyScript};
ghost use Rattle.scripted_dram.specs.ScriptedValues.{Scripted};

use crate::scripted::ScriptedDram;
use off_chip::OffChip;

/// The traces of a plain memory are those that the empty script answers.
pub fn plain_under_empty_script()
    ensures law { PlainUnderEmptyScript }
{}

/// Two states of one scripted memory have the same layout, and began with the same static blocks and the same script.
pub fn same_scripted_memory()
    ensures layout { (a b : Scripted) → ⟦<ScriptedDram as OffChip>⟧.same_memory a b
        → a.layout ≡ b.layout }
    ensures statics { (a b : Scripted) → ⟦<ScriptedDram as OffChip>⟧.same_memory a b
        → a.statics ≡ b.statics }
    ensures script { (a b : Scripted) → ⟦<ScriptedDram as OffChip>⟧.same_memory a b
        → a.script ≡ b.script }
    ensures holds { (a b : Scripted) → a.layout ≡ b.layout → a.statics ≡ b.statics
        → a.script ≡ b.script → ⟦<ScriptedDram as OffChip>⟧.same_memory a b }
{}
