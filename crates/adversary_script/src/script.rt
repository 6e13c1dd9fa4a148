//! Scripts.
ghost use Rattle.std.specs.Prelude.{◌≡◌, List};
ghost use Rattle.adversary_script.specs.declared.change.Change.{Change};
ghost use Rattle.adversary_script.specs.ScriptRules.{KeepsScriptRules};

use crate::change::Change;
use std::marker::Model;

/// Changes in a row. They are made from a `Vec` and give it back.
#[derive(Debug, Drop)]
pub struct Changes {
    changes: Vec<Change>,
}

impl Model for Changes {
    ghost Value = { List Change };

    ghost view = { λ changes. changes.changes.items };
}

impl Changes {
    /// The changes of a `Vec`.
    pub fn new(changes: Vec<Change>) -> Changes
        ensures { result ≡ changes.items }
    {
        Changes { changes }
    }

    /// The changes, in order.
    pub fn as_slice(&self) -> &[Change]
        ensures { result.now ≡ self.now }
    {
        self.changes.as_slice()
    }

    /// The `Vec` of the changes.
    pub fn into_vec(self) -> Vec<Change>
        ensures { result.items ≡ self }
    {
        self.changes
    }
}

/// Changes that keep the rules of a script: each is in range, they are in order, and they are at most
/// `MAX_CHANGES` with at most `MAX_CHANGE_BYTES` bytes.
#[derive(Debug, Drop)]
pub struct Script {
    /// The changes, in the order of their lines.
    pub changes: Changes,
}

impl Model for Script {
    ghost Value = { List Change };

    ghost view = { λ script. script.changes };

    ghost invariant = { λ script. KeepsScriptRules script.changes };
}

impl Script {
    /// The changes, in the order of their lines.
    pub fn as_slice(&self) -> &[Change]
        ensures changes { result.now ≡ self.now }
        ensures rules { KeepsScriptRules self.now }
    {
        self.changes.as_slice()
    }
}
