//! The changes of the lines that were read.
ghost use Rattle.std.specs.Prelude.{◌≡◌, [], ◌∷◌, ◌++◌, OnOk, OnErr, IfErr};
ghost use Rattle.adversary_script.specs.ScriptGrammar.{ruled};
ghost use Rattle.adversary_script.specs.FormMeanings.{IsScriptFault};

use crate::change::Change;
use crate::fault::Fault;
use crate::latest::Latest;
use crate::script::{Changes, Script};
use aegis_num::limits::{MAX_CHANGE_BYTES, MAX_CHANGES};
use std::alloc::Global;
use std::marker::Model;

/// The changes so far, and what tells whether the next one keeps the rules.
#[derive(Drop)]
pub struct Draft {
    changes: Vec<Change>,
    latest: Latest,
    bytes: usize,
}

impl Model for Draft {
    ghost use Rattle.std.specs.Prelude.{List};
    ghost use Rattle.adversary_script.specs.declared.change.Change.{Change};
    ghost use Rattle.adversary_script.specs.LatestMoments.{IsDraft};

    ghost Value = { List Change };

    ghost view = { λ draft. draft.changes.items };

    ghost invariant = { λ draft. IsDraft draft.changes.items draft.latest draft.bytes };
}

impl Draft {
    /// No change yet.
    pub fn new(alloc: Global) -> Draft
        ensures { result ≡ [] }
    {
        Draft {
            changes: Vec::new(alloc),
            latest: Latest {
                at: None,
                suspend: None,
            },
            bytes: 0,
        }
    }

    /// Whether a change keeps the rules after these.
    #[tactic(auto, unfolding(crate::specs::ScriptGrammar::ruled))]
    fn rule(&self, change: &Change) -> Result<(), Fault>
        ensures { result ≡ ruled self.now change.now }
    {
        if !change.what.is_in_range() {
            return Err(Fault::Range);
        }
        if !self.latest.allows(change.when) {
            return Err(Fault::Order);
        }
        let bytes = self.bytes + change.what.bytes_written();
        if self.changes.len() >= MAX_CHANGES as usize || bytes > MAX_CHANGE_BYTES as usize {
            return Err(Fault::TooMany);
        }
        Ok(())
    }

    /// Adds a change, where it keeps the rules.
    pub fn add(&mut self, change: Change) -> Result<(), Fault>
        ensures ruled { OnOk result (ruled self.old change ≡ Ok tt) }
        ensures added { OnOk result (self.new ≡ self.old ++ change ∷ []) }
        ensures fault { IfErr result (λ fault. IsScriptFault fault (ruled self.old change)) }
    {
        self.rule(&change)?;
        let latest = self.latest.with(change.when);
        let bytes = self.bytes + change.what.bytes_written();
        self.changes.push(change)?;
        self.latest = latest;
        self.bytes = bytes;
        Ok(())
    }

    /// The script of the changes.
    pub fn finish(self) -> Script
        ensures { result ≡ self }
    {
        Script {
            changes: Changes::new(self.changes),
        }
    }
}
