//! Flat code as far as it is written.
ghost use Rattle.std.specs.Prelude.{◌≡◌, ◌+◌, [], ◌∷◌, ◌++◌, IfOk, OnOk};

use crate::numbers::next;
use aegis_num::OutOfMemory;
use ir_code::Op;
use sqlite_items::Items;
use std::alloc::Global;

/// The operations so far, and the first label that is free.
#[derive(Drop)]
pub struct Code {
    /// The operations, in order.
    pub ops: Items<Op>,
    /// The first label that is free.
    pub labels: u32,
}

impl Code {
    /// No operation yet. Labels are free from this one on.
    pub fn new(alloc: Global, labels: u32) -> Code
        ensures ops { result.ops ≡ [] }
        ensures labels { result.labels ≡ labels }
    {
        Code {
            ops: Items::new(alloc),
            labels,
        }
    }

    /// Adds an operation.
    pub fn emit(&mut self, op: Op) -> Result<(), OutOfMemory>
        ensures ops { OnOk result (self.new.ops ≡ self.old.ops ++ op ∷ []) }
        ensures labels { OnOk result (self.new.labels ≡ self.old.labels) }
    {
        self.ops.push(op)?;
        Ok(())
    }

    /// A label that is not used yet.
    pub fn fresh_label(&mut self) -> Result<u32, OutOfMemory>
        ensures label { IfOk result (λ l. l ≡ self.old.labels) }
        ensures labels { OnOk result (self.new.labels ≡ self.old.labels + 1) }
        ensures ops { OnOk result (self.new.ops ≡ self.old.ops) }
    {
        let label = self.labels;
        self.labels = next(label)?;
        Ok(label)
    }
}
