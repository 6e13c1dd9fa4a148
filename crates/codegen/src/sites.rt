//! Where things are in an image.
ghost use Rattle.std.specs.Prelude.{◌≡◌, ◌<◌, ◌^◌, ℕ, slice_index};
ghost use Rattle.orbis_word.specs.Fields.{FitsComplement};
ghost use Rattle.codegen.specs.OpInstructions.{distance};
ghost use Rattle.codegen.specs.Numbers.{number_in};

use std::collections::HashMap;

/// The numbers of the instructions at labels.
#[derive(Drop)]
pub struct LabelTable {
    pub numbers: HashMap<u32, u32>,
}

/// The first address of each cell, and the number of the instruction at each label.
#[derive(Clone, Copy)]
pub struct Sites<'a> {
    pub homes: &'a [u32],
    pub labels: &'a LabelTable,
}

/// From one instruction to another, by their numbers.
pub fn distance(from: u32, to: u32) -> i32
    requires from { from < 2 ^ 25 }
    requires to { to < 2 ^ 25 }
    ensures distance { result ≡ distance from to }
    ensures fits { FitsComplement 26 result }
{
    to as i32 - from as i32
}

impl Sites<'_> {
    /// The first address of a cell.
    pub fn home(&self, cell: u32) -> u32
        ensures { result ≡ slice_index self.now.homes.now cell }
    {
        self.homes.get(cell as usize).copied().unwrap_or(0)
    }

    /// The number of the instruction at a label.
    pub fn label(&self, label: u32) -> u32
        ensures { result ≡ number_in self.now.labels.now label }
    {
        self.labels.numbers.get(&label).copied().unwrap_or(0)
    }
}
