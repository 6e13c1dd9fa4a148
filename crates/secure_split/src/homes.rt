//! The cells of variables.
ghost use Rattle.std.specs.Prelude.{◌≡◌, ℕ, cond, nat_eq, IfOk, OnOk};
ghost use Rattle.std.specs.HashMap.{get};
ghost use Rattle.lowering.specs.Cells.{home_in, is_for};
ghost use Rattle.secure_split.specs.SplitViews.{home_by};

use crate::numbers::{number, sum};
use aegis_num::OutOfMemory;
use std::alloc::Global;
use std::collections::HashMap;

/// The cells of variables, by the tokens of their declarations, and how many cells there are.
#[derive(Drop)]
pub struct Homes {
    /// The cell of each variable that is declared.
    pub cells: HashMap<u32, u32>,
    /// How many cells there are.
    pub count: u32,
}

impl Homes {
    /// The cells of variables, where these are the variables that the cells are for, by their tokens, in the order of the cells.
    pub fn new(alloc: Global, owners: &[Option<u32>]) -> Result<Homes, OutOfMemory>
        ensures { IfOk result (λ homes. (token : ℕ) → home_by homes token ≡ home_in owners.now token) }
    {
        let mut cells = HashMap::new(alloc);
        let mut left = owners.len();
        while 0 < left {
            left -= 1;
            note(&mut cells, owners[left], left)?;
        }
        Ok(Homes {
            cells,
            count: number(owners.len())?,
        })
    }

    /// The cell of the variable with this token. A token that is not declared has a number beyond all cells.
    pub fn home(&self, token: u32) -> Result<u32, OutOfMemory>
        ensures { IfOk result (λ cell. cell ≡ home_by self.now token) }
    {
        match self.cells.get(&token) {
            None => sum(self.count, token),
            Some(cell) => Ok(*cell),
        }
    }
}

/// Notes a cell, if it is for a variable.
fn note(cells: &mut HashMap<u32, u32>, owner: Option<u32>, cell: usize) -> Result<(), OutOfMemory>
    ensures { OnOk result ((token : ℕ) → get nat_eq cells.new token ≡ cond (is_for token owner) (Some cell) (get nat_eq cells.old token)) }
{
    match owner {
        None => Ok(()),
        Some(token) => {
            cells.insert(token, number(cell)?)?;
            Ok(())
        }
    }
}
