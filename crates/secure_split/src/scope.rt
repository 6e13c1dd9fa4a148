//! What the code of a function has around it.
ghost use Rattle.std.specs.Prelude.{◌≡◌, IfOk};
ghost use Rattle.secure_split.specs.SplitViews.{scope_of};

use crate::homes::Homes;
use aegis_num::OutOfMemory;
use sqlite_items::Items;

/// The cells of variables, which functions are private, and whether the function itself is.
#[derive(Drop)]
pub struct Scope {
    /// The cells of variables.
    pub homes: Homes,
    /// Of each function, by its number, whether it is private.
    pub privates: Items<bool>,
    /// Whether the function is private.
    pub private: bool,
}

impl Scope {
    /// The cell of the variable with this token.
    pub fn home(&self, token: u32) -> Result<u32, OutOfMemory>
        ensures { IfOk result (λ cell. cell ≡ (scope_of self.now).home token) }
    {
        self.homes.home(token)
    }

    /// Whether a function is private. One that is not there is not.
    #[tactic(auto, using(crate::proofs::Lists::privates))]
    pub fn is_private(&self, function: usize) -> bool
        ensures { result ≡ (scope_of self.now).is_private function }
    {
        match self.privates.get(function) {
            None => false,
            Some(private) => *private,
        }
    }
}

/// The labels to which `break`, `continue` and `return` go.
#[derive(Clone, Copy)]
pub struct Exits {
    /// Where a loop is left.
    pub broken: u32,
    /// Where the next turn of a loop begins.
    pub continued: u32,
    /// Where the function ends.
    pub returned: u32,
}
