//! The names in scope.
ghost use Rattle.std.specs.Prelude.{◌≡◌, ◌-◌, [], ◌∷◌, ◌++◌, length, take, drop, slice_get, OnOk, OnErr};
ghost use Rattle.indexmap.specs.IndexMap.{IsUnchanged, Updates};
ghost use Rattle.c_scopes.specs.Scopes.{latest, declares};
ghost use Rattle.c_scopes.specs.KeptNames.{found, last_hidden, name_eq};

use crate::declaration::{Binding, Declaration};
use aegis_num::{Name, OutOfMemory};
use indexmap::IndexMap;
use std::alloc::Global;
use std::marker::Model;

/// What a name is bound to, and how many declarations stood before that one.
#[derive(Clone, Copy)]
pub struct Known {
    pub binding: Binding,
    pub place: usize,
}

/// The declarations in scope, in the order of the source. A name is found in one look-up: a map holds its latest
/// declaration, and beside each declaration stands the one that it hides.
#[derive(Drop)]
pub struct Names {
    known: IndexMap<Name, Known>,
    declared: Vec<Declaration>,
    hidden: Vec<Option<Known>>,
}

impl Model for Names {
    ghost use Rattle.std.specs.Prelude.{List};
    ghost use Rattle.c_scopes.specs.declared.declaration.Declaration.{Declaration};
    ghost use Rattle.c_scopes.specs.KeptNames.{IsKept};

    ghost Value = { List Declaration };

    ghost view = { λ names. names.declared.items };

    ghost invariant = { λ names. IsKept names.known names.declared.items names.hidden.items };
}

/// Puts back what a declaration of a name hid.
fn restore(
    known: &mut IndexMap<Name, Known>,
    name: Name,
    hidden: Option<Known>,
) -> Result<(), OutOfMemory>
    ensures ok { OnOk result (Updates name_eq known.old known.new name hidden) }
    ensures err { OnErr result (IsUnchanged known.old known.new) }
{
    match hidden {
        None => {
            known.swap_remove(&name);
            Ok(())
        }
        Some(earlier) => {
            known.insert(name, earlier)?;
            Ok(())
        }
    }
}

/// The last declaration.
fn last_declared(declared: &[Declaration]) -> Option<Declaration>
    ensures { result ≡ slice_get declared.now (length declared.now - 1) }
{
    declared.last().copied()
}

/// The last of what is hidden.
fn last_hidden(hidden: &[Option<Known>]) -> Option<Known>
    ensures { result ≡ last_hidden hidden.now }
{
    match hidden.last() {
        None => None,
        Some(known) => *known,
    }
}

impl Names {
    /// No declaration.
    pub fn new(alloc: Global) -> Names
        ensures { result ≡ [] }
    {
        Names {
            known: IndexMap::new(alloc),
            declared: Vec::new(alloc),
            hidden: Vec::new(alloc),
        }
    }

    /// How many declarations there are.
    pub fn len(&self) -> usize
        ensures { result ≡ length self.now }
    {
        self.declared.len()
    }

    /// The latest declaration of a name.
    fn found(&self, name: &Name) -> Option<Known>
        ensures { result ≡ found 0 self.now name.now }
    {
        self.known.get(name).copied()
    }

    /// What a name is bound to.
    pub fn binding(&self, name: &Name) -> Option<Binding>
        ensures { result ≡ latest self.now name.now }
    {
        match self.found(name) {
            None => None,
            Some(known) => Some(known.binding),
        }
    }

    /// Whether the name is declared among those from this number on.
    pub fn is_declared_from(&self, start: usize, name: &Name) -> bool
        ensures { result ≡ declares (drop start self.now) name.now }
    {
        match self.found(name) {
            None => false,
            Some(known) => start <= known.place,
        }
    }

    /// Adds a declaration.
    pub fn declare(&mut self, declaration: Declaration) -> Result<(), OutOfMemory>
        ensures { OnOk result (self.new ≡ self.old ++ declaration ∷ []) }
    {
        let hidden = self.found(&declaration.name);
        let known = Known {
            binding: declaration.binding,
            place: self.declared.len(),
        };
        self.declared.reserve(1)?;
        self.hidden.reserve(1)?;
        self.known.insert(declaration.name, known)?;
        self.declared.push(declaration)?;
        self.hidden.push(hidden)?;
        Ok(())
    }

    /// Takes the latest declaration away, if there is one.
    fn forget_latest(&mut self) -> Result<(), OutOfMemory>
        ensures { OnOk result (self.new ≡ take (length self.old - 1) self.old) }
    {
        let Some(declaration) = last_declared(&self.declared) else {
            return Ok(());
        };
        let hidden = last_hidden(&self.hidden);
        restore(&mut self.known, declaration.name, hidden)?;
        self.declared.pop();
        self.hidden.pop();
        Ok(())
    }

    /// Takes the declarations from this number on away.
    pub fn forget(&mut self, start: usize) -> Result<(), OutOfMemory>
        ensures { OnOk result (self.new ≡ take start self.old) }
    {
        'each: while self.len() > start {
            self.forget_latest()?;
        }
        Ok(())
    }
}
