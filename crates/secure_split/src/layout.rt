//! The cells of a program.
ghost use Rattle.std.specs.Prelude.{◌≡◌, ◌+◌, [], ◌∷◌, ◌++◌, length, map, slice_index, IfOk, OnOk};
ghost use Rattle.c_semantics.specs.ProgramShape.{own_tokens, word_count};
ghost use Rattle.c_semantics.specs.ResolvedViews.{function_of, functions_of, object_of, objects_of, program_of};
ghost use Rattle.lowering.specs.Cells.{cell_count, cells_of, class_for, class_or_verified, filled_up, first_for, function_cells, nobody, object_cell, object_cells, owners_in, owners_of, room_in, words};
ghost use Rattle.secure_split.specs.SplitViews.{privates_in};

use crate::functions::own_tokens;
use crate::numbers::sum;
use crate::rooms::room_in_all;
use aegis_num::OutOfMemory;
use c_semantics::{Function, Object, Program};
use ir_code::Cell;
use regions::Class;
use sqlite_items::Items;
use std::alloc::Global;

/// The cells of a program in order, the variables that they are for, by their tokens, and which functions are private.
#[derive(Drop)]
pub struct Layout {
    alloc: Global,
    /// The cells.
    pub cells: Items<Cell>,
    /// The variable that each cell is for, if it is for one.
    pub owners: Items<Option<u32>>,
    /// Of each function, whether it is private.
    pub privates: Items<bool>,
}

/// The cells of a program: those of its objects, and then those of each function in order.
pub fn laid_out(alloc: Global, p: &Program) -> Result<Layout, OutOfMemory>
    ensures cells { IfOk result (λ l. l.cells ≡ cells_of (program_of p.now)) }
    ensures owners { IfOk result (λ l. l.owners ≡ owners_of (program_of p.now)) }
    ensures privates { IfOk result (λ l. l.privates ≡ privates_in (functions_of p.now.functions)) }
{
    let mut layout = Layout {
        alloc,
        cells: Items::new(alloc),
        owners: Items::new(alloc),
        privates: Items::new(alloc),
    };
    layout.add_objects(p.objects.as_slice())?;
    layout.add_functions(p.functions.as_slice())?;
    Ok(layout)
}

impl Layout {
    /// Adds the cells of objects.
    #[tactic(auto, using(crate::proofs::Lists::all_objects))]
    fn add_objects(&mut self, objects: &[Object]) -> Result<(), OutOfMemory>
        ensures cells { OnOk result (self.new.cells ≡ self.old.cells ++ object_cells (objects_of objects.now)) }
        ensures owners { OnOk result (self.new.owners ≡ self.old.owners ++ map (λ o. Some o.variable.token) (objects_of objects.now)) }
        ensures privates { OnOk result (self.new.privates ≡ self.old.privates) }
    {
        for o in objects {
            self.add_object(o)?;
        }
        Ok(())
    }

    /// Adds the cell of an object.
    fn add_object(&mut self, o: &Object) -> Result<(), OutOfMemory>
        ensures cells { OnOk result (self.new.cells ≡ self.old.cells ++ object_cell (object_of o.now) ∷ []) }
        ensures owners { OnOk result (self.new.owners ≡ self.old.owners ++ Some o.now.variable.token ∷ []) }
        ensures privates { OnOk result (self.new.privates ≡ self.old.privates) }
    {
        let class = class_or_verified(o.variable.class);
        let words = word_count(o.length);
        let first = first_words(self.alloc, class, words, o.first.as_slice())?;
        self.cells.push(Cell {
            class,
            words,
            first,
        })?;
        self.owners.push(Some(o.variable.token))?;
        Ok(())
    }

    /// Adds the cells of functions.
    #[tactic(auto, using(crate::proofs::Lists::all_functions))]
    fn add_functions(&mut self, fs: &[Function]) -> Result<(), OutOfMemory>
        ensures cells { OnOk result (self.new.cells ≡ self.old.cells ++ function_cells (functions_of fs.now)) }
        ensures owners { OnOk result (self.new.owners ≡ self.old.owners ++ owners_in (functions_of fs.now)) }
        ensures privates { OnOk result (self.new.privates ≡ self.old.privates ++ privates_in (functions_of fs.now)) }
    {
        for f in fs {
            self.add_function(f)?;
            self.privates.push(f.private)?;
        }
        Ok(())
    }

    /// Adds the cells of a function: its variables, its link and its temporaries.
    #[tactic(auto, using(crate::proofs::LayoutLists::temporaries))]
    fn add_function(&mut self, f: &Function) -> Result<(), OutOfMemory>
        ensures cells { OnOk result (self.new.cells ≡ self.old.cells ++ words (class_for f.now.private) (cell_count (function_of f.now))) }
        ensures owners { OnOk result (self.new.owners ≡ self.old.owners
            ++ (map Some (own_tokens (function_of f.now)) ++ nobody (1 + room_in (function_of f.now).body))) }
        ensures privates { OnOk result (self.new.privates ≡ self.old.privates) }
    {
        let class = class_for(f.private);
        let own = own_tokens(self.alloc, f)?;
        let more = sum(1, room_in_all(f.body.as_slice())?)?;
        self.add_variables(class, own.as_slice())?;
        self.add_temporaries(class, more)?;
        Ok(())
    }

    /// Adds the cells of the variables of a function.
    #[tactic(auto, using(crate::proofs::LayoutLists::tokens))]
    fn add_variables(&mut self, class: Class, tokens: &[u32]) -> Result<(), OutOfMemory>
        ensures cells { OnOk result (self.new.cells ≡ self.old.cells ++ words class (length tokens.now)) }
        ensures owners { OnOk result (self.new.owners ≡ self.old.owners ++ map Some tokens.now) }
        ensures privates { OnOk result (self.new.privates ≡ self.old.privates) }
    {
        for token in tokens {
            self.add_word(class, Some(*token))?;
        }
        Ok(())
    }

    /// Adds cells that are for no variable.
    #[tactic(auto, using(crate::proofs::LayoutLists::temporaries))]
    fn add_temporaries(&mut self, class: Class, count: u32) -> Result<(), OutOfMemory>
        ensures cells { OnOk result (self.new.cells ≡ self.old.cells ++ words class count) }
        ensures owners { OnOk result (self.new.owners ≡ self.old.owners ++ nobody count) }
        ensures privates { OnOk result (self.new.privates ≡ self.old.privates) }
    {
        for _cell in 0..count {
            self.add_word(class, None)?;
        }
        Ok(())
    }

    /// Adds a cell of one word.
    fn add_word(&mut self, class: Class, owner: Option<u32>) -> Result<(), OutOfMemory>
        ensures cells { OnOk result (self.new.cells ≡ self.old.cells ++ words class 1) }
        ensures owners { OnOk result (self.new.owners ≡ self.old.owners ++ owner ∷ []) }
        ensures privates { OnOk result (self.new.privates ≡ self.old.privates) }
    {
        self.cells.push(Cell {
            class,
            words: 1,
            first: Items::new(self.alloc),
        })?;
        self.owners.push(owner)?;
        Ok(())
    }
}

/// How an object is kept. Each object of a program has a class.
fn class_or_verified(class: Option<Class>) -> Class
    ensures { result ≡ class_or_verified class }
{
    match class {
        None => Class::Verified,
        Some(class) => class,
    }
}

/// How many words an object has.
fn word_count(length: Option<u32>) -> u32
    ensures { result ≡ word_count length }
{
    match length {
        None => 1,
        Some(length) => length,
    }
}

/// How the cells of a function are kept.
fn class_for(private: bool) -> Class
    ensures { result ≡ class_for private }
{
    if private {
        Class::Private
    } else {
        Class::Verified
    }
}

/// The words that an object's cell starts with: a constant has all of its own, filled up with zeros, and another one none.
fn first_words(
    alloc: Global,
    class: Class,
    words: u32,
    first: &[u32],
) -> Result<Items<u32>, OutOfMemory>
    ensures { IfOk result (λ all. all ≡ first_for class words first.now) }
{
    match class {
        Class::Constant => filled_up(alloc, words, first),
        _ => Ok(Items::new(alloc)),
    }
}

/// So many words, filled up with zeros.
#[tactic(auto, using(crate::proofs::LayoutLists::fillings))]
fn filled_up(alloc: Global, count: u32, first: &[u32]) -> Result<Items<u32>, OutOfMemory>
    ensures { IfOk result (λ all. all ≡ filled_up count first.now) }
{
    let mut all = Items::new(alloc);
    for i in 0..count {
        all.push(word_at(first, i))?;
    }
    Ok(all)
}

/// A word, or zero after the last one.
#[tactic(auto, using(crate::proofs::LayoutLists::lookups))]
fn word_at(words: &[u32], i: u32) -> u32
    ensures { result ≡ slice_index words.now i }
{
    match words.get(i as usize) {
        None => 0,
        Some(word) => *word,
    }
}
