//! What an evaluation keeps.
ghost use Rattle.std.specs.Prelude.{◌≡◌, ℕ, ◌<◌, [], length, slice_index, slice_index_or, IsTrue, OnOk, OnErr, IfOk};
ghost use Rattle.execution.specs.Traffic.{next_of};
ghost use Rattle.c_semantics.specs.States.{Outcome, GoesOn, taking_input, releasing, begin_turn, within, writing};
ghost use Rattle.c_semantics.specs.ResolvedViews.{objects_of};
ghost use Rattle.c_evaluator.specs.MachineStates.{bare, memory_of, placed, seen, started, Does};

use crate::fault::{Fault, Stopped};
use c_semantics::{Object, Variable};
use sqlite_items::Items;
use std::alloc::{AllocError, Global};

/// The words of the variables by the tokens of their declarations, as far as they were written; the turns that may still
/// begin; the input, and how much of it was read; the bytes that were released; the value of the last `return`; and why
/// the evaluation is over, if it is.
#[derive(Drop)]
pub struct Machine {
    alloc: Global,
    variables: Vec<Items<u32>>,
    turns: u64,
    input: Vec<u8>,
    next: usize,
    released: Vec<u8>,
    returned: u32,
    fault: Fault,
}

impl Machine {
    /// Before the first step: the objects have the words that they start with.
    pub fn new(
        alloc: Global,
        objects: &[Object],
        input: &[u8],
        turns: u64,
    ) -> Result<Machine, AllocError>
        ensures { IfOk result (λ m. seen m ≡ started (objects_of objects.now) input.now turns) }
    {
        let mut machine = Machine {
            alloc,
            variables: Vec::new(alloc),
            turns,
            input: Vec::from_slice(alloc, input)?,
            next: 0,
            released: Vec::new(alloc),
            returned: 0,
            fault: Fault::OutOfMemory,
        };
        let mut left = objects.len();
        while 0 < left {
            left -= 1;
            machine.place(&objects[left])?;
        }
        Ok(machine)
    }

    /// An object gets the words that it starts with.
    fn place(&mut self, object: &Object) -> Result<(), AllocError>
        ensures { OnOk result (seen self.new ≡ placed object.now.variable.token object.now.first (seen self.old)) }
    {
        make_variable(self.alloc, &mut self.variables, object.variable.token)?;
        self.variables[object.variable.token as usize] = Items::from_slice(
            self.alloc,
            object.first.as_slice(),
        )?;
        Ok(())
    }

    /// The bytes that were released.
    pub fn released(&self) -> &[u8]
        ensures { result.now ≡ (seen self.now).traffic.bytes }
    {
        self.released.as_slice()
    }

    /// Where memory comes from.
    pub fn alloc(&self) -> Global {
        self.alloc
    }

    /// The value of the last `return`.
    pub fn returned(&self) -> u32
        ensures { result ≡ self.now.returned }
    {
        self.returned
    }

    /// A `return` gives this value.
    pub fn give_back(&mut self, word: u32)
        ensures same { seen self.new ≡ seen self.old }
        ensures value { self.new.returned ≡ word }
    {
        self.returned = word;
    }

    /// Why the evaluation is over, if it is.
    pub fn fault(&self) -> Fault
        ensures { result ≡ self.now.fault }
    {
        self.fault
    }

    /// The evaluation is over.
    #[cold]
    pub fn stop(&mut self, fault: Fault) -> Stopped
        ensures same { seen self.new ≡ seen self.old }
        ensures fault { self.new.fault ≡ fault }
    {
        self.fault = fault;
        Stopped
    }

    /// How many turns may still begin.
    pub fn turns(&self) -> u64
        ensures { result ≡ (seen self.now).turns }
    {
        self.turns
    }

    /// The word of an element of a variable.
    #[tactic(auto, using(crate::proofs::Lookups::lookups))]
    pub fn read(&self, token: u32, index: u32) -> u32
        ensures { result ≡ (seen self.now).memory token index }
    {
        match self.variables.get(token as usize) {
            None => 0,
            Some(words) => word_at(words, index),
        }
    }

    /// An index has to be below the length. `at` is the token that the end is told by where it is not.
    pub fn within(&mut self, at: u32, length: u32, index: u32) -> Result<u32, Stopped>
        ensures does { Does (within at length index (seen self.old)) result self.new }
    {
        if index < length {
            return Ok(index);
        }
        Err(self.stop(Fault::Index { at }))
    }

    /// The next byte of the input, or -1 after the last one.
    pub fn take_input(&mut self) -> u32
        ensures { taking_input (seen self.old) ≡ GoesOn result (seen self.new) }
    {
        match self.input.get(self.next) {
            None => 0xffff_ffff,
            Some(byte) => {
                let byte = *byte;
                self.next += 1;
                byte as u32
            }
        }
    }

    /// An element of a variable gets a word.
    pub fn write(&mut self, variable: &Variable, index: u32, word: u32) -> Result<(), Stopped>
        ensures written { OnOk result (seen self.new ≡ writing bare variable.now index word (seen self.old)) }
        ensures err { OnErr result (self.new.fault ≡ Fault.OutOfMemory) }
    {
        if self.has_word(variable.token, index) {
            self.variables[variable.token as usize].set(index as usize, word);
            return Ok(());
        }
        self.write_first(variable, index, word)
    }

    /// Whether an element has a word in memory.
    #[tactic(auto, using(crate::proofs::Lookups::lookups))]
    fn has_word(&self, token: u32, index: u32) -> bool
        ensures variable { IsTrue result → token < length self.now.variables.items }
        ensures element { IsTrue result → index < length (slice_index_or self.now.variables.items token []) }
    {
        match self.variables.get(token as usize) {
            None => false,
            Some(words) => (index as usize) < words.len(),
        }
    }

    /// An element gets a word that has none in memory.
    #[cold]
    #[inline(never)]
    fn write_first(&mut self, variable: &Variable, index: u32, word: u32) -> Result<(), Stopped>
        ensures written { OnOk result (seen self.new ≡ writing bare variable.now index word (seen self.old)) }
        ensures err { OnErr result (self.new.fault ≡ Fault.OutOfMemory) }
    {
        match self.put(variable, index, word) {
            Ok(()) => Ok(()),
            Err(_) => Err(self.stop(Fault::OutOfMemory)),
        }
    }

    /// An element of a variable gets a word, for which memory is made.
    fn put(&mut self, variable: &Variable, index: u32, word: u32) -> Result<(), AllocError>
        ensures { OnOk result (seen self.new ≡ writing bare variable.now index word (seen self.old)) }
    {
        make_variable(self.alloc, &mut self.variables, variable.token)?;
        let words = &mut self.variables[variable.token as usize];
        make_word(words, index)?;
        words.set(index as usize, word);
        Ok(())
    }

    /// Releases the low eight bits of a word.
    pub fn release(&mut self, word: u32) -> Result<(), Stopped>
        ensures released { OnOk result (seen self.new ≡ releasing word (seen self.old)) }
        ensures err { OnErr result (self.new.fault ≡ Fault.OutOfMemory) }
    {
        match self.released.push((word % 256) as u8) {
            Ok(()) => Ok(()),
            Err(_) => Err(self.stop(Fault::OutOfMemory)),
        }
    }

    /// A loop turn begins, if one may still begin.
    pub fn begin_turn(&mut self) -> Result<u64, Stopped>
        ensures begun { Does (begin_turn bare (seen self.old)) result self.new }
    {
        if self.turns == 0 {
            return Err(self.stop(Fault::Turns));
        }
        self.turns -= 1;
        Ok(self.turns)
    }
}

/// A word of a list, or zero after its end.
#[tactic(auto, using(crate::proofs::Lookups::lookups))]
fn word_at(words: &Items<u32>, index: u32) -> u32
    ensures { result ≡ slice_index words.now index }
{
    match words.get(index as usize) {
        None => 0,
        Some(word) => *word,
    }
}

/// Makes a list at least so long that it has this index.
#[tactic(auto, using(crate::proofs::Lookups::growths))]
fn make_word(words: &mut Items<u32>, index: u32) -> Result<(), AllocError>
    ensures same { (i : ℕ) → slice_index words.new i ≡ slice_index words.old i }
    ensures there { OnOk result (index < length words.new) }
{
    while words.len() <= index as usize {
        words.push(0)?;
    }
    Ok(())
}

/// Makes a list of lists at least so long that it has this index.
#[tactic(auto, using(crate::proofs::Lookups::growths))]
fn make_variable(
    alloc: Global,
    variables: &mut Vec<Items<u32>>,
    token: u32,
) -> Result<(), AllocError>
    ensures same { (x i : ℕ) → memory_of variables.new.items x i ≡ memory_of variables.old.items x i }
    ensures there { OnOk result (token < length variables.new.items) }
{
    while variables.len() <= token as usize {
        variables.push(Items::new(alloc))?;
    }
    Ok(())
}
