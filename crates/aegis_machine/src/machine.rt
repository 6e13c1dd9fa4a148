//! The machine in turns.
ghost use Rattle.std.specs.Prelude.{◌≡◌, ◌≢◌, ℕ, ◌+◌, ◌≤◌, true, List, [], ◌∷◌, ◌++◌, length, IfErr, IfOk, IfSome, OnOk, Some};
ghost use Rattle.std.specs.List.{list_all};
ghost use Rattle.regions.specs.declared.Mode.TheVariants.{Std, Te};
ghost use Rattle.off_chip.specs.declared.Event.{Event as SomeEvent};
ghost use Rattle.off_chip.specs.declared.Event.TheVariants.{Note};
ghost use Rattle.off_chip.specs.declared.Mark.TheVariants.{Enter};
ghost use Rattle.off_chip.specs.Boundaries.{enter_events, retired};
ghost use Rattle.hash_tree.specs.TreeParts.{SameTree};
ghost use Rattle.bus_machine.specs.BusAccesses.{is_access_event};
ghost use Rattle.std.specs.FinMap.{empty};
ghost use Rattle.off_chip.specs.BusCalls.{TellsOnly};
ghost use Rattle.image_file.specs.declared.Image.{Image as SomeImage};
ghost use Rattle.bus_machine.specs.BusMachine.{Veil};
ghost use Rattle.stamp_log.specs.StandsOn.{IsNew};
ghost use Rattle.secure_memory.specs.MemoryStands.{IsOfLayout, MemoryStands};
ghost use Rattle.orbis_core.specs.Ideal.{entry_address};
ghost use Rattle.secure_memory.specs.PrivatePads.{hidden_payload};
ghost use Rattle.memory_trace.specs.SoundTraces.{IsSound};
ghost use Rattle.aegis_machine.specs.Stores.{IsNewStore};
ghost use Rattle.aegis_machine.specs.declared.turns.Turn.TheVariants.{Parked as StaysParked, Over};
ghost use Rattle.aegis_machine.specs.Boundaries.{blocks_in, entered_digest};
ghost use Rattle.aegis_machine.specs.ProgramsRead.{SomeStaticUnfaithful};
ghost use Rattle.block_hash.specs.BlockStrings.{program_digest};
ghost use Rattle.image_file.specs.ImageTable.{static_bytes};
ghost use Rattle.off_chip.specs.OffChipBytes.{static_blocks};
ghost use Rattle.aegis_machine.specs.MachineParts.{AreBytes, CarriesSums, EndsTurn, EntersSo, FitsMachine, IsOfEntering, RetiresInTurn, RunIsOver, StandsWith, TakesIn, TakesRest, log_key, program_of};

use crate::ends::{End, has_fuel};
use crate::held::Held;
use crate::program::digest_of;
use crate::store::Store;
use crate::turns::{Turn, run_on};
use aegis_edge::Sink;
use aegis_num::Stamps;
use arrayvec::ArrayVec;
use image_file::Image;
use line_cache::{Lines, Pins};
use off_chip::OffChip;
use orbis_core::{Core, Port};
use regions::{BLOCK_BYTES, ModeUnit, TREE_START};
use secure_memory::{Parts, SecureMemory};

/// A machine that runs an image in turns.
#[derive(Drop)]
pub struct Machine<L: Lines> {
    /// What its memory consists of, while no turn uses it.
    pub parts: Option<Parts<L>>,
    /// The core.
    pub core: Core,
    /// How many bytes of the input were read.
    pub next: usize,
    /// The bytes that are held.
    pub held: Held,
    /// The fuel, in events.
    pub fuel: u64,
    /// How many instructions of the secure program were done.
    pub retired: u64,
    /// Whether the program was entered.
    pub entered: bool,
}

impl<L: Lines + Drop> Machine<L> {
    /// A machine that runs an image with so much fuel, in events. Its store was made for this image and not run before.
    pub fn new(image: &Image, fuel: u64, store: Store<L>) -> Machine<L>
        requires store { IsNewStore L.lines image.now.layout store }
        ensures fits { (input : List ℕ) → FitsMachine L.lines image.now input
            (hidden_payload store.tree.veil) [] [] result }
        ensures fuel { result.fuel ≡ fuel }
        ensures retired { result.retired ≡ 0 }
        ensures key { log_key result ≡ Some store.log.key }
    {
        let layout = image.layout;
        let (tree, log, held) = store.apart();
        Machine {
            parts: Some(Parts {
                tree,
                log,
                stamps: Stamps::new(),
                modes: ModeUnit::new(),
                layout,
            }),
            core: Core::new(start_address(image)),
            next: 0,
            held,
            fuel,
            retired: 0,
            entered: false,
        }
    }

    /// Runs the image until `n` instructions of the secure program were done, which is at least one, or the run is over. Image,
    /// input, bus and sink are those of the turns before. After `Over` the machine is not used again.
    pub fn turn<O: OffChip, K: Sink>(
        &mut self,
        image: &Image,
        input: &[u8],
        bus: &mut O,
        out: &mut K,
        n: u32,
    ) -> Turn
        requires some { 1 ≤ n }
        requires fits { (veil : Veil) × (handed_out : List ℕ)
            × FitsMachine L.lines image.now input.now veil (O.trace bus.old) handed_out self.old
            × TakesRest (K.limit out.old) self.old.fuel (length handed_out) }
        requires room { self.old.fuel ≤ length (O.trace bus.old) + O.room bus.old }
        requires told { TellsOnly image.now.layout (O.layout bus.old) }
        ensures does { (piece : List ℕ)
            × TakesIn result (O.trace bus.new) (K.written out.old) (K.written out.new)
            (K.faults out.old) (K.faults out.new) piece
            × ((veil : Veil) (handed_out : List ℕ)
            → FitsMachine L.lines image.now input.now veil (O.trace bus.old) handed_out self.old
            → TakesRest (K.limit out.old) self.old.fuel (length handed_out)
            → EndsTurn L.lines image.now input.now veil self.old.fuel result
            (O.trace bus.new) (K.limit out.new) (handed_out ++ piece) self.new) }
        ensures sums { IfSome (log_key self.old) (λ key. CarriesSums key result (O.trace bus.new)) }
        ensures key { result ≡ StaysParked → log_key self.new ≡ log_key self.old }
        ensures same { O.same_memory bus.old bus.new }
        ensures parked { result ≡ StaysParked → self.new.retired ≡ self.old.retired + n }
        ensures over { RetiresInTurn result n (retired (O.trace bus.old)) (retired (O.trace bus.new)) }
        ensures total { length (O.trace bus.new) + O.room bus.new
            ≡ length (O.trace bus.old) + O.room bus.old }
    {
        match self.ready_parts(image, bus) {
            Ok(parts) => self.turn_with(parts, input, bus, out, n),
            Err(end) => Turn::Over(end),
        }
    }

    // Gives what the memory consists of, after the program was entered, where it was not yet.
    fn ready_parts<O: OffChip>(&mut self, image: &Image, bus: &mut O) -> Result<Parts<L>, End>
        requires fits { (input : List ℕ) × (veil : Veil) × (handed_out : List ℕ)
            × FitsMachine L.lines image.now input veil (O.trace bus.old) handed_out self.old }
        requires room { self.old.fuel ≤ length (O.trace bus.old) + O.room bus.old }
        requires told { TellsOnly image.now.layout (O.layout bus.old) }
        ensures ready { IfOk result (λ parts. (input : List ℕ) (veil : Veil) (handed_out : List ℕ)
            → AreBytes input
            → FitsMachine L.lines image.now input veil (O.trace bus.old) handed_out self.old
            → StandsWith L.lines image.now input veil (O.trace bus.new) handed_out
            self.old.core self.old.next self.old.held self.old.fuel self.old.retired parts) }
        ensures stands { IfOk result (λ parts. MemoryStands parts.layout parts.tree
            (L.lines parts.tree.lines) parts.log parts.stamps (O.trace bus.new)) }
        ensures layout { IfOk result (λ parts. parts.layout ≡ image.now.layout) }
        ensures over { IfErr result (λ end. (input : List ℕ) (veil : Veil) (handed_out : List ℕ)
            → FitsMachine L.lines image.now input veil (O.trace bus.old) handed_out self.old
            → RunIsOver veil (program_of image.now input) self.old.fuel handed_out end
            (O.trace bus.new)) }
        ensures ends { IfErr result IsOfEntering }
        ensures key { IfOk result (λ parts. log_key self.old ≡ Some parts.log.key) }
        ensures entered { OnOk result (self.new.entered ≡ true) }
        ensures core { self.new.core ≡ self.old.core }
        ensures next { self.new.next ≡ self.old.next }
        ensures held { self.new.held ≡ self.old.held }
        ensures fuel { self.new.fuel ≡ self.old.fuel }
        ensures retired { self.new.retired ≡ self.old.retired }
        ensures none { retired (O.trace bus.new) ≡ retired (O.trace bus.old) }
        ensures same { O.same_memory bus.old bus.new }
        ensures total { length (O.trace bus.new) + O.room bus.new
            ≡ length (O.trace bus.old) + O.room bus.old }
    {
        match self.parts.take() {
            Some(parts) => {
                if self.entered {
                    return Ok(parts);
                }
                self.entered = true;
                enter_program(parts, image, bus, self.fuel)
            }
            None => unreachable!(),
        }
    }

    // Runs with a memory of these parts, and keeps its parts after it.
    fn turn_with<O: OffChip, K: Sink>(
        &mut self,
        parts: Parts<L>,
        input: &[u8],
        bus: &mut O,
        out: &mut K,
        n: u32,
    ) -> Turn
        requires entered { self.old.entered ≡ true }
        requires stands { MemoryStands parts.layout parts.tree
            (L.lines parts.tree.lines) parts.log parts.stamps (O.trace bus.old) }
        requires runs { (image : SomeImage) × (veil : Veil) × (handed_out : List ℕ)
            × StandsWith L.lines image input.now veil (O.trace bus.old) handed_out
            self.old.core self.old.next self.old.held self.old.fuel self.old.retired parts
            × TakesRest (K.limit out.old) self.old.fuel (length handed_out) }
        requires room { self.old.fuel ≤ length (O.trace bus.old) + O.room bus.old }
        requires told { TellsOnly parts.layout (O.layout bus.old) }
        ensures does { (piece : List ℕ)
            × TakesIn result (O.trace bus.new) (K.written out.old) (K.written out.new)
            (K.faults out.old) (K.faults out.new) piece
            × ((image : SomeImage) (veil : Veil) (handed_out : List ℕ)
            → StandsWith L.lines image input.now veil (O.trace bus.old) handed_out
            self.old.core self.old.next self.old.held self.old.fuel self.old.retired parts
            → TakesRest (K.limit out.old) self.old.fuel (length handed_out)
            → EndsTurn L.lines image input.now veil self.old.fuel result
            (O.trace bus.new) (K.limit out.new) (handed_out ++ piece) self.new) }
        ensures sums { CarriesSums parts.log.key result (O.trace bus.new) }
        ensures key { log_key self.new ≡ Some parts.log.key }
        ensures same { O.same_memory bus.old bus.new }
        ensures parked { result ≡ StaysParked → self.new.retired ≡ self.old.retired + n }
        ensures over { RetiresInTurn result n (retired (O.trace bus.old)) (retired (O.trace bus.new)) }
        ensures total { length (O.trace bus.new) + O.room bus.new
            ≡ length (O.trace bus.old) + O.room bus.old }
    {
        let Parts {
            tree,
            log,
            stamps,
            modes,
            layout,
        } = parts;
        let mut mem = SecureMemory {
            lent: bus,
            tree,
            log,
            stamps,
            mode_unit: modes,
            layout,
            pins: Pins {
                blocks: ArrayVec::new(),
            },
        };
        let mut port = Port {
            input,
            next: self.next,
        };
        let turn = run_on(
            &mut mem,
            &mut self.core,
            &mut port,
            &mut self.held,
            &mut self.retired,
            out,
            self.fuel,
            n,
        );
        self.next = port.next;
        let (parts, _bus) = apart(mem);
        self.parts = Some(parts);
        turn
    }
}

/// Runs an image until its end, with so much fuel, in events. The store was made for this image and not run before, and the bus
/// has no event yet.
pub fn run<O: OffChip, K: Sink, L: Lines + Drop>(
    image: &Image,
    input: &[u8],
    fuel: u64,
    bus: &mut O,
    out: &mut K,
    store: Store<L>,
) -> End
    requires store { IsNewStore L.lines image.now.layout store }
    requires unused { O.trace bus.old ≡ [] }
    requires room { fuel ≤ O.room bus.old }
    requires told { TellsOnly image.now.layout (O.layout bus.old) }
    requires takes { TakesRest (K.limit out.old) fuel 0 }
    ensures does { (piece : List ℕ)
        × TakesIn (Over result) (O.trace bus.new) (K.written out.old) (K.written out.new)
        (K.faults out.old) (K.faults out.new) piece
        × RunIsOver (hidden_payload store.tree.veil) (program_of image.now input.now)
        fuel piece result (O.trace bus.new) }
    ensures sums { CarriesSums store.log.key (Over result) (O.trace bus.new) }
    ensures same { O.same_memory bus.old bus.new }
{
    let _events = bus.events();
    let mut machine = Machine::new(image, fuel, store);
    'turns: for _ in 0..u64::MAX {
        match machine.turn(image, input, bus, out, u32::MAX) {
            Turn::Parked => {}
            Turn::Over(end) => return end,
        }
    }
    unreachable!()
}

// The address of the first instruction.
fn start_address(image: &Image) -> u32
    ensures { result ≡ entry_address image.now.layout image.now.entry }
{
    let layout = &image.layout;
    let blocks = layout.verified + layout.private + layout.constants;
    TREE_START + BLOCK_BYTES * blocks + 4 * image.entry
}

// Enters the program with new parts, where there is fuel for it. The run is over where another program was read than that of
// the image.
fn enter_program<O: OffChip, L: Lines + Drop>(
    parts: Parts<L>,
    image: &Image,
    bus: &mut O,
    fuel: u64,
) -> Result<Parts<L>, End>
    requires unused { O.trace bus.old ≡ [] }
    requires lines { L.lines parts.tree.lines ≡ empty }
    requires log { IsNew parts.log }
    requires of_layout { IsOfLayout parts.layout parts.tree parts.log }
    requires layout { parts.layout ≡ image.now.layout }
    requires room { fuel ≤ O.room bus.old }
    requires told { TellsOnly parts.layout (O.layout bus.old) }
    ensures enters { IfOk result (λ new. EntersSo L.lines parts.layout (static_bytes image.now) fuel
        parts new (O.trace bus.new)) }
    ensures over { IfErr result (λ end. (veil : Veil) (input : List ℕ)
        → RunIsOver veil (program_of image.now input) fuel [] end (O.trace bus.new)) }
    ensures ends { IfErr result IsOfEntering }
    ensures none { retired (O.trace bus.new) ≡ retired (O.trace bus.old) }
    ensures same { O.same_memory bus.old bus.new }
    ensures total { length (O.trace bus.new) + O.room bus.new
        ≡ length (O.trace bus.old) + O.room bus.old }
{
    if !has_fuel(&parts.layout, fuel, 0) {
        return Err(End::FuelOut { retired: 0 });
    }
    let Parts {
        tree,
        log,
        stamps: _,
        modes: _,
        layout,
    } = parts;
    let mut mem = SecureMemory {
        lent: bus,
        tree,
        log,
        stamps: Stamps::new(),
        mode_unit: ModeUnit::new(),
        layout,
        pins: Pins {
            blocks: ArrayVec::new(),
        },
    };
    let read = enter_memory(&mut mem);
    let expected = digest_of(image);
    let (parts, _bus) = apart(mem);
    if read != expected {
        return Err(End::AbortProgram { read, expected });
    }
    Ok(parts)
}

// Enters the program in a new memory, which is in the mode of the program then. The answer is the digest of the program that was
// read.
fn enter_memory<O: OffChip, L: Lines>(mem: &mut SecureMemory<'_, O, L>) -> [u8; 20]
    requires unused { O.trace mem.old.lent.now ≡ [] }
    requires lines { L.lines mem.old.tree.lines ≡ empty }
    requires log { IsNew mem.old.log }
    requires stamps { mem.old.stamps ≡ 0 }
    requires parts { IsOfLayout mem.old.layout mem.old.tree mem.old.log }
    requires modes { mem.old.mode_unit.mode ≡ Std }
    requires room { enter_events mem.old.layout ≤ O.room mem.old.lent.now }
    requires told { TellsOnly mem.old.layout (O.layout mem.old.lent.now) }
    ensures stands { MemoryStands mem.new.layout mem.new.tree
        (L.lines mem.new.tree.lines) mem.new.log mem.new.stamps (O.trace mem.new.lent.now) }
    ensures sound { IsSound mem.new.layout (O.trace mem.new.lent.now) }
    ensures lines { L.lines mem.new.tree.lines ≡ empty }
    ensures log_lines { mem.new.log.lines ≡ mem.old.log.lines }
    ensures tree { SameTree mem.old.tree mem.new.tree }
    ensures key { mem.new.log.key ≡ mem.old.log.key }
    ensures mode { mem.new.mode_unit.mode ≡ Te }
    ensures layout { mem.new.layout ≡ mem.old.layout }
    ensures events { (rest : List SomeEvent) × (O.trace mem.new.lent.now ≡ Note Enter ∷ rest)
        × (list_all is_access_event rest ≡ true) }
    ensures count { length (O.trace mem.new.lent.now) ≡ enter_events mem.old.layout }
    ensures digest { result ≡ entered_digest mem.old.layout (O.trace mem.new.lent.now) }
    ensures unfaithful { (statics : List ℕ)
        → result ≢ program_digest (blocks_in (static_blocks mem.old.layout) statics)
        → SomeStaticUnfaithful mem.old.layout statics (O.trace mem.new.lent.now) }
    ensures same { O.same_memory mem.old.lent.now mem.new.lent.now }
    ensures total { length (O.trace mem.new.lent.now) + O.room mem.new.lent.now
        ≡ length (O.trace mem.old.lent.now) + O.room mem.old.lent.now }
    ensures same_reference { mem.new.lent.ghost_name ≡ mem.old.lent.ghost_name }
{
    let digest = mem.enter();
    let _entered = mem.mode_unit.enter();
    digest
}

// Takes a memory apart: what it consists of, and its bus.
fn apart<'a, O: OffChip, L: Lines>(mem: SecureMemory<'a, O, L>) -> (Parts<L>, &'a mut O)
    ensures same_reference { result.1.ghost_name ≡ mem.entry.lent.ghost_name }
    ensures bus { result.1.now ≡ mem.entry.lent.now }
    ensures tree { result.0.tree ≡ mem.entry.tree }
    ensures log { result.0.log ≡ mem.entry.log }
    ensures stamps { result.0.stamps ≡ mem.entry.stamps }
    ensures modes { result.0.modes ≡ mem.entry.mode_unit }
    ensures layout { result.0.layout ≡ mem.entry.layout }
{
    let SecureMemory {
        lent,
        tree,
        log,
        stamps,
        mode_unit,
        layout,
        pins: _,
    } = mem;
    let parts = Parts {
        tree,
        log,
        stamps,
        modes: mode_unit,
        layout,
    };
    (parts, lent)
}
