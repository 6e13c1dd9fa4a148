//! Memory on a bus, as the machine has it.
ghost use Rattle.std.specs.Prelude.{◌≡◌, ℕ, ◌+◌, ◌*◌, ◌<◌, ◌≤◌, true, [], ◌∷◌, IsTrue, OnOk, IfErr, ◌↔◌};
ghost use Rattle.regions.specs.Modes.{is_secure};
ghost use Rattle.off_chip.specs.declared.Event.TheVariants.{Note};
ghost use Rattle.off_chip.specs.Histories.{history};
ghost use Rattle.off_chip.specs.Epochs.{IsQuiet};
ghost use Rattle.bus_machine.specs.BusAccesses.{Sight};
ghost use Rattle.stamp_log.specs.declared.LogCause.{LogCause as SomeCause};
ghost use Rattle.aegis_machine.specs.Guards.{LeadsOn, MissesCheck, PassesCheck, SetsPrivate, Suspends, is_own_mark, set_from};

use off_chip::Mark;
use orbis_core::Memory;
use regions::Mode;
use stamp_log::LogCause;

/// A memory on a bus, with all that the machine asks of it beside the five accesses.
pub trait Guarded: Memory {
    ghost use Rattle.orbis_core.specs.Accesses.{LeaveOneFewer};
    ghost use Rattle.bus_machine.specs.BusAccesses.{MeetsBus};
    ghost use Rattle.aegis_machine.specs.Keeping.{KeepEach};

    /// How it is seen.
    ghost sight: { Sight Self };

    /// How many further events there is room for on its bus.
    ghost room: { Self → ℕ };

    /// It stands on its bus, so that each call can follow.
    ghost ready: { Self → Type 0 };

    /// What its calls keep of it: it is on the bus that it was on, whose events and room are together the same, and its log
    /// has the same key.
    ghost Keeps: { Self → Self → Type 0 };

    /// What is known of it where its last call was a check that passed.
    ghost Passed: { Self → Type 0 };

    /// What is known of it where its last call was a check that did not pass, by the cause that it gave.
    ghost Caused: { SomeCause → Self → Type 0 };

    /// The mode.
    fn mode(&self) -> Mode
        ensures { result ≡ sight.mode self.now };

    /// Whether no block of the log was read since the latest check that passed.
    fn quiet(&self) -> bool
        requires ready { ready self.now }
        ensures { IsTrue result ↔ IsQuiet (history (sight.trace self.now)) };

    /// Notes that an instruction is done or that bytes are sent.
    fn note(&mut self, mark: Mark)
        requires ready { ready self.old }
        requires has_room { 0 < room self.old }
        requires own { is_own_mark mark ≡ true }
        ensures event { LeadsOn sight (Note mark ∷ []) self.old self.new }
        ensures room { room self.new + 1 ≡ room self.old }
        ensures kept { Keeps self.old self.new }
        ensures ready { ready self.new };

    /// Lets the program use its private data from now on, where it cannot, or no longer, where it can.
    fn set_private(&mut self, on: bool)
        requires ready { ready self.old }
        requires from { sight.mode self.old ≡ set_from on }
        ensures sets { SetsPrivate sight on self.old self.new }
        ensures room { room self.new ≡ room self.old }
        ensures kept { Keeps self.old self.new }
        ensures ready { ready self.new };

    /// Checks all reads of the log since the latest check that passed. Takes room for 1,058 events.
    fn check(&mut self) -> Result<(), LogCause>
        requires ready { ready self.old }
        requires has_room { 1058 ≤ room self.old }
        ensures passed { OnOk result (PassesCheck sight self.old self.new) }
        ensures known { OnOk result (Passed self.new) }
        ensures missed { IfErr result (λ cause. MissesCheck sight Caused cause self.old self.new) }
        ensures room { room self.old ≤ room self.new + 1058 }
        ensures kept { Keeps self.old self.new }
        ensures ready { OnOk result (ready self.new) };

    /// Runs untrusted code between a mark of suspension and one of resumption. Takes room for 16,386 events.
    fn suspend(&mut self)
        requires ready { ready self.old }
        requires secure { IsTrue (is_secure (sight.mode self.old)) }
        requires has_room { 16386 ≤ room self.old }
        ensures phase { Suspends sight self.old self.new }
        ensures room { room self.old ≤ room self.new + 16386 }
        ensures kept { Keeps self.old self.new }
        ensures ready { ready self.new };

    /// Its five accesses are told in the form of a bus, and each that is not stopped takes at most 160 events, after which it stands.
    ghost meets: { MeetsBus sight Self.accesses };

    ghost spends: { LeaveOneFewer Self.accesses (λ (memory : Self) (n : ℕ). ready memory × (160 * n ≤ room memory)) };

    /// Each keeps as much of itself, and what several calls keep, they keep together; and so does each access.
    ghost keeps_self: { (a : Self) → Keeps a a };

    ghost keeps_both: { (a b c : Self) → Keeps a b → Keeps b c → Keeps a c };

    ghost keeps_each: { KeepEach Self.accesses Keeps };

    /// Where it stands, as many accesses are left as there is room for.
    ghost leaves: { (memory : Self) (n : ℕ) → ready memory → 160 * n ≤ room memory → Self.has_left memory n };
}
