//! The secure memory as the memory of the machine.
use crate::guarded::Guarded;
use line_cache::Lines;
use off_chip::{Mark, OffChip};
use regions::Mode;
use secure_memory::SecureMemory;
use stamp_log::LogCause;
use untrusted_run::run_untrusted;

impl<O: OffChip, L: Lines> Guarded for SecureMemory<'_, O, L> {
    ghost use Rattle.std.specs.Prelude.{◌≡◌};
    ghost use Rattle.std.proofs.Common.{refl, ◌∙◌};
    ghost use Rattle.stamp_log.specs.LogState.{value_under};
    ghost use Rattle.stamp_log.specs.OfflineCheck.{IsCause, PassedFaithful};
    ghost use Rattle.secure_memory.specs.MemorySights.{sight_of};
    ghost use Rattle.aegis_machine.specs.Causes.{EndsByCause};
    ghost use Rattle.aegis_machine.specs.Keeping.{SameTotal, keep_both, secure_keeps, secure_keeps_key};
    ghost use Rattle.aegis_machine.specs.SecureSights.{bus_sight};
    ghost use Rattle.aegis_machine.specs.SecureMeets.{secure_leaves_room, secure_meets};
    ghost use Rattle.aegis_machine.specs.Watched.{IsWatched, secure_watches};

    ghost sight = { bus_sight (λ (memory : Self). sight_of L.lines O.trace O.room O.layout memory) };

    ghost room = { λ memory. O.room memory.lent.now };

    ghost ready = { λ memory. IsWatched (sight_of L.lines O.trace O.room O.layout memory) };

    ghost Keeps = { λ old new. (new.lent.ghost_name ≡ old.lent.ghost_name) × O.same_memory old.lent.now new.lent.now
        × SameTotal (O.trace old.lent.now) (O.room old.lent.now) (O.trace new.lent.now) (O.room new.lent.now)
        × (new.log.key ≡ old.log.key) };

    ghost Passed = { λ memory. PassedFaithful (value_under memory.log.key) (O.trace memory.lent.now) };

    ghost Caused = { λ cause memory. IsCause (value_under memory.log.key) (O.trace memory.lent.now) cause
        × EndsByCause memory.layout.log (O.trace memory.lent.now) cause };

    fn mode(&self) -> Mode {
        self.mode_unit.mode()
    }

    fn quiet(&self) -> bool {
        SecureMemory::quiet(self)
    }

    fn note(&mut self, mark: Mark) {
        self.lent.note(mark);
    }

    fn set_private(&mut self, on: bool) {
        let _allowed = if on {
            self.mode_unit.private_on()
        } else {
            self.mode_unit.private_off()
        };
    }

    fn check(&mut self) -> Result<(), LogCause> {
        SecureMemory::check(self)
    }

    fn suspend(&mut self) {
        let _left = self.mode_unit.suspend();
        self.lent.note(Mark::Suspend);
        let _end = run_untrusted(&mut *self.lent);
        self.lent.note(Mark::Resume);
        let _back = self.mode_unit.resume();
    }

    ghost meets = { secure_meets _ _ };

    ghost spends = { secure_watches _ _ };

    ghost keeps_self = { λ a. (refl, O.reflexive a.lent.now, refl, refl) };

    ghost keeps_both = { λ a b c one other. (
      other.0 ∙ one.0,
      O.transitive a.lent.now b.lent.now c.lent.now one.1 other.1,
      other.2 ∙ one.2,
      other.3 ∙ one.3,
    ) };

    ghost keeps_each = { keep_both _ _ _ _ (λ old new one key. (one.0, one.1, one.2, key)) (secure_keeps _ _)
        (secure_keeps_key _ _) };

    ghost leaves = { λ memory n watched room. secure_leaves_room (sight_of L.lines O.trace O.room O.layout memory) n watched.ready room };
}
