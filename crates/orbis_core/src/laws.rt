//! Laws of steps and of the ideal machine.
ghost use Rattle.orbis_core.specs.Carrying.{StepsCarry};
ghost use Rattle.orbis_core.specs.FlatIsIdeal.{FlatStartIsIdeal, FlatStepIsIdeal};
ghost use Rattle.orbis_core.specs.IdealLaws.{ClassIsOfWord, CodeIsFetched, CodeStays, IdealEndsStay, IdealRunsExtend, IdealRunsJoin, ModeStaysSecure, StatesAreWhole, StepIsCarried, StepsKeepWhole};
ghost use Rattle.orbis_core.specs.Loosening.{RunsLoosen};
ghost use Rattle.orbis_core.specs.OwnMemory.{OwnStepIsIdeal};
ghost use Rattle.orbis_core.specs.Rows.{StepsLeaveFewer};
ghost use Rattle.orbis_core.specs.Soundness.{LoggedAddressIsUnsound, OpenLoadIsUnsound, OpenStoreIsUnsound, ReleaseIsSound};

use crate::memory::Memory;

/// A way from one memory to another: a relation that each call carries over.
pub trait Carries {
    ghost use Rattle.orbis_core.specs.Accesses.{Accesses};
    ghost use Rattle.orbis_core.specs.Carrying.{CarriesOver};

    /// The one memory, and the other.
    ghost One: { Type 0 };

    ghost Other: { Type 0 };

    /// What the calls of each do.
    ghost calls: { Accesses One };

    ghost other_calls: { Accesses Other };

    /// How the two are related.
    ghost related_to: { One → Other → Type 0 };

    /// Each call carries this over.
    ghost carries: { CarriesOver calls other_calls related_to };
}

/// A step over the one memory is a step over the other.
pub fn steps_carry<C: Carries>()
    ensures carried { StepsCarry C.calls C.other_calls C.related_to }
{}

/// A step uses at most two accesses, whatever memory it is made over.
pub fn steps_leave_fewer<M: Memory>()
    ensures left { StepsLeaveFewer M.accesses M.has_left }
{}

/// The memory of the ideal machine is a memory that steps are made over.
pub fn own_memory_is_ideal()
    ensures step { OwnStepIsIdeal }
{}

/// Flat memory is the ideal memory.
pub fn flat_is_ideal()
    // Both machines begin alike.
    ensures start { FlatStartIsIdeal }

    // In TE and PTR a step over flat memory is a step of the ideal machine on which nothing is loose, but that the
    // machine in TE is refused where flat memory lets it use a private word.
    ensures step { FlatStepIsIdeal }
{}

/// Steps of the ideal machine.
pub fn ideal_steps()
    // A step whose fetch is not refused does what the instruction there asks for.
    ensures carried { StepIsCarried }

    // No step changes a word of the code. The secure program fetches code alone, and stays in a secure mode.
    ensures code { CodeStays }
    ensures fetched { CodeIsFetched }
    ensures mode { ModeStaysSecure }

    // An address has the class of the word that it lies in.
    ensures class { ClassIsOfWord }
{}

/// Runs of the ideal machine.
pub fn ideal_runs()
    // The state after m + n steps is the one after n steps from the one after m.
    ensures joined { IdealRunsJoin }

    // After an end more steps change nothing.
    ensures ended { IdealEndsStay }

    // More steps only add to what has gone out, and take from the front of what is to come in.
    ensures extended { IdealRunsExtend }
{}

/// Sound images, on worked ones.
pub fn sound_images()
    // To release a byte and to exit is sound.
    ensures sound { ReleaseIsSound }

    // To use a logged word as an address is not, nor is a byte loaded from a shared address or stored there.
    ensures address { LoggedAddressIsUnsound }
    ensures load { OpenLoadIsUnsound }
    ensures store { OpenStoreIsUnsound }
{}

/// States of the ideal machine: 32 registers, of which register 0 is zero; all that they hold is below 2 to the 32nd.
pub fn ideal_states()
    // Each step keeps that where what comes from outside is words.
    ensures kept { StepsKeepWhole }

    // Each state of a run on bytes is so.
    ensures whole { StatesAreWhole }
{}

/// Runs with fewer and with more loose classes.
pub fn runs_loosen()
    // A run with fewer is a run with more, for the list of words that it read there.
    ensures loosened { RunsLoosen }
{}
