//! Laws of the meaning.
ghost use Rattle.c_semantics.specs.MeaningLaws.{
  FewerTurns,
  FewerTurnsLessWork,
  MoreTurns,
  NotingChangesNothingElse,
  OnlyAdds,
  ReadsNoEntry,
  TurnsAreUsed,
  TurnsOfEach,
};

/// Where a run ends with so many loop turns, more of them change nothing.
pub fn more_turns_change_nothing()
    ensures same { MoreTurns }
{}

/// With fewer loop turns the released bytes, the writes to shared variables and the loose words taken are a prefix, and
/// neither work nor a count is greater.
pub fn fewer_turns_give_a_prefix()
    ensures prefix { FewerTurns }
    ensures work { FewerTurnsLessWork }
{}

/// Both hold of the meanings where nothing is loose, where shared words are, and where shared and logged words are.
pub fn turns_of_each_meaning()
    ensures each { TurnsOfEach }
{}

/// A run ends for want of turns only where no turn is left.
pub fn turns_are_used()
    ensures used { TurnsAreUsed }
{}

/// A statement takes nothing back: bytes and writes come after those before, and no count falls.
pub fn statements_only_add()
    ensures adds { OnlyAdds }
{}

/// Whether work, checks, suspensions and shared writes are noted changes nothing else.
pub fn noting_changes_nothing_else()
    ensures same { NotingChangesNothingElse }
{}

/// With no loose class no loose word is read, and any loose words give one meaning.
pub fn no_loose_class_reads_no_entry()
    ensures unread { ReadsNoEntry }
{}
