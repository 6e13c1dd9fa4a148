//! Laws of the log: these functions do nothing but state them.
ghost use Rattle.stamp_log.specs.OfflineCheck.{OfflineChecksSuffice};
ghost use Rattle.stamp_log.specs.LogLaws.{ForeignEventsKeep, LendingChangesContents};

/// An epoch whose reads and writes are one multiset is faithful.
pub fn offline_checks_suffice()
    ensures law { OfflineChecksSuffice }
{}

/// An event at no place of the log, which is no mark of a check, keeps a log standing, and its contents.
pub fn foreign_events_keep()
    ensures law { ForeignEventsKeep }
{}

/// What is left in a line that was lent are the contents of its block, and no other contents change.
pub fn lending_changes_contents()
    ensures law { LendingChangesContents }
{}
