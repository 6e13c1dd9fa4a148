//! Laws of what is said of a tree on its trace. These functions do nothing but state them.
ghost use Rattle.hash_tree.specs.AsWritten.{AsWrittenInOrder};
ghost use Rattle.hash_tree.specs.TreeLaws.{EventsElsewhere, KeptIsExpected, LayoutsAreLawful, LendingChangesContents, StopsAreUnfaithful};

/// Reads that gave what had been written, in order; and an image only tells more of what is faithful.
pub fn reads_as_written()
    ensures law { AsWrittenInOrder }
{}

/// An event at no place of the tree keeps a tree standing, and its contents.
pub fn events_elsewhere()
    ensures law { EventsElsewhere }
{}

/// The digest that the chip keeps of a block is the one that is expected by the trace.
pub fn kept_is_expected()
    ensures law { KeptIsExpected }
{}

/// A load does not stop where each read was faithful.
pub fn stops_are_unfaithful()
    ensures law { StopsAreUnfaithful }
{}

/// What is left in a line that was lent are the contents of its block, and no other contents change.
pub fn lending_changes_contents()
    ensures law { LendingChangesContents }
{}

/// The tree of a layout keeps what the laws of trees rest on.
pub fn layouts_are_lawful()
    ensures law { LayoutsAreLawful }
{}
