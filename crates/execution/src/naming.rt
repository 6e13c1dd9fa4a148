//! Laws of names under which places are known elsewhere.
ghost use Rattle.execution.specs.Naming.{NamesAddresses, NamesKeep, NamesReachAll};

/// Under names what goes in and comes out is as it was, in each of its parts, where the names tell places apart.
pub fn names_keep<Place, Name>()
    ensures kept { NamesKeep Place Name }
{}

/// Where each name is a place's, every list of words at names is one of words at places, under the names.
pub fn names_reach_all<Place, Name>()
    ensures reached { NamesReachAll Place Name }
{}

/// From elements that are apart and their addresses there is a naming of all elements by all numbers that agrees with the
/// addresses.
pub fn elements_have_names()
    ensures named { NamesAddresses }
{}
